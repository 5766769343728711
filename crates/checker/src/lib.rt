// The checker: one finished recording in, one answer out.
#![tactic(auto)]

mod concluding;
mod engine;
mod writing;

ghost use Rattle.std.specs.Prelude.{◌≡◌, length};
ghost use Rattle.record.specs.Answers.{Ending};
ghost use Rattle.checker.specs.Verdict.{numbers};
ghost use Rattle.checker.specs.Judged.{judged};
ghost use Rattle.checker.specs.Report.{reported};
ghost use Rattle.checker.specs.Left.{records_left, order_left};
ghost use Rattle.checker.specs.Concluded.{LookedAt, named_in};

use engine::{Engine, Plain, Second};
use graph::Labelled;
use record::Refusal;
use std::fmt;

// What the checker answers.
#[derive(Clone, Copy, PartialEq, Eq)]
pub enum Answer {
    Cooperable { records: usize, transactions: usize },
    Violation { record: usize, length: usize },
    Refused(Refusal),
}

// A transaction that an answer names: its number, its thread, its first record.
#[derive(Clone, Copy, PartialEq, Eq, Default)]
pub struct Line {
    pub transaction: u16,
    pub thread: u8,
    pub first: u16,
}

impl Answer {
    // How many transactions it names.
    pub fn named(self) -> usize
        ensures { result ≡ named_in self }
    {
        match self {
            Answer::Cooperable { transactions, .. } => transactions,
            Answer::Violation { length, .. } => length,
            Answer::Refused(_) => 0,
        }
    }
}

// As the programs print it: a word and two numbers.
impl fmt::Display for Answer {
    fn fmt<W: fmt::Write>(&self, f: &mut fmt::Formatter<W>) -> fmt::Result {
        match self {
            Answer::Cooperable {
                records,
                transactions,
            } => write!(f, "cooperable {records} {transactions}"),
            Answer::Violation { record, length } => write!(f, "violation {record} {length}"),
            Answer::Refused(refusal) => write!(f, "refused {refusal}"),
        }
    }
}

impl fmt::Display for Line {
    fn fmt<W: fmt::Write>(&self, f: &mut fmt::Formatter<W>) -> fmt::Result {
        write!(f, "{} {} {}", self.transaction, self.thread, self.first)
    }
}

// Tries the sizes, and looks through the recording: how many transactions it has.
fn look(
    input: &[u8],
    out: &[u8],
    work: &[u64],
    records: &mut [Labelled; 1024],
) -> Result<u16, Refusal>
    ensures { LookedAt input.now out.now work.now records.old result records.new }
{
    looking::check_room(input, input.len(), out, work)?;
    let looked = looking::look(input, records);
    match looked.refusal {
        Some(refusal) => Err(refusal),
        None => Ok(looked.transactions),
    }
}

// Judges a recording by an engine, and leaves what it found.
fn judge_by<E: Engine>(
    input: &[u8],
    out: &mut [u8],
    work: &mut [u64],
    records: &mut [Labelled; 1024],
    order: &mut [u16; 512],
) -> Answer
    ensures { (◌≡◌ {A = Ending} (record { answer = numbers result; out = out.new; work = work.new })
        (judged input.now out.old work.old))
        × (records.new ≡ records_left input.now out.old work.old records.old)
        × (order.new ≡ order_left input.now out.old work.old order.old) }
{
    let n = match look(input, &*out, &*work, records) {
        Ok(n) => n,
        Err(refusal) => return Answer::Refused(refusal),
    };
    let seen = &records[..input.len() / 8];
    rows::begin(work, n);
    let closing = E::search(seen, work);
    concluding::conclude(seen, n, closing, order, out, work)
}

// Judges a recording by the second engine, and leaves what it found: each record with its transaction, and at the front of `order` the transactions
// that the answer names. Both are lent, as there is no heap.
pub fn judge_into(
    input: &[u8],
    out: &mut [u8],
    work: &mut [u64],
    records: &mut [Labelled; 1024],
    order: &mut [u16; 512],
) -> Answer
    ensures { (◌≡◌ {A = Ending} (record { answer = numbers result; out = out.new; work = work.new })
        (judged input.now out.old work.old))
        × (records.new ≡ records_left input.now out.old work.old records.old)
        × (order.new ≡ order_left input.now out.old work.old order.old) }
{
    judge_by::<Second>(input, out, work, records, order)
}

// Judges a recording: the answer, and the output and the work area at the end.
pub fn judge(input: &[u8], out: &mut [u8], work: &mut [u64]) -> Answer
    ensures { ◌≡◌ {A = Ending} (record { answer = numbers result; out = out.new; work = work.new })
        (judged input.now out.old work.old) }
{
    let mut records = [Labelled::unseen(); 1024];
    let mut order = [0u16; 512];
    judge_into(input, out, work, &mut records, &mut order)
}

// The same by the plain engine.
pub fn judge_plain(input: &[u8], out: &mut [u8], work: &mut [u64]) -> Answer
    ensures { ◌≡◌ {A = Ending} (record { answer = numbers result; out = out.new; work = work.new })
        (judged input.now out.old work.old) }
{
    let mut records = [Labelled::unseen(); 1024];
    let mut order = [0u16; 512];
    judge_by::<Plain>(input, out, work, &mut records, &mut order)
}

// Judges a recording, and tells each transaction that the answer names, in serial order or cycle order.
pub fn report(input: &[u8], out: &mut [u8], work: &mut [u64], lines: &mut [Line; 512]) -> Answer
    ensures { (◌≡◌ {A = Ending} (record { answer = numbers result; out = out.new; work = work.new })
        (judged input.now out.old work.old))
        × (lines.new ≡ reported input.now out.old work.old lines.old) }
{
    let mut records = [Labelled::unseen(); 1024];
    let mut order = [0u16; 512];
    let answer = judge_into(input, out, work, &mut records, &mut order);
    let named = answer.named();
    if 0 < named {
        writing::write_lines(&records[..input.len() / 8], &order[..named], lines);
    }
    answer
}
