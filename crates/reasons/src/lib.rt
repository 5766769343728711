// Why an edge of the reported cycle is there: the two records that make it, and on what they conflict.
#![tactic(auto)]

mod reasoning;
mod searching;
mod telling;

ghost use Rattle.std.specs.Prelude.{◌≡◌};
ghost use Rattle.record.specs.Answers.{Ending};
ghost use Rattle.record.specs.Answers as Answers;
ghost use Rattle.checker.specs.Verdict as Verdict;
ghost use Rattle.checker.specs.Judged.{judged};
ghost use Rattle.reasons.specs.Why.{name_of, number_of, numbers, Asked, asked};
ghost use Rattle.reasons.specs.Lines.{explained};

use checker::Answer;
use graph::Labelled;
use record::Refusal;
use std::fmt;

// On what two operations conflict: the thread, variable or lock of both, or the thread that one of them forks or joins.
#[derive(Clone, Copy, PartialEq, Eq)]
pub enum Reason {
    Thread(u8),
    Variable(u8),
    Lock(u8),
    ForkJoin(u8),
}

impl Reason {
    // Its number, by its place in the order thread, variable, lock, fork/join.
    pub fn name(self) -> u8
        ensures { result ≡ name_of self }
    {
        match self {
            Reason::Thread(_) => 0,
            Reason::Variable(_) => 1,
            Reason::Lock(_) => 2,
            Reason::ForkJoin(_) => 3,
        }
    }

    // Which thread, variable or lock it is.
    pub fn number(self) -> u8
        ensures { result ≡ number_of self }
    {
        match self {
            Reason::Thread(thread) => thread,
            Reason::Variable(var) => var,
            Reason::Lock(lock) => lock,
            Reason::ForkJoin(child) => child,
        }
    }
}

// As the programs print it: a word, and which thread, variable or lock.
impl fmt::Display for Reason {
    fn fmt<W: fmt::Write>(&self, f: &mut fmt::Formatter<W>) -> fmt::Result {
        match self {
            Reason::Thread(thread) => write!(f, "thread {thread}"),
            Reason::Variable(var) => write!(f, "variable {var}"),
            Reason::Lock(lock) => write!(f, "lock {lock}"),
            Reason::ForkJoin(child) => write!(f, "fork-join {child}"),
        }
    }
}

// What makes an edge: two records, and the reason.
#[derive(Clone, Copy, PartialEq, Eq)]
pub struct Cause {
    pub first: usize,
    pub second: usize,
    pub reason: Reason,
}

// As the programs print it: the two records, and the reason.
impl fmt::Display for Cause {
    fn fmt<W: fmt::Write>(&self, f: &mut fmt::Formatter<W>) -> fmt::Result {
        write!(f, "{} {} {}", self.first, self.second, self.reason)
    }
}

// Judges a recording, and tells why the edge at a place of the reported cycle is there: nothing, where there is no such edge.
pub fn why(
    input: &[u8],
    out: &mut [u8],
    work: &mut [u64],
    place: usize,
) -> Result<Option<Cause>, Refusal>
    ensures { ◌≡◌ {A = Asked} (record { answer = numbers (Answers.told result); out = out.new; work = work.new })
        (asked input.now out.old work.old place) }
{
    let mut records = [Labelled::unseen(); 1024];
    let mut order = [0; 512];
    match checker::judge_into(input, out, work, &mut records, &mut order) {
        Answer::Refused(refusal) => Err(refusal),
        Answer::Cooperable { .. } => Ok(None),
        Answer::Violation { record, length } => {
            if place < length {
                let cause = searching::cause_at(&records[..record + 1], &order[..length], place);
                Ok(Some(cause))
            } else {
                Ok(None)
            }
        }
    }
}

// Judges a recording, and tells why each edge of the reported cycle is there, in cycle order.
pub fn explain(
    input: &[u8],
    out: &mut [u8],
    work: &mut [u64],
    lines: &mut [Option<Cause>; 512],
) -> Answer
    ensures { (◌≡◌ {A = Ending} (record { answer = Verdict.numbers result; out = out.new; work = work.new })
        (judged input.now out.old work.old))
        × (lines.new ≡ explained input.now out.old work.old lines.old) }
{
    let mut records = [Labelled::unseen(); 1024];
    let mut order = [0; 512];
    let answer = checker::judge_into(input, out, work, &mut records, &mut order);
    if let Answer::Violation { record, length } = answer {
        telling::write_lines(&records[..record + 1], &order[..length], lines);
    }
    answer
}
