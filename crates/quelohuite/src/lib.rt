// The checker for C and Rust: `checker::judge`, `checker::judge_plain`, `reasons::why`, `picture::draw` and `proposal::propose`, each with its
// answer in numbers and its whole promise. quelohuite_c exports them.
#![tactic(auto)]

ghost use Rattle.std.specs.Prelude.{◌≡◌, [], ◌∷◌};
ghost use Rattle.checker.specs.Verdict.{numbers};
ghost use Rattle.record.specs.Answers.{refusal_of, refused_as, bytes_or_refused, Ending};
ghost use Rattle.record.specs.Answers as Answers;
ghost use Rattle.checker.specs.Judged.{judged};
ghost use Rattle.reasons.specs.Why as Why;
ghost use Rattle.picture.specs.Drawn as Drawing;
ghost use Rattle.proposal.specs.Proposed as Proposing;
ghost use Rattle.quelohuite.specs.Told.{told, told_why, in_five};

use checker::Answer;
use proposal::Finished;
use reasons::Cause;
use record::Refusal;

// An answer in numbers, as C takes it. Kind 0 is cooperable: records and transactions. Kind 1 is violation: record and cycle length.
// Kind 2 is refused: number and record. Of a drawing, kind 0 is written: the number of bytes, and 0; of a proposal, the number of bytes, and of yields added.
#[repr(C)]
#[derive(Clone, Copy)]
pub struct Told {
    pub kind: u64,
    pub first: u64,
    pub second: u64,
}

impl From<Refusal> for Told {
    ghost from_gives = { λ refusal t. told t ≡ refused_as (refusal_of refusal) };

    fn from(refusal: Refusal) -> Told {
        Told {
            kind: 2,
            first: u64::from(refusal.fault.number()),
            second: refusal.place as u64,
        }
    }
}

impl From<Answer> for Told {
    ghost from_gives = { λ answer t. told t ≡ numbers answer };

    fn from(answer: Answer) -> Told {
        match answer {
            Answer::Cooperable {
                records,
                transactions,
            } => Told {
                kind: 0,
                first: records as u64,
                second: transactions as u64,
            },
            Answer::Violation { record, length } => Told {
                kind: 1,
                first: record as u64,
                second: length as u64,
            },
            Answer::Refused(refusal) => Told::from(refusal),
        }
    }
}

impl From<Result<usize, Refusal>> for Told {
    ghost from_gives = { λ written t. told t ≡ bytes_or_refused written };

    fn from(written: Result<usize, Refusal>) -> Told {
        match written {
            Ok(bytes) => Told {
                kind: 0,
                first: bytes as u64,
                second: 0,
            },
            Err(refusal) => Told::from(refusal),
        }
    }
}

impl From<Result<Finished, Refusal>> for Told {
    ghost from_gives = { λ proposed t. told t ≡ Proposing.numbers proposed };

    fn from(proposed: Result<Finished, Refusal>) -> Told {
        match proposed {
            Ok(Finished { bytes, yields }) => Told {
                kind: 0,
                first: bytes as u64,
                second: yields as u64,
            },
            Err(refusal) => Told::from(refusal),
        }
    }
}

// Judges a recording by the second engine: the answer in numbers, and the output and the work area at the end.
pub fn quelohuite_judge(input: &[u8], out: &mut [u8], work: &mut [u64]) -> Told
    ensures { ◌≡◌ {A = Ending} (record { answer = told result; out = out.new; work = work.new })
        (judged input.now out.old work.old) }
{
    Told::from(checker::judge(input, out, work))
}

// The same by the plain engine, to be held against it.
pub fn quelohuite_judge_plain(input: &[u8], out: &mut [u8], work: &mut [u64]) -> Told
    ensures { ◌≡◌ {A = Ending} (record { answer = told result; out = out.new; work = work.new })
        (judged input.now out.old work.old) }
{
    Told::from(checker::judge_plain(input, out, work))
}

// What is told of an edge of the cycle, in numbers. Kind 0 is because: first record, second record, reason (0 thread, 1 variable, 2 lock,
// 3 fork/join) and its number. Kind 1 is no such edge. Kind 2 is refused: number and record. What a kind doesn't have is 0.
#[repr(C)]
#[derive(Clone, Copy)]
pub struct ToldWhy {
    pub kind: u64,
    pub first: u64,
    pub second: u64,
    pub reason: u64,
    pub number: u64,
}

impl ToldWhy {
    // A kind that has no reason.
    fn without_reason(kind: u64, first: u64, second: u64) -> Self
        ensures { told_why result ≡ kind ∷ first ∷ second ∷ 0 ∷ 0 ∷ [] }
    {
        Self {
            kind,
            first,
            second,
            reason: 0,
            number: 0,
        }
    }
}

impl From<Result<Option<Cause>, Refusal>> for ToldWhy {
    ghost from_gives = { λ why t. told_why t ≡ in_five (Why.numbers (Answers.told why)) };

    fn from(why: Result<Option<Cause>, Refusal>) -> ToldWhy {
        match why {
            Ok(Some(cause)) => ToldWhy {
                kind: 0,
                first: cause.first as u64,
                second: cause.second as u64,
                reason: u64::from(cause.reason.name()),
                number: u64::from(cause.reason.number()),
            },
            Ok(None) => ToldWhy::without_reason(1, 0, 0),
            Err(refusal) => {
                let Told {
                    kind,
                    first,
                    second,
                } = Told::from(refusal);
                ToldWhy::without_reason(kind, first, second)
            }
        }
    }
}

// Judges a recording and tells why the edge at a place of the reported cycle is there; the output and the work area end as after judging.
pub fn quelohuite_why(input: &[u8], out: &mut [u8], work: &mut [u64], place: usize) -> ToldWhy
    ensures { let told = Why.asked input.now out.old work.old place in
        (told_why result ≡ in_five told.answer) × (out.new ≡ told.out) × (work.new ≡ told.work) }
{
    ToldWhy::from(reasons::why(input, out, work, place))
}

// Draws the graph of a recording: the answer in numbers, and the output and the work area at the end.
pub fn quelohuite_dot(input: &[u8], out: &mut [u8], work: &mut [u64]) -> Told
    ensures { ◌≡◌ {A = Ending} (record { answer = told result; out = out.new; work = work.new })
        (Drawing.drawn input.now out.old work.old) }
{
    Told::from(picture::draw(input, out, work))
}

// Proposes yields for a recording: the answer in numbers, and the output and the work area at the end.
pub fn quelohuite_propose(input: &[u8], out: &mut [u8], work: &mut [u64]) -> Told
    ensures { ◌≡◌ {A = Ending} (record { answer = told result; out = out.new; work = work.new })
        (Proposing.proposed input.now out.old work.old) }
{
    Told::from(proposal::propose(input, out, work))
}
