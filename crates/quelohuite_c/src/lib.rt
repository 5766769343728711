// For C and Rust: exports the functions of quelohuite, each with its whole promise. A crate that exports can't be one that others stand on.
#![tactic(auto)]

ghost use Rattle.std.specs.Prelude.{◌≡◌};
ghost use Rattle.record.specs.Answers.{Ending};
ghost use Rattle.checker.specs.Judged.{judged};
ghost use Rattle.reasons.specs.Why as Why;
ghost use Rattle.picture.specs.Drawn as Drawing;
ghost use Rattle.proposal.specs.Proposed as Proposing;
ghost use Rattle.quelohuite.specs.Told.{told, told_why, in_five};

use quelohuite::{Told, ToldWhy};

// Judges a recording by the second engine: the answer in numbers, and the output and the work area at the end.
#[unsafe(no_mangle)]
pub extern "C" fn quelohuite_judge(input: &[u8], out: &mut [u8], work: &mut [u64]) -> Told
    ensures { ◌≡◌ {A = Ending} (record { answer = told result; out = out.new; work = work.new })
        (judged input.now out.old work.old) }
{
    quelohuite::quelohuite_judge(input, out, work)
}

// The same by the plain engine, to be held against it.
#[unsafe(no_mangle)]
pub extern "C" fn quelohuite_judge_plain(input: &[u8], out: &mut [u8], work: &mut [u64]) -> Told
    ensures { ◌≡◌ {A = Ending} (record { answer = told result; out = out.new; work = work.new })
        (judged input.now out.old work.old) }
{
    quelohuite::quelohuite_judge_plain(input, out, work)
}

// Judges a recording and tells why the edge at a place of the reported cycle is there; the output and the work area end as after judging.
#[unsafe(no_mangle)]
pub extern "C" fn quelohuite_why(
    input: &[u8],
    out: &mut [u8],
    work: &mut [u64],
    place: usize,
) -> ToldWhy
    ensures { let told = Why.asked input.now out.old work.old place in
        (told_why result ≡ in_five told.answer) × (out.new ≡ told.out) × (work.new ≡ told.work) }
{
    quelohuite::quelohuite_why(input, out, work, place)
}

// Draws the graph of a recording: the answer in numbers, and the output and the work area at the end.
#[unsafe(no_mangle)]
pub extern "C" fn quelohuite_dot(input: &[u8], out: &mut [u8], work: &mut [u64]) -> Told
    ensures { ◌≡◌ {A = Ending} (record { answer = told result; out = out.new; work = work.new })
        (Drawing.drawn input.now out.old work.old) }
{
    quelohuite::quelohuite_dot(input, out, work)
}

// Proposes yields for a recording: the answer in numbers, and the output and the work area at the end.
#[unsafe(no_mangle)]
pub extern "C" fn quelohuite_propose(input: &[u8], out: &mut [u8], work: &mut [u64]) -> Told
    ensures { ◌≡◌ {A = Ending} (record { answer = told result; out = out.new; work = work.new })
        (Proposing.proposed input.now out.old work.old) }
{
    quelohuite::quelohuite_propose(input, out, work)
}
