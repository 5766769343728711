// Proposed yields: a recording with a yield put before each record that would be a violation.
#![tactic(auto)]

mod walking;
mod writing;

ghost use Rattle.std.specs.Prelude.{◌≡◌};
ghost use Rattle.record.specs.Answers.{refusal_in, Ending};
ghost use Rattle.looking.specs.Refusals.{input_checks, refused_by};
ghost use Rattle.proposal.specs.Proposed.{numbers, proposed, told};

use graph::Labelled;
use record::Refusal;

// What comes of it: how many bytes the finished recording has, and how many yields were added.
#[derive(Clone, Copy)]
pub struct Finished {
    pub bytes: usize,
    pub yields: usize,
}

// An added yield: its thread, and the input record that it stands before.
#[derive(Clone, Copy)]
pub struct Added {
    pub thread: u8,
    pub before: u16,
}

// Why the recording is refused by itself, whatever room there is.
fn refusal_of(input: &[u8]) -> Option<Refusal>
    ensures { refusal_in result ≡ refused_by (input_checks input.now) input.now }
{
    looking::look(input, &mut [Labelled::unseen(); 1024]).refusal
}

// Proposes yields as `propose` does, and tells each that is added.
pub fn report(
    input: &[u8],
    out: &mut [u8],
    work: &mut [u64],
    lines: &mut [Added; 1024],
) -> Result<Finished, Refusal>
    ensures { (◌≡◌ {A = Ending} (record { answer = numbers result; out = out.new; work = work.new })
        (proposed input.now out.old work.old))
        × (lines.new ≡ told input.now out.old work.old lines.old) }
{
    looking::check_room(input, 8192, out, work)?;
    if let Some(refusal) = refusal_of(input) {
        return Err(refusal);
    }
    let mut marks = [false; 1024];
    let walked = walking::walk(input, &mut marks, work);
    rows::clear(work);
    walked?;
    let bytes = writing::write_records(input, &marks, out);
    let yields = writing::write_lines(input, &marks, lines);
    Ok(Finished { bytes, yields })
}

// Proposes yields: writes the finished recording over the output.
pub fn propose(input: &[u8], out: &mut [u8], work: &mut [u64]) -> Result<Finished, Refusal>
    ensures { ◌≡◌ {A = Ending} (record { answer = numbers result; out = out.new; work = work.new })
        (proposed input.now out.old work.old) }
{
    let mut lines = [Added {
        thread: 0,
        before: 0,
    }; 1024];
    report(input, out, work, &mut lines)
}
