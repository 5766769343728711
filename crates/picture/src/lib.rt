// The picture of a recording's graph, in the DOT language.
#![tactic(auto)]

mod linking;
mod putting;

ghost use Rattle.std.specs.Prelude.{◌≡◌};
ghost use Rattle.record.specs.Faults.{first_fault};
ghost use Rattle.record.specs.Answers.{number_in, bytes_or_refused, Ending};
ghost use Rattle.picture.specs.Drawn.{size_checks, drawn};

use graph::Labelled;
use record::{Fault, Refusal};

// Numbers 1, 2 and 4, tried in that order: which are tried is each caller's own (Drawn.size_checks).
fn check_sizes(input: &[u8], work: &[u64]) -> Result<(), Fault>
    ensures { number_in result ≡ first_fault (size_checks input.now work.now) }
{
    looking::check_input(input)?;
    if work.len() < 4096 {
        return Err(Fault::WorkArea);
    }
    Ok(())
}

// Draws the transactions and the edges of a recording; how many bytes that took.
pub fn draw(input: &[u8], out: &mut [u8], work: &mut [u64]) -> Result<usize, Refusal>
    ensures { ◌≡◌ {A = Ending} (record { answer = bytes_or_refused result; out = out.new; work = work.new })
        (drawn input.now out.old work.old) }
{
    check_sizes(input, work)?;
    let mut records = [Labelled::unseen(); 1024];
    let looked = looking::look(input, &mut records);
    if let Some(refusal) = looked.refusal {
        return Err(refusal);
    }
    linking::link_all(work, &records[..input.len() / 8]);
    let answer = putting::put_fitting(work, looked.transactions, out);
    rows::clear(work);
    answer
}
