// Looking through a recording, once: whether it is refused, and up to there each operation with its transaction.
#![tactic(auto)]

mod seeing;

ghost use Rattle.std.specs.Prelude.{◌≡◌};
ghost use Rattle.record.specs.Faults.{first_fault};
ghost use Rattle.record.specs.Answers.{number_in, refusal_in};
ghost use Rattle.looking.specs.Refusals.{input_checks, room_checks};
ghost use Rattle.looking.specs.Looked.{Looking, looked};

use graph::Labelled;
use record::{Fault, Refusal};

// What is found in a recording: why it is refused, if it is, and how many transactions begin before that.
#[derive(Clone, Copy)]
pub struct Looked {
    pub refusal: Option<Refusal>,
    pub transactions: u16,
}

// Numbers 1 and 2, tried in that order. Whatever reads a recording tries them first.
pub fn check_input(input: &[u8]) -> Result<(), Fault>
    ensures { number_in result ≡ first_fault (input_checks input.now) }
{
    if input.len() % 8 != 0 {
        return Err(Fault::Length);
    }
    if 8192 < input.len() {
        return Err(Fault::TooLong);
    }
    Ok(())
}

// Numbers 1 to 4, tried in that order, where the output must have so much room.
pub fn check_room(input: &[u8], room: usize, out: &[u8], work: &[u64]) -> Result<(), Fault>
    ensures { number_in result ≡ first_fault (room_checks input.now room out.now work.now) }
{
    check_input(input)?;
    if out.len() < room {
        return Err(Fault::Output);
    }
    if work.len() < 4096 {
        return Err(Fault::WorkArea);
    }
    Ok(())
}

// Looks at all records, up to the first with a fault. The front of the array then has each record before it, with its transaction.
pub fn look(input: &[u8], records: &mut [Labelled; 1024]) -> Looked
    ensures { ◌≡◌ {A = Looking} (record { refusal = refusal_in result.refusal; transactions = result.transactions; records = records.new })
        (looked input.now records.old) }
{
    match check_input(input) {
        Ok(()) => seeing::see_all(input, records),
        Err(fault) => Looked {
            refusal: Some(Refusal::from(fault)),
            transactions: 0,
        },
    }
}
