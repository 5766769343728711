// The pass that only reads: one record after the other, up to the first with a fault.
ghost use Rattle.std.specs.Prelude.{◌≡◌, length};
ghost use Rattle.record.specs.Faults.{first_fault};
ghost use Rattle.record.specs.Answers.{refusal_in};
ghost use Rattle.looking.specs.Refusals.{input_checks};
ghost use Rattle.looking.specs.Looked.{Looking, looked};
ghost use Rattle.looking.specs.Seeing.{Saw, seen_as};

use crate::Looked;
use graph::{Labelled, Tally};
use record::{Fault, Refusal};
use replay::State;

// What the records so far have led to: the machine's state, and the transactions begun.
#[derive(Clone, Copy)]
pub struct Run {
    pub state: State,
    pub tally: Tally,
}

impl Run {
    // Looks at one record and takes it in: it with its transaction, or its fault of the lowest number.
    fn see(&mut self, bytes: &[u8]) -> Result<Labelled, Fault>
        requires { length bytes.now ≡ 8 }
        ensures { Saw self.old bytes.now self.new (seen_as result) }
    {
        let event = match record::decode(bytes) {
            Ok(event) => event,
            Err(refusal) => return Err(refusal.fault),
        };
        self.state.step(event)?;
        let transaction = self.tally.number(event).ok_or(Fault::Transactions)?;
        Ok(Labelled { transaction, event })
    }
}

// Looks at all records, up to the first with a fault, and notes each before it.
pub fn see_all(input: &[u8], records: &mut [Labelled; 1024]) -> Looked
    requires { first_fault (input_checks input.now) ≡ 0 }
    ensures { ◌≡◌ {A = Looking} (record { refusal = refusal_in result.refusal; transactions = result.transactions; records = records.new })
        (looked input.now records.old) }
{
    let mut run = Run {
        state: State::fresh(),
        tally: Tally::none_yet(),
    };
    // Stored by index: of an array behind `iter_mut` only its length is known afterwards.
    for (place, bytes) in input.chunks_exact(8).enumerate() {
        match run.see(bytes) {
            Ok(seen) => records[place] = seen,
            Err(fault) => {
                return Looked {
                    refusal: Some(Refusal { fault, place }),
                    transactions: run.tally.count,
                };
            }
        }
    }
    Looked {
        refusal: None,
        transactions: run.tally.count,
    }
}
