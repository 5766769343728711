// The end of a judgement: the transactions that are named, what is written for them, and the answer.
ghost use Rattle.std.specs.Prelude.{◌≡◌};
ghost use Rattle.ancestors.specs.Search.{prefix_of};
ghost use Rattle.checker.specs.Concluded.{history, Named, Written, Ready, Concluded};

use crate::{Answer, writing};
use graph::Labelled;

// Writes the serial trace, or the cycle, of the transactions that are named.
fn write_named(
    records: &[Labelled],
    named: &[u16],
    closing: Option<usize>,
    out: &mut [u8],
) -> Answer
    requires { Named records.now named.now (prefix_of closing) out.old }
    ensures { Written (history records.now) out.old result out.new }
{
    match closing {
        None => {
            writing::write_serial(records, named, out);
            Answer::Cooperable {
                records: records.len(),
                transactions: named.len(),
            }
        }
        Some(record) => {
            writing::write_cycle(named, out);
            Answer::Violation {
                record,
                length: named.len(),
            }
        }
    }
}

// Names the transactions by the rows, clears the rows, and writes the serial trace or the cycle.
pub fn conclude(
    records: &[Labelled],
    n: u16,
    closing: Option<usize>,
    order: &mut [u16; 512],
    out: &mut [u8],
    work: &mut [u64],
) -> Answer
    requires { Ready records.now n (prefix_of closing) work.old out.old }
    ensures { Concluded (history records.now) out.old work.old order.old result out.new work.new order.new }
{
    let named = naming::name(records, n, closing, order, &*work);
    rows::clear(work);
    write_named(records, &order[..named], closing, out)
}
