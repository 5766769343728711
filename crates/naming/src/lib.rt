// The transactions that an answer names, by the rows that an engine left in the work area: all in serial order, or the cycle.
#![tactic(auto)]

mod chains;
mod cycle;
mod order;

ghost use Rattle.std.specs.Prelude.{◌≡◌, length, take};
ghost use Rattle.lists.specs.Lists.{over};
ghost use Rattle.ancestors.specs.Search.{prefix_of};
ghost use Rattle.naming.specs.Naming.{named_by};

pub use chains::Chains;
use graph::Labelled;

// Writes the transactions that the rows name to the front of `order`, which is lent, as there is no heap, and says how many: all n in serial order
// where no record closes a cycle, or else the cycle of the records up to the one that does. Of the records the first 1,024 are looked at. They name
// none where there are over 512 transactions, where the work area has fewer than 4,096 numbers, where the closing record isn't among the records, or
// where its transaction isn't one of the n or its row hasn't its own bit.
pub fn name(
    records: &[Labelled],
    n: u16,
    closing: Option<usize>,
    order: &mut [u16; 512],
    work: &[u64],
) -> usize
    ensures { let new = named_by (take 1024 records.now) n (prefix_of closing) work.now in
        (result ≡ length new) × (order.new ≡ over new order.old) }
{
    if 512 < n || work.len() < 4096 {
        return 0;
    }
    let records = &records[..records.len().min(1024)];
    let Some(i) = closing else {
        return order::take_all(records, work, n, order);
    };
    if records.len() <= i {
        return 0;
    }
    let t = records[i].transaction;
    if t < n && rows::test(work, t, t) {
        return cycle::follow(&records[..i + 1], work, n, t, order);
    }
    0
}
