// The earliest two records that make an edge: the search ends at the first hit. Of a record it goes by the transaction first.
ghost use Rattle.std.specs.Prelude.{◌≡◌, ◌<◌, ◌≤◌, length};
ghost use Rattle.reasons.specs.Why.{earliest_first, earliest_second, cause_of, origin_of, goal_of};

use crate::{Cause, reasoning};
use graph::Labelled;

// Two records, the first before the second.
#[derive(Clone, Copy)]
pub struct Pair {
    pub first: usize,
    pub second: usize,
}

// The earliest first record that makes an edge from transaction `a` to `b` with a later one, and for it the earliest second.
pub fn search(records: &[Labelled], a: u16, b: u16) -> Pair
    ensures { (result.first ≡ earliest_first records.now a b) × (result.second ≡ earliest_second records.now a b (earliest_first records.now a b)) }
{
    'search: {
        for (first, x) in records.iter().enumerate() {
            if x.transaction == a {
                let later = &records[first + 1..];
                for (k, y) in later.iter().enumerate() {
                    if y.transaction == b && graph::conflicts(x.event, y.event) {
                        break 'search Pair {
                            first,
                            second: first + 1 + k,
                        };
                    }
                }
            }
        }
        Pair {
            first: 0,
            second: 0,
        }
    }
}

// What makes an edge from transaction `a` to `b`.
fn cause(records: &[Labelled], a: u16, b: u16) -> Cause
    requires { (1 ≤ length records.now) × (length records.now ≤ 1024) }
    ensures { result ≡ cause_of records.now a b }
{
    let Pair { first, second } = search(records, a, b);
    let reason = reasoning::reason_of(records[first].event, records[second].event);
    Cause {
        first,
        second,
        reason,
    }
}

// What makes the edge at a place of a cycle: from that transaction to the next, from the last to the first.
pub fn cause_at(records: &[Labelled], cycle: &[u16], place: usize) -> Cause
    requires { (1 ≤ length records.now) × (length records.now ≤ 1024) × (place < length cycle.now) }
    ensures { result ≡ cause_of records.now (origin_of cycle.now place) (goal_of cycle.now place) }
{
    let next = cycle.get(place + 1).copied().unwrap_or(cycle[0]);
    cause(records, cycle[place], next)
}
