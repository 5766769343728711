// The graph of transactions: when two operations conflict, and which transaction each belongs to.
#![tactic(auto)]

mod compare;

ghost use Rattle.std.specs.Prelude.{◌≡◌, ◌||◌, cond, eqb, set};
ghost use Rattle.graph.specs.Conflict.{conflict, joins};
ghost use Rattle.graph.specs.Transactions.{unseen, none_yet, ends, numbered, counted};

use record::{Event, Op};

// An operation with its transaction.
#[derive(Clone, Copy)]
pub struct Labelled {
    pub transaction: u16,
    pub event: Event,
}

// So many transactions at most.
const TRANSACTION_LIMIT: u16 = 512;

// For each thread 0, where its next operation begins a transaction, or its current transaction and 1; and how many have begun. Numbers, as the
// definitions have them (Transactions.tallied).
#[derive(Clone, Copy)]
pub struct Tally {
    pub current: [u16; 16],
    pub count: u16,
}

// Whether two operations conflict: by their threads, else by what the table compares of their two kinds. It compares nothing but threads and targets,
// so the table is asked only where two of these are equal.
pub fn conflicts(a: Event, b: Event) -> bool
    ensures { result ≡ conflict a b }
{
    a.thread == b.thread
        || compare::some_equal(a.thread, a.op.target(), b.thread, b.op.target())
            && compare::conflicts_by_table(a, b)
}

impl Labelled {
    // What stands in an array of records before any is noted: a read of zeros, so that the array is all zeros.
    pub fn unseen() -> Self
        ensures { result ≡ unseen }
    {
        Labelled {
            transaction: 0,
            event: Event {
                thread: 0,
                op: Op::Read { var: 0, value: 0 },
            },
        }
    }
}

impl Tally {
    // No transaction has begun.
    pub fn none_yet() -> Self
        ensures { result ≡ none_yet }
    {
        Tally {
            current: [0; 16],
            count: 0,
        }
    }

    // Counts an operation: the transaction that it belongs to. Where it would begin a 513th there is none, and nothing changes.
    pub fn number(&mut self, e: Event) -> Option<u16>
        ensures { (result ≡ numbered self.old e) × (self.new ≡ counted self.old e) }
    {
        let at = e.thread as usize;
        let mut own = self.current.get(at).copied().unwrap_or(0);
        if begins(e, own) {
            if self.count >= TRANSACTION_LIMIT {
                return None;
            }
            self.count += 1;
            own = self.count;
        }
        store(&mut self.current, at, left(e, own));
        Some(own - 1)
    }
}

// Whether an operation begins a transaction, by its thread's entry: a join does, and any where the thread has none open.
fn begins(e: Event, own: u16) -> bool
    ensures { result ≡ (joins e.op || eqb own 0) }
{
    own == 0 || matches!(e.op, Op::Join { .. })
}

// What a thread's entry is after an operation: 0 after prewait and yield, which end their transaction.
fn left(e: Event, own: u16) -> u16
    ensures { result ≡ cond (ends e) 0 own }
{
    match e.op {
        Op::Prewait { .. } | Op::Yield => 0,
        _ => own,
    }
}

// Stores a thread's entry; past the end nothing changes. By index: of a slice after `get_mut` a proof knows the length alone.
fn store(current: &mut [u16; 16], at: usize, number: u16)
    ensures { current.new ≡ set current.old at number }
{
    if at < current.len() {
        current[at] = number;
    }
}
