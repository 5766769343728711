// The second engine: for each lock, thread and variable the last transaction, and rows of ancestors that are closed as edges arrive.
#![tactic(auto)]

mod entries;
mod gather;

ghost use Rattle.std.specs.Prelude.{◌≡◌};
ghost use Rattle.ancestors.specs.Search.{closes_cycle, prefix_of};
ghost use Rattle.second.specs.Cells.{idle};
ghost use Rattle.second.specs.Edges.{sources_of};
ghost use Rattle.second.specs.Taken.{closing, taken_as, taken, searched_as, second_searched};

use ancestors::Joined;
use graph::Labelled;
use record::Event;

// For each lock, thread and variable, and for each variable and thread: 0, or a transaction and 1. Numbers, since an `Option` takes twice the room,
// and these are made anew for each search.
#[derive(Clone, Copy)]
pub struct Cells {
    pub locks: [u16; 32],
    pub threads: [u16; 16],
    pub writers: [u16; 256],
    pub readers: [u16; 4096],
}

impl Cells {
    // Nothing has been done.
    pub fn idle() -> Self
        ensures { result ≡ idle }
    {
        Cells {
            locks: [0; 32],
            threads: [0; 16],
            writers: [0; 256],
            readers: [0; 4096],
        }
    }

    // Whether an operation of transaction a closes a cycle: a reaches one of its sources, by the rows.
    pub fn closes(&self, work: &[u64], a: u16, e: Event) -> bool
        ensures { result ≡ closing self.now work.now a e }
    {
        ancestors::leads(work, a, entries::entry(&self.threads, e.thread as usize))
            || self.target_leads(work, a, e.op)
    }

    // Takes a record in, with n rows to look at, and says whether that closes a cycle: the rows of its sources are joined into its transaction's row a,
    // where one is new row a is joined into each row that has bit a, and the cells hold a from then on. There are rows for 512 transactions: of any
    // other nothing changes.
    pub fn take(&mut self, work: &mut [u64], n: u16, x: Labelled) -> bool
        ensures { (result ≡ closes_cycle sources_of self.old work.old x)
            × (taken_as self.new work.new ≡ taken self.old work.old n x.transaction x.event) }
    {
        let a = x.transaction;
        if a >= 512 {
            return false;
        }
        let t = x.event.thread;
        let last = entries::entry(&self.threads, t as usize);
        let own = ancestors::join_one(work, a, last);
        let rest = self.take_target(work, a, t, x.event.op);
        entries::set_entry(&mut self.threads, t as usize, a + 1);
        let found = own.and(rest);
        if found != Joined::Nothing {
            ancestors::spread(work, n, a);
        }
        found == Joined::Cycle
    }
}

// Searches the records for the shortest prefix with a cycle, from the rows lent: the record that it ends in, if there is one.
pub fn search(records: &[Labelled], work: &mut [u64]) -> Option<usize>
    ensures { searched_as (prefix_of result) work.new ≡ second_searched work.old records.now }
{
    let mut cells = Cells::idle();
    let mut begun = 0;
    for (i, record) in records.iter().enumerate() {
        let n = ancestors::rows_to_look(record.transaction, begun);
        begun = ancestors::begun_with(record.transaction, begun);
        if cells.take(work, n, *record) {
            return Some(i);
        }
    }
    None
}
