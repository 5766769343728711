// The cells that an operation asks besides its own thread's: whether one of them is reached, and their rows joined into the row of the operation's
// transaction.
ghost use Rattle.std.specs.Prelude.{◌≡◌, ◌+◌, ◌<◌, [], ◌∷◌, map, get_or};
ghost use Rattle.std.specs.List.{list_any};
ghost use Rattle.lists.specs.Lists.{some_of};
ghost use Rattle.record.specs.Record.{kind};
ghost use Rattle.ancestors.specs.Others.{others};
ghost use Rattle.ancestors.specs.Sources.{leads, Joins, code};
ghost use Rattle.second.specs.Cells.{Key, cell, put, put_all, asked, left};
ghost use Rattle.second.specs.Taken.{readers_in};

use crate::{Cells, entries};
use ancestors::Joined;
use record::Op;

// The number of an operation's kind. By a call: taken apart where it is asked, the compiler makes of the ranges below a jump through a table of ten,
// which a processor seldom foresees.
#[inline(never)]
fn kind_of(op: Op) -> u8
    ensures { result ≡ kind op }
{
    op.kind()
}

impl Cells {
    // The last readers of variable x, by thread.
    fn last_readers(&self, x: u8) -> &[u16]
        ensures { result.now ≡ readers_in self.now.readers x 16 }
    {
        let first = x as usize * 16;
        &self.readers[first..first + 16]
    }

    // Whether a reaches one of the last readers of variable x.
    fn reader_leads(&self, work: &[u64], a: u16, x: u8) -> bool
        ensures { result ≡ list_any (leads work.now a) (readers_in self.now.readers x 16) }
    {
        self.last_readers(x)
            .iter()
            .any(|held| ancestors::leads(work, a, *held))
    }

    // Whether a reaches a transaction in one of the cells that the operation asks.
    pub(crate) fn target_leads(&self, work: &[u64], a: u16, op: Op) -> bool
        ensures { result ≡ some_of (leads work.now a) (map (cell self.now) (asked op)) }
    {
        let at = op.target();
        match kind_of(op) {
            0..=1 => ancestors::leads(work, a, self.writers[at as usize]),
            2 => {
                ancestors::leads(work, a, self.writers[at as usize])
                    || self.reader_leads(work, a, at)
            }
            3..=7 => ancestors::leads(work, a, entries::entry(&self.locks, at as usize)),
            9 => ancestors::leads(work, a, entries::entry(&self.threads, at as usize)),
            _ => false,
        }
    }

    // Joins into row a the row of each last reader of variable x that is another and that row a hasn't the bit of.
    fn join_readers(&self, work: &mut [u64], a: u16, x: u8) -> Joined
        ensures { Joins work.old a (others a (readers_in self.now.readers x 16)) (code result) work.new }
    {
        let mut found = Joined::Nothing;
        for held in self.last_readers(x) {
            found = found.and(ancestors::join_one(work, a, *held));
        }
        found
    }

    // The same of the last writer and each last reader of variable x, and a is its last writer from then on.
    fn take_write(&mut self, work: &mut [u64], a: u16, x: u8) -> Joined
        requires { a < 512 }
        ensures { Joins work.old a (others a (get_or self.old.writers x 0 ∷ readers_in self.old.readers x 16)) (code result) work.new
            × (self.new ≡ put self.old (Key.writer x) (a + 1)) }
    {
        let written = ancestors::join_one(work, a, self.writers[x as usize]);
        let read = self.join_readers(work, a, x);
        self.writers[x as usize] = a + 1;
        written.and(read)
    }

    // The same of a lock, and a is its last transaction from then on.
    fn take_lock(&mut self, work: &mut [u64], a: u16, m: u8) -> Joined
        requires { a < 512 }
        ensures { Joins work.old a (others a (get_or self.old.locks m 0 ∷ [])) (code result) work.new
            × (self.new ≡ put self.old (Key.lock m) (a + 1)) }
    {
        let last = entries::entry(&self.locks, m as usize);
        entries::set_entry(&mut self.locks, m as usize, a + 1);
        ancestors::join_one(work, a, last)
    }

    // The same of the cells that an operation of thread t asks, and a is in those that it leaves from then on.
    pub(crate) fn take_target(&mut self, work: &mut [u64], a: u16, t: u8, op: Op) -> Joined
        requires { a < 512 }
        ensures { Joins work.old a (others a (map (cell self.old) (asked op))) (code result) work.new
            × (self.new ≡ put_all self.old (left t op) (a + 1)) }
    {
        let at = op.target();
        match kind_of(op) {
            0..=1 => {
                let at = at as usize;
                entries::set_entry(&mut self.readers, at * 16 + t as usize, a + 1);
                ancestors::join_one(work, a, self.writers[at])
            }
            2 => self.take_write(work, a, at),
            3..=7 => self.take_lock(work, a, at),
            8 => {
                entries::set_entry(&mut self.threads, at as usize, a + 1);
                Joined::Nothing
            }
            9 => {
                let last = entries::entry(&self.threads, at as usize);
                ancestors::join_one(work, a, last)
            }
            _ => Joined::Nothing,
        }
    }
}
