// The walk: which records of a possible history would be violations, after the recording built so far, and whether there is room.
ghost use Rattle.std.specs.Prelude.{◌<◌, ◌≤◌, ◌≡◌, ◌+◌, T, length, IfOk, OnOk};
ghost use mir.Val.{bool_byte};
ghost use Rattle.record.specs.Answers.{number_in};
ghost use Rattle.record.specs.Record.{in_range};
ghost use Rattle.replay.specs.Machine.{fresh, possible};
ghost use Rattle.lists.specs.Lists.{all_of};
ghost use Rattle.rows.specs.Bits.{begun};
ghost use Rattle.looking.specs.Refusals.{events};
ghost use Rattle.proposal.specs.Keeping.{nothing, kept_of, needing, full_as, put_in, marked_as, step_as, readied, stepping, Stepping, stopped_as, Walked};

use graph::{Labelled, Tally};
use record::{Event, Fault, Op, Refusal};
use second::Cells;

// The recording built so far: what the second engine keeps of it, in cells and in the rows lent, its transactions, and how many records it has.
#[derive(Drop)]
struct Builder<'a> {
    cells: Cells,
    tally: Tally,
    work: &'a mut [u64],
    built: usize,
}

impl<'a> Builder<'a> {
    // Nothing is built.
    fn new(work: &'a mut [u64]) -> Self
        ensures same_work { result.work.ghost_name ≡ work.entry.ghost_name }
        ensures starts { (kept_of result ≡ nothing (begun 512 work.old)) × (result.built ≡ 0) }
    {
        rows::begin(work, 512);
        Builder {
            cells: Cells::idle(),
            tally: Tally::none_yet(),
            work,
            built: 0,
        }
    }

    // Whether an event would be a violation: it begins no transaction and closes a cycle.
    fn needs_yield(&self, e: Event) -> bool
        requires { e.thread < 16 }
        ensures { result ≡ needing self.now.cells self.now.work.now self.now.tally.current e }
    {
        let own = self.tally.current[e.thread as usize];
        if matches!(e.op, Op::Join { .. }) || own == 0 {
            return false;
        }
        self.cells.closes(self.work, own - 1, e)
    }

    // Puts an event after the recording built so far. Where it would begin a 513th transaction nothing changes.
    fn put(&mut self, e: Event) -> Result<(), Fault>
        ensures same_work { self.new.work.ghost_name ≡ self.old.work.ghost_name }
        ensures same_built { self.new.built ≡ self.old.built }
        ensures puts { (number_in result ≡ full_as self.old.tally e) × (kept_of self.new ≡ put_in (kept_of self.old) e) }
    {
        let Some(transaction) = self.tally.number(e) else {
            return Err(Fault::Transactions);
        };
        let n = self.tally.count;
        self.cells.take(
            self.work,
            n,
            Labelled {
                transaction,
                event: e,
            },
        );
        Ok(())
    }

    // Makes room for an event: puts a yield of its thread where it needs one, and says whether it does.
    fn make_room(&mut self, e: Event) -> Result<bool, Fault>
        requires { e.thread < 16 }
        ensures same_work { self.new.work.ghost_name ≡ self.old.work.ghost_name }
        ensures same_built { self.new.built ≡ self.old.built }
        ensures room { OnOk result (self.new.built ≤ 1023) }
        ensures readies { ◌≡◌ {A = Stepping} (step_as (marked_as result) (kept_of self.new))
            (readied self.old.built (kept_of self.old) e) }
    {
        if !self.needs_yield(e) {
            if 1023 < self.built {
                return Err(Fault::Records);
            }
            return Ok(false);
        }
        if 1022 < self.built {
            return Err(Fault::Records);
        }
        let added = Event {
            thread: e.thread,
            op: Op::Yield,
        };
        self.put(added)?;
        Ok(true)
    }

    // Puts an event, and before it a yield of its thread where it needs one; says whether it does.
    fn place(&mut self, e: Event) -> Result<bool, Fault>
        requires { e.thread < 16 }
        ensures same_work { self.new.work.ghost_name ≡ self.old.work.ghost_name }
        ensures counts { IfOk result (λ mark. self.new.built ≡ self.old.built + (1 + bool_byte mark)) }
        ensures steps { ◌≡◌ {A = Stepping} (step_as (marked_as result) (kept_of self.new))
            (stepping self.old.built (kept_of self.old) e) }
    {
        let mark = self.make_room(e)?;
        self.put(e)?;
        self.built += 1 + usize::from(mark);
        Ok(mark)
    }
}

// Walks over the events of a possible history, and marks each that a yield is put before. It ends where there is no room.
// The work area's first 4,096 numbers are left with the rows.
pub fn walk(input: &[u8], marks: &mut [bool; 1024], work: &mut [u64]) -> Result<(), Refusal>
    requires { (length input.now ≤ 8192) × (4096 ≤ length work.old)
        × T (possible fresh (events input.now)) × T (all_of in_range (events input.now)) }
    ensures { Walked (events input.now) marks.new work.old work.new (stopped_as result) }
{
    let mut builder = Builder::new(work);
    for (i, bytes) in input.chunks_exact(8).enumerate() {
        match builder.place(record::event_of(bytes)) {
            Ok(mark) => marks[i] = mark,
            Err(fault) => return Err(Refusal { fault, place: i }),
        }
    }
    Ok(())
}
