// What is written at the end: the finished recording, and the lines of its added yields.
ghost use Rattle.std.specs.Prelude.{◌+◌, ◌≤◌, ◌≡◌, length};
ghost use Rattle.record.specs.Record.{encoded};
ghost use Rattle.lists.specs.Lists.{over, written_at};
ghost use Rattle.looking.specs.Refusals.{events};
ghost use Rattle.proposal.specs.Proposed.{yields_in, lines_from};
ghost use Rattle.proposal.specs.Weaving.{placed_as, woven_all, bytes_in};

use crate::Added;
use record::{Event, Op};

// Writes an event after the `n` bytes already written; how many are then.
fn write_event(e: Event, out: &mut [u8], n: usize) -> usize
    requires { n + 8 ≤ length out.old }
    ensures { (result ≡ n + 8) × (out.new ≡ written_at out.old n (encoded e)) }
{
    n + record::encode(e, &mut out[n..])
}

// Writes an event, and before it a yield of its thread where it is marked.
fn write_placed(mark: bool, e: Event, out: &mut [u8], n: usize) -> usize
    requires { n + length (bytes_in (placed_as mark e)) ≤ length out.old }
    ensures { (result ≡ n + length (bytes_in (placed_as mark e)))
        × (out.new ≡ written_at out.old n (bytes_in (placed_as mark e))) }
{
    if !mark {
        return write_event(e, out, n);
    }
    let added = Event {
        thread: e.thread,
        op: Op::Yield,
    };
    let end = write_event(added, out, n);
    write_event(e, out, end)
}

// Writes all events, each with its yield; how many bytes that is.
pub fn write_records(input: &[u8], marks: &[bool; 1024], out: &mut [u8]) -> usize
    requires { (length input.now ≤ 8192) × (length (bytes_in (woven_all (events input.now) marks.now)) ≤ length out.old) }
    ensures { (result ≡ length (bytes_in (woven_all (events input.now) marks.now)))
        × (out.new ≡ over (bytes_in (woven_all (events input.now) marks.now)) out.old) }
{
    let mut end = 0;
    for (i, bytes) in input.chunks_exact(8).enumerate() {
        end = write_placed(marks[i], record::event_of(bytes), out, end);
    }
    end
}

// Writes a line for each yield; how many there are.
pub fn write_lines(input: &[u8], marks: &[bool; 1024], lines: &mut [Added; 1024]) -> usize
    requires { length input.now ≤ 8192 }
    ensures { (result ≡ length (yields_in (woven_all (events input.now) marks.now)))
        × (lines.new ≡ over (lines_from 0 (woven_all (events input.now) marks.now)) lines.old) }
{
    let mut yields = 0;
    for (i, bytes) in input.chunks_exact(8).enumerate() {
        if marks[i] {
            lines[yields] = Added {
                thread: record::event_of(bytes).thread,
                before: i as u16,
            };
            yields += 1;
        }
    }
    yields
}
