// What is written for an answer: the serial trace, or the cycle; and the lines.
ghost use Rattle.std.specs.Prelude.{◌+◌, ◌*◌, ◌≤◌, ◌≡◌, map, length};
ghost use Rattle.record.specs.Record.{in_two};
ghost use Rattle.lists.specs.Lists.{each, over, written_at};
ghost use Rattle.checker.specs.Writing.{Few, bytes_of, line_of};
ghost use Rattle.naming.specs.Chains.{Linked};

use crate::Line;
use graph::Labelled;
use naming::Chains;

// Writes the records of transaction `a` from place `n` on; where they end.
fn write_chain(chains: &Chains, records: &[Labelled], a: u16, out: &mut [u8], n: usize) -> usize
    requires linked { (length records.now ≤ 1024) × Few records.now × Linked records.now 0 chains.now.firsts chains.now.nexts }
    requires room { n + length (bytes_of records.now a) ≤ length out.old }
    ensures { let new = bytes_of records.now a in
        (result ≡ n + length new) × (out.new ≡ written_at out.old n new) }
{
    let mut end = n;
    let mut i = chains.first_of(a) as usize;
    // No iterator: it follows the links.
    while i < records.len() {
        end += record::encode(records[i].event, &mut out[end..]);
        i = chains.next_of(i) as usize;
    }
    end
}

// The line of transaction `a`: its number, its thread, its first record.
fn line(chains: &Chains, records: &[Labelled], a: u16) -> Line
    requires { (length records.now ≤ 1024) × Few records.now × Linked records.now 0 chains.now.firsts chains.now.nexts }
    ensures { result ≡ line_of records.now a }
{
    let first = chains.first_of(a);
    match records.get(first as usize) {
        Some(x) => Line {
            transaction: a,
            thread: x.event.thread,
            first,
        },
        None => Line {
            transaction: a,
            thread: 0,
            first: 0,
        },
    }
}

// Writes the records of the transactions of `order`, one transaction after the other.
pub fn write_serial(records: &[Labelled], order: &[u16], out: &mut [u8])
    requires few { (length records.now ≤ 1024) × Few records.now }
    requires room { length (each (bytes_of records.now) order.now) ≤ length out.old }
    ensures { out.new ≡ over (each (bytes_of records.now) order.now) out.old }
{
    let chains = Chains::link(records);
    let mut n = 0;
    for &a in order {
        n = write_chain(&chains, records, a, out, n);
    }
}

// Writes the transactions of a cycle, each in two bytes, low byte first.
pub fn write_cycle(cycle: &[u16], out: &mut [u8])
    requires { 2 * length cycle.now ≤ length out.old }
    ensures { out.new ≡ over (each in_two cycle.now) out.old }
{
    for (k, &a) in cycle.iter().enumerate() {
        out[2 * k] = (a % 256) as u8;
        out[2 * k + 1] = (a / 256) as u8;
    }
}

// Writes a line for each transaction of `order`.
pub fn write_lines(records: &[Labelled], order: &[u16], lines: &mut [Line])
    requires few { (length records.now ≤ 1024) × Few records.now }
    requires room { length order.now ≤ length lines.old }
    ensures { lines.new ≡ over (map (line_of records.now) order.now) lines.old }
{
    let chains = Chains::link(records);
    for (k, &a) in order.iter().enumerate() {
        lines[k] = line(&chains, records, a);
    }
}
