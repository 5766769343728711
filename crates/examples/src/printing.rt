// Plain lines on standard output.
ghost use Rattle.std.specs.Prelude.{◌≤◌, length};

use std::io;

// Where the bytes that are not 0xEE end.
fn written_end(out: &[u8]) -> usize
    ensures { result ≤ length out.now }
{
    for n in (0..out.len()).rev() {
        if out[n] != 0xee {
            return n + 1;
        }
    }
    0
}

// Byte i, eight to a line.
fn print_byte(rt: &impl Print, i: usize, byte: u8) -> io::Result<()> {
    if i % 8 != 0 {
        print!(rt; " {byte}")
    } else if 0 < i {
        print!(rt; "\n{byte}")
    } else {
        print!(rt; "{byte}")
    }
}

// All bytes up to the last that is not 0xEE.
pub fn print_out(rt: &impl Print, out: &[u8]) -> io::Result<()> {
    let end = written_end(out);
    for (i, &byte) in out[..end].iter().enumerate() {
        print_byte(rt, i, byte)?;
    }
    if 0 < end {
        println!(rt)?;
    }
    Ok(())
}

// How many numbers of the work area are n.
fn count_of(work: &[u64], n: u64) -> usize {
    work.iter().filter(|x| **x == n).count()
}

// How many numbers of the work area are 0, and how many are still 0x77.
pub fn print_work(rt: &impl Print, work: &[u64]) -> io::Result<()> {
    let (zeros, kept) = (count_of(work, 0), count_of(work, 0x77));
    println!(rt; "work {zeros} {kept}")
}
