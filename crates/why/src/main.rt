// Reads a recording from standard input, at most 8,200 bytes of it, and prints the checker's first line and, on a violation, why each edge of the
// reported cycle is there.
#![tactic(auto)]

use reasons::Cause;
use std::io;

// A line for each edge: its place, its first record, its second record, the reason, its number.
fn print_lines(rt: &impl Print, lines: &[Option<Cause>]) -> io::Result<()> {
    for (place, cause) in lines.iter().flatten().enumerate() {
        println!(rt; "{place} {cause}")?;
    }
    Ok(())
}

fn main(rt: HostRuntime) -> io::Result<()> {
    let mut input = [0; 8200];
    let mut out = [0; 8192];
    let mut work = [0; 4096];
    let mut lines = [None; 512];
    let n = reading::read_full(&mut rt.stdin(), &mut input)?;
    let answer = reasons::explain(&input[..n], &mut out, &mut work, &mut lines);
    println!(rt; "{answer}")?;
    print_lines(&rt, &lines)
}
