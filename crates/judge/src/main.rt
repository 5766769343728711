// Reads a recording from standard input, at most 8,200 bytes of it, and prints what the checker says of it.
#![tactic(auto)]

use checker::Line;
use std::io;

fn main(rt: HostRuntime) -> io::Result<()> {
    let mut input = [0u8; 8200];
    let mut out = [0u8; 8192];
    let mut work = [0u64; 4096];
    let mut lines = [Line::default(); 512];
    let n = reading::read_full(&mut rt.stdin(), &mut input)?;
    let answer = checker::report(&input[..n], &mut out, &mut work, &mut lines);
    println!(rt; "{answer}")?;
    for line in lines.iter().take(answer.named()) {
        println!(rt; "{line}")?;
    }
    Ok(())
}
