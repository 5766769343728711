// Reads a recording from standard input, at most 8,200 bytes of it, and prints the picture of its graph in the DOT language.
// A refusal is the line `refused NUMBER RECORD`.
#![tactic(auto)]

use std::io;

// Draws into an output and prints what is there.
fn show(rt: &impl Print, input: &[u8], out: &mut [u8]) -> io::Result<()> {
    let mut work = [0; 4096];
    match picture::draw(input, out, &mut work) {
        Ok(bytes) => rt.write_all(out.get(..bytes).unwrap_or(&[])),
        Err(refusal) => println!(rt; "refused {refusal}"),
    }
}

// The output has room for every picture, so 3 is never given.
fn show_all(rt: &impl Print, input: &[u8]) -> io::Result<()> {
    let mut out = [0; 3148300];
    show(rt, input, &mut out)
}

fn main(rt: HostRuntime) -> io::Result<()> {
    let mut input = [0; 8200];
    let n = reading::read_full(&mut rt.stdin(), &mut input)?;
    show_all(&rt, &input[..n])
}
