// Records on standard input, as lines of text on standard output. A refusal is the line `refused NUMBER RECORD`.
// Of more than 8,200 bytes the first 8,200 are taken, so such an input is refused 2.
#![tactic(auto)]

use std::io;
use text::write_text;

fn main(rt: HostRuntime) -> io::Result<()> {
    let mut input = [0u8; 8200];
    let mut out = [0u8; 24576];
    let n = reading::read_full(&mut rt.stdin(), &mut input)?;
    match write_text(&input[..n], &mut out) {
        Ok(bytes) => {
            if bytes <= 24576 {
                rt.write_all(&out[..bytes])?;
            }
        }
        Err(refusal) => println!(rt; "refused {refusal}")?,
    }
    Ok(())
}
