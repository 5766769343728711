// Lines of text on standard input, as records on standard output. A refusal is the line `refused NUMBER RECORD`.
// Of more than 32,768 bytes the first 32,768 are read as a text, and in the rest line feeds are counted: with over 1,024 in
// all the input is refused 2. Otherwise the first part tells the answer of the whole (text/proofs/Right, `long-text`).
#![tactic(auto)]

use record::{Fault, Refusal};
use std::io;
use std::io::Read;
use text::{line_feeds, read_text};

// A piece of the input: how many bytes it has, and how many of them are line feeds.
#[derive(Clone, Copy)]
struct Piece {
    bytes: usize,
    feeds: usize,
}

fn next_piece(reader: &mut impl Read) -> io::Result<Piece> {
    let mut piece = [0u8; 32768];
    let bytes = reading::read_full(reader, &mut piece)?;
    let feeds = line_feeds(&piece[..bytes]);
    Ok(Piece { bytes, feeds })
}

// Whether the rest of the input has over `most` line feeds. A proved loop has to end, so it has a number of turns that no
// run uses up.
fn rest_has_over(reader: &mut impl Read, most: usize) -> io::Result<bool> {
    let mut left = most;
    for _ in 0..u64::MAX {
        let piece = next_piece(reader)?;
        if left < piece.feeds {
            return Ok(true);
        }
        if piece.bytes == 0 {
            return Ok(false);
        }
        left -= piece.feeds;
    }
    Ok(false)
}

fn main(rt: HostRuntime) -> io::Result<()> {
    let mut reader = rt.stdin();
    let mut input = [0u8; 32768];
    let mut out = [0u8; 8192];
    let n = reading::read_full(&mut reader, &mut input)?;
    let feeds = line_feeds(&input[..n]);
    if n == 32768 && feeds <= 1024 && rest_has_over(&mut reader, 1024 - feeds)? {
        let refusal = Refusal::from(Fault::TooLong);
        return println!(rt; "refused {refusal}");
    }
    match read_text(&input[..n], &mut out) {
        Ok(bytes) => {
            if bytes <= 8192 {
                rt.write_all(&out[..bytes])?;
            }
        }
        Err(refusal) => println!(rt; "refused {refusal}")?,
    }
    Ok(())
}
