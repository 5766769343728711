// Reads a recording from standard input, at most 8,200 bytes of it, and prints the yields that are proposed for it. Where an argument names a file,
// the finished recording is also written to it; the file must be new.
#![tactic(auto)]

use proposal::{Added, Finished};
use std::env::FillError;
use std::fs::File;
use std::io;
use std::io::Write;
use std::rt::{Env, Files};

// The first `size` lines: each yield's thread, and the input record that it stands before.
fn print_lines(rt: &impl Print, lines: &[Added; 1024], size: usize) -> io::Result<()> {
    for line in lines.iter().take(size) {
        println!(rt; "{} {}", line.thread, line.before)?;
    }
    Ok(())
}

// Makes a new file of these bytes.
fn write_new(rt: &impl Files, name: &str, bytes: &[u8]) -> io::Result<()> {
    File::create_new(rt, name)?.write_all(bytes)
}

// Writes some bytes to a new file: false where it can't be made or doesn't take them all, and standard error then says why.
fn save(rt: &(impl Files + Eprint), name: &[u8], bytes: &[u8]) -> bool {
    // Files are opened by names in UTF-8 alone.
    let Ok(name) = str::from_utf8(name) else {
        let _ = eprintln!(rt; "the file's name is not UTF-8");
        return false;
    };
    match write_new(rt, name, bytes) {
        Ok(()) => true,
        Err(error) => {
            let _ = eprintln!(rt; "{name}: {error}");
            false
        }
    }
}

// Writes the finished recording to the file that the first argument names, where there is one. A last line says if that failed.
fn save_named(
    rt: &(impl Env + Files + Print + Eprint),
    out: &[u8],
    bytes: usize,
) -> io::Result<()> {
    if out.len() < bytes {
        return Ok(());
    }
    let mut name = [0u8; 4095];
    let n = match rt.arg(1, &mut name) {
        Ok(n) => n,
        Err(FillError::NotPresent) => return Ok(()),
        // No file has so long a name, and none has the empty one.
        Err(FillError::TooLong) => 0,
    };
    if save(rt, &name[..n], &out[..bytes]) {
        return Ok(());
    }
    println!(rt; "not written")
}

fn main(rt: HostRuntime) -> io::Result<()> {
    let mut input = [0u8; 8200];
    let mut out = [0u8; 8192];
    let mut work = [0u64; 4096];
    let mut lines = [Added {
        thread: 0,
        before: 0,
    }; 1024];
    let n = reading::read_full(&mut rt.stdin(), &mut input)?;
    match proposal::report(&input[..n], &mut out, &mut work, &mut lines) {
        Ok(Finished { bytes, yields }) => {
            println!(rt; "proposed {yields} {}", bytes / 8)?;
            print_lines(&rt, &lines, yields)?;
            save_named(&rt, &out, bytes)
        }
        Err(refusal) => println!(rt; "refused {refusal}"),
    }
}
