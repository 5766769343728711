// Runs the examples of document 01 through the checker and prints, for each, the answer and the whole of what is left.
#![tactic(auto)]

mod operations;
mod printing;

ghost use Rattle.std.specs.Prelude.{◌≤◌, length};

use operations::{acquire, fork, join, notify, postwait, prewait, read, release, write, yields};
use record::Event;
use std::io;

// Judges a recording, over an output and a work area that hold something else, and prints all that is left.
fn run(rt: &impl Print, name: &str, input: &[u8]) -> io::Result<()> {
    let mut out = [0xeeu8; 8200];
    let mut work = [0x77u64; 4097];
    println!(rt; "{name}")?;
    let answer = checker::judge(input, &mut out, &mut work);
    println!(rt; "{answer}")?;
    printing::print_out(rt, &out)?;
    printing::print_work(rt, &work)
}

// The same of events, as a recording.
fn run_events(rt: &impl Print, name: &str, events: &[Event]) -> io::Result<()>
    requires { length events.now ≤ 1024 }
{
    let mut input = [0u8; 8192];
    for (bytes, &e) in input.chunks_exact_mut(8).zip(events) {
        record::encode(e, bytes);
    }
    run(rt, name, &input[..8 * events.len()])
}

// P1 to P5.
fn short_ones(rt: &impl Print) -> io::Result<()> {
    run_events(rt, "P1", &[])?;
    run_events(rt, "P2", &[write(0, 3, 5)])?;
    run_events(
        rt,
        "P3",
        &[fork(0, 1), read(0, 0, 0), write(1, 0, 1), write(0, 0, 1)],
    )?;
    run_events(
        rt,
        "P4",
        &[
            fork(0, 1),
            read(0, 0, 0),
            write(1, 0, 1),
            yields(0),
            write(0, 0, 1),
        ],
    )?;
    run_events(
        rt,
        "P5",
        &[fork(0, 1), read(0, 0, 0), read(1, 0, 0), read(0, 0, 0)],
    )
}

// P6 to P8: a lock, a wait and a join.
fn with_locks_and_joins(rt: &impl Print) -> io::Result<()> {
    run_events(
        rt,
        "P6",
        &[
            fork(0, 1),
            acquire(0, 0),
            release(0, 0),
            acquire(1, 0),
            release(1, 0),
            acquire(0, 0),
        ],
    )?;
    run_events(
        rt,
        "P7",
        &[
            fork(0, 1),
            acquire(0, 0),
            prewait(0, 0),
            acquire(1, 0),
            notify(1, 0),
            release(1, 0),
            postwait(0, 0),
            release(0, 0),
        ],
    )?;
    run_events(
        rt,
        "P8",
        &[fork(0, 1), write(1, 0, 1), join(0, 1), read(0, 0, 1)],
    )
}

// P9 to P11: a value passed on, a first read, and a lock taken twice.
fn last_ones(rt: &impl Print) -> io::Result<()> {
    run_events(
        rt,
        "P9",
        &[
            fork(0, 1),
            fork(0, 2),
            yields(0),
            write(0, 0, 1),
            read(1, 0, 1),
            write(1, 1, 1),
            read(2, 1, 1),
            write(2, 2, 1),
            read(0, 2, 1),
        ],
    )?;
    run_events(rt, "P10", &[read(0, 0, 7)])?;
    run_events(rt, "P11", &[acquire(0, 0), acquire(0, 0)])
}

// The examples besides P1 to P11.
fn others(rt: &impl Print) -> io::Result<()> {
    let zeros = [0u8; 8200];
    run(rt, "7 bytes", &zeros[..7])?;
    run(rt, "8,193 bytes", &zeros[..8193])?;
    run(rt, "8,200 bytes", &zeros)?;
    run_events(rt, "1,024 yields", &[yields(0); 1024])?;
    run_events(rt, "512 yields", &[yields(0); 512])?;
    run_events(rt, "thread 16", &[yields(16)])
}

fn main(rt: HostRuntime) -> io::Result<()> {
    short_ones(&rt)?;
    with_locks_and_joins(&rt)?;
    last_ones(&rt)?;
    others(&rt)
}
