// Whole files, part by part: a pass that finds the first refusal, and a pass that writes. Each way has its own, since parts are cut, read and written
// otherwise: one generic pass would take three closures and an iterator, each with a clause as long as the loop.
ghost use Rattle.std.specs.Prelude.{◌≡◌, ◌%◌, ◌≤◌, length};
ghost use Rattle.lists.specs.Lists.{over};
ghost use Rattle.record.specs.Record.{encoded, decoded, records_of};
ghost use Rattle.text.specs.Line.{line_of, line_read};
ghost use Rattle.text.specs.File.{feeds, first_refused, lines};
ghost use Rattle.text.specs.Steps.{refusal_in, part_bytes, all_bytes};

use crate::making::line_of;
use crate::{read_line, write_line};
use record::{Refusal, decode, encode};

// How many line feeds there are.
pub fn line_feeds(text: &[u8]) -> usize
    ensures { result ≡ feeds text.now }
{
    let mut n = 0;
    for c in text {
        if *c == b'\n' {
            n += 1;
        }
    }
    n
}

// The first line without the form.
pub fn first_formless(text: &[u8]) -> Result<(), Refusal>
    ensures { refusal_in result ≡ first_refused line_read 0 (lines text.now) }
{
    for (place, line) in text.split_inclusive(|&c| c == b'\n').enumerate() {
        if let Err(no) = read_line(line) {
            return Err(Refusal { place, ..no });
        }
    }
    Ok(())
}

// The record of a line, at the front of an output; how many bytes that was.
fn put_record(line: &[u8], out: &mut [u8]) -> usize
    requires { length (part_bytes encoded (line_read line.now)) ≤ length out.old }
    ensures { (result ≡ length (part_bytes encoded (line_read line.now))) × (out.new ≡ over (part_bytes encoded (line_read line.now)) out.old) }
{
    match read_line(line) {
        Ok(e) => encode(e, out),
        Err(_) => 0,
    }
}

// The records of all lines; how many bytes they are.
pub fn put_records(text: &[u8], out: &mut [u8]) -> usize
    requires { length (all_bytes encoded line_read (lines text.now)) ≤ length out.old }
    ensures { (result ≡ length (all_bytes encoded line_read (lines text.now))) × (out.new ≡ over (all_bytes encoded line_read (lines text.now)) out.old) }
{
    let mut n = 0;
    for line in text.split_inclusive(|&c| c == b'\n') {
        n += put_record(line, &mut out[n..]);
    }
    n
}

// The first record with a fault.
pub fn first_faulty(input: &[u8]) -> Result<(), Refusal>
    requires { length input.now % 8 ≡ 0 }
    ensures { refusal_in result ≡ first_refused decoded 0 (records_of input.now) }
{
    for (place, bytes) in input.chunks_exact(8).enumerate() {
        if let Err(no) = decode(bytes) {
            return Err(Refusal { place, ..no });
        }
    }
    Ok(())
}

// How many bytes the line of a record has; 0 where it has none.
fn line_size(bytes: &[u8]) -> usize
    ensures { (result ≡ length (part_bytes line_of (decoded bytes.now))) × (result ≤ 24) }
{
    match decode(bytes) {
        Ok(e) => line_of(e).len(),
        Err(_) => 0,
    }
}

// How many bytes the lines of all records have.
pub fn text_size(input: &[u8]) -> usize
    requires { (length input.now % 8 ≡ 0) × (length input.now ≤ 8192) }
    ensures { result ≡ length (all_bytes line_of decoded (records_of input.now)) }
{
    let mut size = 0;
    for bytes in input.chunks_exact(8) {
        size += line_size(bytes);
    }
    size
}

// The line of a record, at the front of an output; how many bytes that was.
fn put_line(bytes: &[u8], out: &mut [u8]) -> usize
    requires { length (part_bytes line_of (decoded bytes.now)) ≤ length out.old }
    ensures { (result ≡ length (part_bytes line_of (decoded bytes.now))) × (out.new ≡ over (part_bytes line_of (decoded bytes.now)) out.old) }
{
    match decode(bytes) {
        Ok(e) => write_line(e, out),
        Err(_) => 0,
    }
}

// The lines of all records; how many bytes they are.
pub fn put_lines(input: &[u8], out: &mut [u8]) -> usize
    requires input_len { length input.now % 8 ≡ 0 }
    requires input_in_bounds { length (all_bytes line_of decoded (records_of input.now)) ≤ length out.old }
    ensures { (result ≡ length (all_bytes line_of decoded (records_of input.now))) × (out.new ≡ over (all_bytes line_of decoded (records_of input.now)) out.old) }
{
    let mut n = 0;
    for bytes in input.chunks_exact(8) {
        n += put_line(bytes, &mut out[n..]);
    }
    n
}
