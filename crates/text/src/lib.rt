// The written form of records, for tests: a line for each, such as `0 write 3 5`.
#![tactic(auto)]

mod making;
mod reading;
mod scan;
mod whole;

ghost use Rattle.std.specs.Prelude.{◌≡◌};
ghost use Rattle.record.specs.Answers.{told};
ghost use Rattle.text.specs.Line.{line_read, line_over, line_room};
ghost use Rattle.text.specs.File.{ending, read_text, write_text};

use record::{Event, Fault, Refusal};
pub use whole::line_feeds;

// The event of a line, or number 14.
pub fn read_line(line: &[u8]) -> Result<Event, Refusal>
    ensures { told result ≡ line_read line.now }
{
    Ok(reading::event(line).ok_or(Fault::Form)?)
}

// Writes the line of an event at the front of an output, where it fits; how many bytes that was.
pub fn write_line(e: Event, out: &mut [u8]) -> usize
    ensures { (result ≡ line_room e out.old) × (out.new ≡ line_over e out.old) }
{
    let line = making::line_of(e);
    let size = line.len();
    if out.len() < size {
        return 0;
    }
    out[..size].copy_from_slice(line.as_slice());
    size
}

// Reads a text into records.
pub fn read_text(text: &[u8], out: &mut [u8]) -> Result<usize, Refusal>
    ensures { ending result out.new ≡ read_text text.now out.old }
{
    let feeds = line_feeds(text);
    if 1024 < feeds {
        return Err(Fault::TooLong.into());
    }
    if out.len() < 8 * feeds {
        return Err(Fault::Output.into());
    }
    whole::first_formless(text)?;
    Ok(whole::put_records(text, out))
}

// Writes records as a text.
pub fn write_text(input: &[u8], out: &mut [u8]) -> Result<usize, Refusal>
    ensures { ending result out.new ≡ write_text input.now out.old }
{
    if input.len() % 8 != 0 {
        return Err(Fault::Length.into());
    }
    if 8192 < input.len() {
        return Err(Fault::TooLong.into());
    }
    whole::first_faulty(input)?;
    if out.len() < whole::text_size(input) {
        return Err(Fault::Output.into());
    }
    Ok(whole::put_lines(input, out))
}
