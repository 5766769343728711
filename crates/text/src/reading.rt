// One line read, word by word.
ghost use Rattle.std.specs.Prelude.{◌≡◌};
ghost use Rattle.text.specs.Line.{line_read};
ghost use Rattle.text.specs.Steps.{event_in};

use crate::scan::{kind_named, number};
use record::{Event, operation_of, target_limit};

// The event of a line: the thread, the name of the operation, and what its kind has.
pub fn event(line: &[u8]) -> Option<Event>
    ensures { event_in result ≡ line_read line.now }
{
    let (last, body) = line.split_last()?;
    if *last != b'\n' {
        return None;
    }
    let mut words = body.split(|&c| c == b' ');
    let thread = number(words.next()?, 15)? as u8;
    let kind = kind_named(words.next()?)?;
    let target = if kind < 10 {
        number(words.next()?, target_limit(kind) as u16)? as u8
    } else {
        0
    };
    let value = if kind < 3 {
        number(words.next()?, 65535)?
    } else {
        0
    };
    if words.next().is_some() {
        return None;
    }
    let op = operation_of(kind, target, value);
    Some(Event { thread, op })
}
