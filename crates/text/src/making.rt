// One line made, byte by byte.
ghost use Rattle.std.specs.Prelude.{◌≡◌, ◌+◌, ◌≤◌, ◌<◌, ◌++◌, [], ◌∷◌, length};
ghost use Rattle.decimal.specs.Decimal.{decimal};
ghost use Rattle.text.specs.Line.{fields, line_of};
ghost use Rattle.text.specs.Steps.{spaced_out};

use crate::scan::name;
use decimal::digits_of;
use record::{Event, Op};
use short::Short;

// A space and a number, put after what is there.
fn push_field(line: &mut Short<24>, n: u16)
    requires { length line.old + length (decimal n) < 24 }
    ensures { line.new ≡ line.old ++ spaced_out (n ∷ []) }
{
    line.push(b' ');
    line.extend(digits_of(n).as_slice());
}

// What the kind has after its name: a target and a value, a target, or nothing. By the kind's number, as Line.field_count.
fn push_fields(line: &mut Short<24>, op: Op)
    requires { length line.old ≤ 12 }
    ensures { (line.new ≡ line.old ++ spaced_out (fields op)) × (length line.new ≤ length line.old + 10) }
{
    let kind = op.kind();
    if 9 < kind {
        return;
    }
    push_field(line, op.target() as u16);
    if 2 < kind {
        return;
    }
    push_field(line, op.value());
}

// The line of an event. None has more than 23 bytes.
pub fn line_of(e: Event) -> Short<24>
    ensures { result ≡ line_of e }
{
    let mut line = Short::new();
    line.extend(digits_of(e.thread as u16).as_slice());
    line.push(b' ');
    line.extend(name(e.op.kind()));
    push_fields(&mut line, e.op);
    line.push(b'\n');
    line
}
