// What is told of all edges of a cycle at once.
ghost use Rattle.std.specs.Prelude.{◌≤◌, ◌≡◌, length, map, Some};
ghost use Rattle.lists.specs.Lists.{over, below};
ghost use Rattle.reasons.specs.Telling.{line_at};

use crate::{Cause, searching};
use graph::Labelled;

// Writes what makes each edge of a cycle.
pub fn write_lines(records: &[Labelled], cycle: &[u16], lines: &mut [Option<Cause>])
    requires { (1 ≤ length records.now) × (length records.now ≤ 1024) × (length cycle.now ≤ length lines.old) }
    ensures { lines.new ≡ over (map (line_at records.now cycle.now) (below (length cycle.now))) lines.old }
{
    for place in 0..cycle.len() {
        lines[place] = Some(searching::cause_at(records, cycle, place));
    }
}
