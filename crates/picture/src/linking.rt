// The edges of a recording, from its records: bit b of row a is set where there is an edge from transaction a to b.
ghost use Rattle.std.specs.Prelude.{◌≡◌, ◌<◌, ◌≤◌, ◌∷◌, [], ◌++◌, length, drop};
ghost use Rattle.picture.specs.Linking.{Few, Links, linked};

use graph::Labelled;

// Marks the edge that one record makes with another, which stands after it, if it makes one.
fn link(work: &mut [u64], first: Labelled, second: Labelled)
    ensures { work.new ≡ linked first second work.old }
{
    let s = first.transaction;
    let t = second.transaction;
    if s != t && graph::conflicts(first.event, second.event) {
        rows::mark(work, s, t);
    }
}

// Marks the edges that a record makes with those before it.
fn link_record(work: &mut [u64], before: &[Labelled], later: Labelled)
    requires few { Few before.now × (later.transaction < 512) }
    requires links { Links before.now work.old }
    ensures { Links (before.now ++ (later ∷ [])) work.new × (drop 4096 work.new ≡ drop 4096 work.old) }
{
    for first in before {
        link(work, *first, later);
    }
}

// Marks the edges of the records, and no others.
pub fn link_all(work: &mut [u64], records: &[Labelled])
    requires { Few records.now × (4096 ≤ length work.old) }
    ensures { Links records.now work.new × (drop 4096 work.new ≡ drop 4096 work.old) }
{
    rows::clear(work);
    for (k, record) in records.iter().enumerate() {
        link_record(work, &records[..k], *record);
    }
}
