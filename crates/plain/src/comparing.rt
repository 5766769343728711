// A record compared with those before it.
ghost use Rattle.std.specs.Prelude.{◌≡◌, [], ◌∷◌};
ghost use Rattle.ancestors.specs.Sources.{Joins, code};
ghost use Rattle.ancestors.specs.Search.{closes_cycle, rows_with};
ghost use Rattle.plain.specs.Plain.{sources, few};

use ancestors::Joined;
use graph::Labelled;

// Joins into the row of x the row of the transaction of y, which stands before it, where they make an edge. The bit is looked at first, since that
// takes less than to compare.
fn join_edge(work: &mut [u64], x: Labelled, y: Labelled) -> Joined
    ensures { Joins work.old x.transaction (sources (few (y ∷ [])) x) (code result) work.new }
{
    let a = x.transaction;
    let b = y.transaction;
    if b != a && b < 512 && !rows::test(work, a, b) && graph::conflicts(y.event, x.event) {
        return ancestors::join_source(work, a, b);
    }
    Joined::Nothing
}

// The same of each record before x. The greatest answer is given.
fn join_earlier(earlier: &[Labelled], x: Labelled, work: &mut [u64]) -> Joined
    ensures { Joins work.old x.transaction (sources (few earlier.now) x) (code result) work.new }
{
    let mut found = Joined::Nothing;
    for y in earlier {
        found = found.and(join_edge(work, x, *y));
    }
    found
}

// Takes a record in, with n rows to look at, and says whether that closes a cycle. There are rows for 512 transactions: of a record of any other
// nothing changes.
pub fn take(earlier: &[Labelled], x: Labelled, n: u16, work: &mut [u64]) -> bool
    ensures { (result ≡ closes_cycle sources (few earlier.now) work.old x) × (work.new ≡ rows_with sources (few earlier.now) work.old n x) }
{
    if x.transaction >= 512 {
        return false;
    }
    let found = join_earlier(earlier, x, work);
    if found != Joined::Nothing {
        ancestors::spread(work, n, x.transaction);
    }
    found == Joined::Cycle
}
