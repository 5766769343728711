// The rows of ancestors: what both engines do to them once they know the sources of a record.
// A source is a transaction from which the record makes an edge into its own transaction a.
#![tactic(auto)]

ghost use Rattle.std.specs.Prelude.{◌≡◌, [], ◌∷◌};
ghost use Rattle.ancestors.specs.Others.{is_other, others};
ghost use Rattle.ancestors.specs.Sources.{spread_to, looked, begun_with, Joins, code, more};
ghost use Rattle.ancestors.specs.Sources as Sources;

// What joining the rows of sources into row a found: none of them was new to it, or one was, or one that was new is reached from a.
#[derive(Clone, Copy, PartialEq, Eq, PartialOrd, Ord)]
pub enum Joined {
    Nothing,
    Source,
    Cycle,
}

// Whether what is held is a transaction other than a: 0 holds none, else a transaction and 1. Numbers, since an `Option` takes twice the room in the
// engine's cells.
pub fn is_other(a: u16, held: u16) -> bool
    ensures { result ≡ is_other a held }
{
    held != 0 && held - 1 != a
}

// Whether a reaches the transaction that is held, another than a.
pub fn leads(work: &[u64], a: u16, held: u16) -> bool
    ensures { result ≡ Sources.leads work.now a held }
{
    is_other(a, held) && rows::test(work, held - 1, a)
}

// Joins row b into row a, unless row a has its bit.
pub fn join_source(work: &mut [u64], a: u16, b: u16) -> Joined
    ensures { Joins work.old a (b ∷ []) (code result) work.new }
{
    if rows::test(work, a, b) {
        return Joined::Nothing;
    }
    let back = rows::test(work, b, a);
    rows::join(work, a, b);
    if back { Joined::Cycle } else { Joined::Source }
}

// The same of the transaction that is held, if it is another than a.
pub fn join_one(work: &mut [u64], a: u16, held: u16) -> Joined
    ensures { Joins work.old a (others a (held ∷ [])) (code result) work.new }
{
    if is_other(a, held) {
        return join_source(work, a, held - 1);
    }
    Joined::Nothing
}

impl Joined {
    // What was found by both: the greater of two answers.
    pub fn and(self, other: Joined) -> Joined
        ensures { code result ≡ more (code self) (code other) }
    {
        self.max(other)
    }
}

// The greater of two answers that are held as numbers.
pub fn more(x: u8, y: u8) -> u8
    ensures { result ≡ Sources.more x y }
{
    x.max(y)
}

// Joins row a into each of the first n rows that has bit a.
pub fn spread(work: &mut [u64], n: u16, a: u16)
    ensures { work.new ≡ spread_to n work.old a }
{
    for d in 0..n {
        if rows::test(work, d, a) {
            rows::join(work, d, a);
        }
    }
}

// The rows to look at, where n transactions have begun before a record of transaction a: none, where the record begins it.
pub fn rows_to_look(a: u16, n: u16) -> u16
    ensures { result ≡ looked a n }
{
    if a == n { 0 } else { n }
}

// How many transactions have begun with that record.
pub fn begun_with(a: u16, n: u16) -> u16
    ensures { result ≡ begun_with a n }
{
    if a == n && a < 512 { n + 1 } else { n }
}
