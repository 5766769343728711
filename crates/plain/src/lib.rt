// The plain engine: each record is compared with all before it.
#![tactic(auto)]

mod comparing;

ghost use Rattle.std.specs.Prelude.{◌≡◌, []};
ghost use Rattle.ancestors.specs.Search.{Searched, searched, prefix_of};
ghost use Rattle.plain.specs.Plain.{sources, next};

use graph::Labelled;

// The record that ends the shortest prefix with a cycle, if there is one; and the rows are closed up to there.
pub fn search(records: &[Labelled], work: &mut [u64]) -> Option<usize>
    ensures { ◌≡◌ {A = Searched} (record { prefix = prefix_of result; rows = work.new })
        (searched sources next [] work.old records.now) }
{
    let mut begun = 0;
    for (i, record) in records.iter().enumerate() {
        let to_look = ancestors::rows_to_look(record.transaction, begun);
        if comparing::take(&records[..i], *record, to_look, work) {
            return Some(i);
        }
        begun = ancestors::begun_with(record.transaction, begun);
    }
    None
}
