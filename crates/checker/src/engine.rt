// The two engines, each of which finds the shortest prefix with a cycle.
ghost use Rattle.std.specs.Prelude.{ℕ, ◌≡◌, List, []};
ghost use Rattle.graph.specs.declared.Labelled.{Labelled};
ghost use Rattle.ancestors.specs.Search.{Searched, searched, prefix_of};
ghost use Rattle.plain.specs.Plain.{sources, next};
ghost use Rattle.second.specs.Taken.{searched_as, second_searched};
ghost use Rattle.checker.specs.Concluded.{FindsShortest};
ghost use Rattle.checker.specs.Engines.{plain_right, second_right};

use graph::Labelled;

pub trait Engine {
    // The shortest prefix with a cycle, and the rows.
    ghost finds: { List ℕ → List Labelled → Searched };

    // Searches the records from the rows lent: the record that ends the shortest prefix with a cycle, if there is one.
    fn search(records: &[Labelled], work: &mut [u64]) -> Option<usize>
        ensures { ◌≡◌ {A = Searched} (record { prefix = prefix_of result; rows = work.new })
            (finds work.old records.now) };

    ghost right: { FindsShortest finds };
}

// Each record is compared with all before it.
pub struct Plain;

impl Engine for Plain {
    ghost finds = { λ work xs. searched sources next [] work xs };

    ghost right = { plain_right };

    fn search(records: &[Labelled], work: &mut [u64]) -> Option<usize> {
        plain::search(records, work)
    }
}

// For each lock, thread and variable the last transaction is kept.
pub struct Second;

impl Engine for Second {
    ghost finds = { second_searched };

    ghost right = { second_right };

    fn search(records: &[Labelled], work: &mut [u64]) -> Option<usize> {
        second::search(records, work)
    }
}
