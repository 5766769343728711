// The records of each transaction, linked by their numbers.
ghost use Rattle.std.specs.Prelude.{◌≡◌, get_or, take};
ghost use Rattle.naming.specs.Chains.{Linked, no_record};

use graph::Labelled;

// For each of 512 transactions its first record, and for each record of one of these the next of its transaction. 1,024 is none: an `Option` takes
// twice the room.
#[derive(Drop)]
pub struct Chains {
    firsts: [u16; 512],
    nexts: [u16; 1024],
}

impl Chains {
    // Links the first 1,024 of the records, the last one first, and by number, since the numbers are what links.
    pub fn link(records: &[Labelled]) -> Self
        ensures { Linked (take 1024 records.now) 0 result.firsts result.nexts }
    {
        let mut chains = Chains {
            firsts: [1024; 512],
            nexts: [1024; 1024],
        };
        let records = &records[..records.len().min(1024)];
        for i in (0..records.len()).rev() {
            let a = records[i].transaction as usize;
            if a < 512 {
                chains.nexts[i] = chains.firsts[a];
                chains.firsts[a] = i as u16;
            }
        }
        chains
    }

    // The first record of transaction a.
    pub fn first_of(&self, a: u16) -> u16
        ensures { result ≡ get_or self.now.firsts a no_record }
    {
        self.firsts.get(a as usize).copied().unwrap_or(1024)
    }

    // The next record of record i's transaction.
    pub fn next_of(&self, i: usize) -> u16
        ensures { result ≡ get_or self.now.nexts i no_record }
    {
        self.nexts.get(i).copied().unwrap_or(1024)
    }
}
