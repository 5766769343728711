// The text, put into an output piece by piece. What doesn't fit is counted and not put, so the length of the text is found by putting it nowhere.
ghost use Rattle.std.specs.Prelude.{◌≡◌, ◌+◌, ◌*◌, ◌≤◌, ◌<◌, length};
ghost use Rattle.lists.specs.Lists.{each, below};
ghost use Rattle.decimal.specs.Decimal.{decimal};
ghost use Rattle.record.specs.Answers.{bytes_or_refused};
ghost use Rattle.picture.specs.Picture.{transaction_line, edge, edge_line};
ghost use Rattle.picture.specs.Drawn.{Put, fitted};
ghost use Rattle.picture.specs.Putting.{Puts, link_line, row_lines, text_of};

use record::{Fault, Refusal};

// A text at the front of an output, as far as it fits there: where its end is, or would be.
#[derive(Drop)]
struct Text<'a> {
    out: &'a mut [u8],
    end: usize,
}

impl Text<'_> {
    // Puts bytes.
    fn put(&mut self, bytes: &[u8])
        requires { (length bytes.now ≤ 10) × (self.old.end ≤ 4000000) }
        ensures same_output { self.new.out.ghost_name ≡ self.old.out.ghost_name }
        ensures put { Puts bytes.now self.old.end self.old.out.now self.new.out.now self.new.end }
    {
        let at = self.end;
        self.end = at + bytes.len();
        if self.end <= self.out.len() {
            self.out[at..self.end].copy_from_slice(bytes);
        }
    }

    // Puts a number in decimal.
    fn put_number(&mut self, n: u16)
        requires { self.old.end ≤ 4000000 }
        ensures same_output { self.new.out.ghost_name ≡ self.old.out.ghost_name }
        ensures put { Puts (decimal n) self.old.end self.old.out.now self.new.out.now self.new.end }
    {
        let digits = decimal::digits_of(n);
        self.put(digits.as_slice());
    }

    // Puts the line of a transaction.
    fn put_transaction(&mut self, a: u16)
        requires { (a < 512) × (self.old.end ≤ 3999990) }
        ensures same_output { self.new.out.ghost_name ≡ self.old.out.ghost_name }
        ensures put { Puts (transaction_line a) self.old.end self.old.out.now self.new.out.now self.new.end }
        ensures most { self.new.end ≤ self.old.end + 5 }
    {
        self.put_number(a);
        self.put(b";\n");
    }

    // Puts the line of an edge.
    fn put_edge(&mut self, a: u16, b: u16)
        requires { (a < 512) × (b < 512) × (self.old.end ≤ 3999980) }
        ensures same_output { self.new.out.ghost_name ≡ self.old.out.ghost_name }
        ensures put { Puts (edge_line (edge a b)) self.old.end self.old.out.now self.new.out.now self.new.end }
        ensures most { self.new.end ≤ self.old.end + 12 }
    {
        self.put_number(a);
        self.put(b" -> ");
        self.put_number(b);
        self.put(b";\n");
    }

    // Puts the lines of n transactions.
    fn put_transactions(&mut self, n: u16)
        requires { (n ≤ 512) × (self.old.end ≤ 10) }
        ensures same_output { self.new.out.ghost_name ≡ self.old.out.ghost_name }
        ensures put { Puts (each transaction_line (below n)) self.old.end self.old.out.now self.new.out.now self.new.end }
        ensures most { self.new.end ≤ self.old.end + 5 * n }
    {
        for a in 0..n {
            self.put_transaction(a);
        }
    }

    // Puts the lines of the edges that begin at transaction a.
    fn put_row(&mut self, work: &[u64], n: u16, a: u16)
        requires { (n ≤ 512) × (a < 512) × (self.old.end ≤ 3900000) }
        ensures same_output { self.new.out.ghost_name ≡ self.old.out.ghost_name }
        ensures put { Puts (row_lines work.now n a) self.old.end self.old.out.now self.new.out.now self.new.end }
        ensures most { self.new.end ≤ self.old.end + 12 * n }
    {
        for b in 0..n {
            if rows::test(work, a, b) {
                self.put_edge(a, b);
            }
        }
    }

    // Puts the lines of all edges.
    fn put_rows(&mut self, work: &[u64], n: u16)
        requires { (n ≤ 512) × (self.old.end ≤ 2570) }
        ensures same_output { self.new.out.ghost_name ≡ self.old.out.ghost_name }
        ensures put { Puts (each (row_lines work.now n) (below n)) self.old.end self.old.out.now self.new.out.now self.new.end }
        ensures most { self.new.end ≤ self.old.end + 6144 * n }
    {
        for a in 0..n {
            self.put_row(work, n, a);
        }
    }
}

// Puts the whole text at the front of an output; its length.
fn put_text(work: &[u64], n: u16, out: &mut [u8]) -> usize
    requires { n ≤ 512 }
    ensures { Puts (text_of work.now n) 0 out.old out.new result }
{
    let mut text = Text { out, end: 0 };
    text.put(b"digraph {\n");
    text.put_transactions(n);
    text.put_rows(work, n);
    text.put(b"}\n");
    text.end
}

// Puts the whole text where it fits; else number 3.
pub fn put_fitting(work: &[u64], n: u16, out: &mut [u8]) -> Result<usize, Refusal>
    requires { n ≤ 512 }
    ensures { ◌≡◌ {A = Put} (record { answer = bytes_or_refused result; out = out.new }) (fitted (text_of work.now n) out.old) }
{
    let mut nowhere = [0; 1];
    if out.len() < put_text(work, n, &mut nowhere) {
        return Err(Fault::Output.into());
    }
    Ok(put_text(work, n, out))
}
