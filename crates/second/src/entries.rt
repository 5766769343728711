// What one cell holds, at any number.
ghost use Rattle.std.specs.Prelude.{◌≡◌, get_or, set};

// What a cell holds: past the end it reads 0, and a store changes nothing.
pub fn entry(part: &[u16], at: usize) -> u16
    ensures { result ≡ get_or part.now at 0 }
{
    part.get(at).copied().unwrap_or(0)
}

// By index: of a slice after `get_mut` a proof knows the length alone.
pub fn set_entry(part: &mut [u16], at: usize, number: u16)
    ensures { part.new ≡ set part.old at number }
{
    if at < part.len() {
        part[at] = number;
    }
}
