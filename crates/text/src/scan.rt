// What a word is: a number, or the name of an operation.
ghost use Rattle.std.specs.Prelude.{◌≡◌, ◌≤◌, IfSome};
ghost use Rattle.text.specs.Line.{name as Line·name, kind_named as Line·kind_named};
ghost use Rattle.text.specs.Steps.{number_in, kind_in};

// The name of a kind.
#[tactic(auto, unfolding(crate::specs::Line::name, crate::specs::Line::names, crate::specs::Line::ascii))]
pub fn name(kind: u8) -> &'static [u8]
    requires { (1 ≤ kind) × (kind ≤ 10) }
    ensures { result.now ≡ Line·name kind }
{
    match kind {
        1 => b"read",
        2 => b"write",
        3 => b"acquire",
        4 => b"release",
        5 => b"prewait",
        6 => b"postwait",
        7 => b"notify",
        8 => b"fork",
        9 => b"join",
        _ => b"yield",
    }
}

// The number that a word is, where it is one within the limit.
pub fn number(word: &[u8], limit: u16) -> Option<u16>
    ensures { result ≡ number_in limit word.now }
{
    if word.is_empty() {
        return None;
    }
    if 1 < word.len() && word[0] == b'0' {
        return None;
    }
    let mut value = 0;
    for &c in word {
        if !c.is_ascii_digit() {
            return None;
        }
        value = 10 * value + (c - b'0') as u32;
        if (limit as u32) < value {
            return None;
        }
    }
    Some(value as u16)
}

// The kind that a word names.
pub fn kind_named(word: &[u8]) -> Option<u8>
    ensures named { kind_in result ≡ Line·kind_named word.now }
    ensures within { IfSome result (λ k. (1 ≤ k) × (k ≤ 10)) }
{
    for kind in 1..=10 {
        if word == name(kind) {
            return Some(kind);
        }
    }
    None
}
