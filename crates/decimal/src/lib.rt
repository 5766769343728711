// Numbers in decimal, as bytes of ASCII.
#![tactic(auto)]

ghost use Rattle.std.specs.Prelude.{◌≡◌, ◌/◌, ◌≤◌};
ghost use Rattle.decimal.specs.Decimal.{decimal};
ghost use Rattle.decimal.specs.Leading.{leading};

use short::Short;

// Puts the digit of a power of ten after the higher ones, unless it would lead with a zero.
fn push_digit(digits: &mut Short<5>, n: u16, power: u16)
    requires { (1 ≤ power) × (digits.old ≡ leading (n / power / 10)) }
    ensures { digits.new ≡ leading (n / power) }
{
    if power <= n {
        digits.push(b'0' + (n / power % 10) as u8);
    }
}

// The digits of a number, the highest first: each is put where it stays, so that nothing waits for bytes just stored.
pub fn digits_of(n: u16) -> Short<5>
    ensures { result ≡ decimal n }
{
    let mut digits = Short::new();
    push_digit(&mut digits, n, 10000);
    push_digit(&mut digits, n, 1000);
    push_digit(&mut digits, n, 100);
    push_digit(&mut digits, n, 10);
    digits.push(b'0' + (n % 10) as u8);
    digits
}
