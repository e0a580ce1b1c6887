// Decimal numbers as text.
#![tactic(auto)]

ghost use Rattle.std.specs.Prelude.{◌≡◌, ◌+◌, ◌*◌, ◌-◌, ◌≤◌, min};
ghost use Rattle.numeral.specs.Numeral.{number_limit, is_digit, numeral_of};

// One past the greatest number of 4 bytes. Greater numbers are not told apart.
pub const NUMBER_LIMIT: u64 = 4294967296;

fn is_digit(c: u8) -> bool
    ensures { result ≡ is_digit c }
{
    matches!(c, b'0'..=b'9')
}

// What a character stands for; one below `0` counts as 0, since any text is gone through.
fn digit_of(c: u8) -> u64
    ensures { (result ≡ c - 48) × (result ≤ 207) }
{
    u64::from(c.saturating_sub(b'0'))
}

// A number with one digit more.
fn longer(n: u64, c: u8) -> u64
    requires { n ≤ number_limit }
    ensures { result ≡ min (n * 10 + (c - 48)) number_limit }
{
    NUMBER_LIMIT.min(n * 10 + digit_of(c))
}

// The number that a text of one or more digits is.
pub fn read(text: &[u8]) -> Option<u64>
    ensures { result ≡ numeral_of text.now }
{
    let mut digits = true;
    let mut n: u64 = 0;
    for c in text {
        digits = digits & is_digit(*c);
        n = longer(n, *c);
    }
    (digits & !text.is_empty()).then_some(n)
}
