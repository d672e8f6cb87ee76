// Decimal numbers in the arguments of a program.
#![tactic(auto)]

ghost use Rattle.std.specs.Prelude.{◌≡◌, ◌≤◌, Option};
ghost use Rattle.decimals.specs.Decimals.{most_decimal, with_digit, decimal_of};

// Above every cycle, stretch, flow and needed waiting length. A larger number counts as this.
pub const MOST_DECIMAL: usize = 1000000000000000000;

// The number that the digits of a text make, at most MOST_DECIMAL. A text with no digit, or with anything else, is none.
#[tactic(auto, using(crate::specs::Decimals::reading))]
pub fn decimal(text: &[u8]) -> Option<usize>
    ensures { result ≡ decimal_of text.now }
{
    if text.is_empty() {
        return None;
    }
    let mut value = 0;
    for byte in text {
        if !byte.is_ascii_digit() {
            return None;
        }
        value = with_digit(value, *byte);
    }
    Some(value)
}

// A number with a digit after it.
#[tactic(auto, unfolding(crate::specs::Decimals::most_decimal))]
fn with_digit(n: usize, digit: u8) -> usize
    requires counted { n ≤ most_decimal }
    requires digit { 48 ≤ digit }
    ensures { result ≡ with_digit n digit }
{
    (10 * n + usize::from(digit - b'0')).min(MOST_DECIMAL)
}
