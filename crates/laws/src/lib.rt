// Arithmetic on whole numbers that Rattle has no operator for.
#![tactic(auto)]

ghost use Rattle.std.specs.Prelude.{◌≡◌, ◌≤◌, ◌<◌, ℕ, Bool};
ghost use Rattle.laws.specs.Rounding.{up};
ghost use Rattle.laws.specs.Search.{first_below};

use std::ops::Range;

// The quotient rounded up, or 0 where the divisor is 0.
pub fn div_up(n: u32, d: u32) -> u32
    ensures { result ≡ up n d }
{
    if d == 0 {
        return 0;
    }
    n.div_ceil(d)
}

// The first number of a range that passes a test; the range's end where none does.
// A number, and no Option: it is `first_below`, of which the definitions of places and lengths are made.
pub fn first_in<F: Fn(usize) -> bool>(range: Range<usize>, test: F) -> usize
    requires forward { range.start ≤ range.end }
    requires callable { (i : ℕ) → range.start ≤ i → i < range.end → F.pre test i }
    ensures within { result ≤ range.end }
    ensures first { (passes : ℕ → Bool)
        → ((i : ℕ) (b : Bool) → range.start ≤ i → i < range.end → F.post test i b → b ≡ passes i)
        → result ≡ first_below passes range.end range.start }
{
    for i in range.start..range.end {
        if test(i) {
            return i;
        }
    }
    range.end
}
