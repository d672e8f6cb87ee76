// Tenths of a delay or a saturation, as a program prints them (document 02, 2026-05). A delay is rounded up, so that what is printed lies at or
// below a level's limit exactly where the delay does; a saturation is rounded down, so that 1.0 is printed where it is 1.
#![tactic(auto)]

ghost use Rattle.std.specs.Prelude.{◌≡◌};
ghost use Rattle.tenths.specs.Tenths.{tenths_up, tenths_down};

// One more than the most tenths that are told, 9,999.9.
pub const TENTHS_END: u32 = 100000;

// The least whole number that is not below ten times x in f64; TENTHS_END where every number below that is too small.
#[tactic(auto, using(crate::specs::Literals::is_10), unfolding(crate::specs::Tenths::tenths_up))]
pub fn tenths_up(x: f64) -> u32
    ensures { result ≡ tenths_up x }
{
    let ten = x * 10.0;
    laws::first_in(0..TENTHS_END as usize, |n| ten <= n as u32 as f64) as u32
}

// That number, or the one before it where it is above ten times x.
#[tactic(auto, using(crate::specs::Literals::is_10), unfolding(crate::specs::Tenths::tenths_down))]
pub fn tenths_down(x: f64) -> u32
    ensures { result ≡ tenths_down x }
{
    let n = tenths_up(x);
    if n as f64 <= x * 10.0 {
        return n;
    }
    n.saturating_sub(1)
}
