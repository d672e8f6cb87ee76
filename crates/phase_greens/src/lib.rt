// What a length of the cycle gives each phase: effective green, green and start (document 01, "Working out a plan").
#![tactic(auto)]

ghost use Rattle.std.specs.Prelude.{◌≡◌, ◌-◌, ◌≤◌};
ghost use Rattle.limits.specs.Limits.{most_phases};
ghost use Rattle.phase_greens.specs.Greens.{share as share_of, shares as shares_in, sharing as sharing_of, extra as extra_of, green_by};
ghost use Rattle.phase_greens.specs.Greens.{gives_greens};
ghost use Rattle.phase_greens.specs.Slots.{no_slot, slots_of, first_below_one_in};

use limits::MOST_PHASES;
use phase_lengths::{Phase, Phases};

// What is shared out at a length of the cycle: the seconds of effective green, over the sum of the flow ratios, and the seconds that are
// left over after rounding down.
#[derive(Clone, Copy, Debug, PartialEq, Eq)]
pub struct Sharing {
    pub seconds: u16,
    pub ratios: u64,
    pub left: u64,
}

// A phase's start and its green, in seconds.
#[derive(Clone, Copy, Debug, PartialEq, Eq)]
pub struct Slot {
    pub start: u64,
    pub green: u64,
}

// Those of six places; of an empty place the green is 0.
// Stays an array of fixed room, of which fewer places may be in use: the project has no heap.
#[derive(Clone, Copy, Debug, PartialEq, Eq)]
pub struct Slots {
    pub of: [Slot; MOST_PHASES],
}

// (34): a phase's part of the seconds by its flow ratio, rounded down; 0 where the sum of ratios is 0.
#[tactic(auto, unfolding(crate::specs::Greens::share))]
fn share(ratio: u32, seconds: u16, ratios: u64) -> u64
    ensures value { result ≡ share_of ratio seconds ratios }
    ensures small { result ≤ 281474976710656 }
{
    if ratios == 0 {
        return 0;
    }
    ratio as u64 * seconds as u64 / ratios
}

// The sum of the phases' parts.
#[tactic(auto, using(laws::specs::Sums::sum_none, laws::specs::Sums::sum_next), unfolding(phase_lengths::specs::Phases::phase, crate::specs::Greens::shares))]
fn shares(q: Phases, seconds: u16, ratios: u64) -> u64
    ensures { result ≡ shares_in q seconds ratios }
{
    let mut total: u64 = 0;
    for p in &q.of {
        total += share(p.ratio, seconds, ratios);
    }
    total
}

// The seconds of a length above its lost time, 0 where it is below it.
fn spare(t: u16, lost: u64) -> u16
    ensures { result ≡ t - lost }
{
    (t as u64).saturating_sub(lost) as u16
}

// What is shared out at a length.
#[tactic(auto, unfolding(crate::specs::Greens::sharing))]
pub fn shared_out(q: Phases, t: u16) -> Sharing
    ensures { result ≡ sharing_of q t }
{
    let sums = phase_lengths::sums_of(q);
    let seconds = spare(t, sums.lost);
    let ratios = sums.ratios;
    let given = shares(q, seconds, ratios);
    Sharing {
        seconds,
        ratios,
        left: (seconds as u64).saturating_sub(given),
    }
}

// One second more for a phase with fewer phases with cars before it than there are seconds left over.
#[tactic(auto, unfolding(crate::specs::Greens::extra))]
fn extra(before: u64, left: u64) -> u64
    ensures value { result ≡ extra_of before left }
    ensures small { result ≤ 1 }
{
    if before < left { 1 } else { 0 }
}

// The green of a phase with so many phases with cars before it: effective green less 1 with cars (36), the need without.
fn green_by(p: Phase, s: Sharing, before: u64) -> u64
    ensures value { result ≡ green_by p s before }
    ensures small { result ≤ 281474976710656 }
{
    if p.cars {
        let effective = share(p.ratio, s.seconds, s.ratios) + extra(before, s.left);
        return effective.saturating_sub(1);
    }
    p.need as u64
}

fn no_slot() -> Slot
    ensures { result ≡ no_slot }
{
    Slot { start: 0, green: 0 }
}

// Start and green of each place: phase 1 starts at 0, each next after the greens and intergreens of those before it.
#[tactic(auto, using(laws::specs::Sums::sum_none, laws::specs::Sums::sum_next, laws::specs::Filled::filled_none, laws::specs::Filled::filled_next), unfolding(phase_lengths::specs::Phases::phase, crate::specs::Greens::cars_before, crate::specs::Greens::green_at, crate::specs::Greens::start_at, crate::specs::Slots::slots_of))]
pub fn slots_of(q: Phases, s: Sharing) -> Slots
    ensures { result ≡ slots_of q s }
{
    let mut all = Slots {
        of: [no_slot(); MOST_PHASES],
    };
    let mut start: u64 = 0;
    let mut before: u64 = 0;
    for i in 0..MOST_PHASES {
        let p = q.of[i];
        let green = green_by(p, s, before);
        all.of[i] = Slot { start, green };
        start += green + p.intergreen as u64;
        before += u64::from(p.cars);
    }
    all
}

// The first of the first places whose green is below 1; their number where none is.
#[tactic(auto, unfolding(crate::specs::Slots::first_below_one_in))]
fn first_below_one(slots: Slots, n: usize) -> usize
    requires { n ≤ most_phases }
    ensures { result ≡ first_below_one_in slots n }
{
    laws::first_in(0..n, |i| slots.of[i].green < 1)
}

// Whether a length is at least its lost time and gives every phase a green of 1 or more.
#[tactic(auto, using(crate::specs::Slots::short_tabled), unfolding(crate::specs::Greens::gives_greens))]
pub fn gives_greens(q: Phases, slots: Slots, t: u16) -> bool
    requires count { q.count ≤ most_phases }
    requires slots { slots ≡ slots_of q (sharing_of q t) }
    ensures { result ≡ gives_greens q t }
{
    let short = first_below_one(slots, q.count);
    let sums = phase_lengths::sums_of(q);
    (sums.lost <= t as u64) & (q.count <= short)
}
