// The phases of a junction as numbers: lost time, the sum of flow ratios, and the first length of the cycle (document 01, "Working out a
// plan").
#![tactic(auto)]

ghost use Rattle.std.specs.Prelude.{◌≡◌, ◌+◌, ◌*◌, ◌≤◌, leb};
ghost use Rattle.phase_lengths.specs.Phases.{no_phase, phase, lost as lost_of, sums_of, long_enough, first_length};

use limits::{MOST_PHASES, NO_CYCLE};

// A phase: whether it has cars, the largest flow ratio of these in ten-thousandths, M toward the next phase, and the largest needed green of
// its streams.
#[derive(Clone, Copy, Debug, PartialEq, Eq)]
pub struct Phase {
    pub cars: bool,
    pub ratio: u32,
    pub intergreen: u32,
    pub need: u32,
}

// The phases in their order; the places after the last are empty.
// Stays a number beside an array of fixed room: the project has no heap, and the definition `phase` reads the empty places.
#[derive(Clone, Copy, Debug, PartialEq, Eq)]
pub struct Phases {
    pub count: usize,
    pub of: [Phase; MOST_PHASES],
}

// The sums over a junction's phases: Y, of the flow ratios, and L, of the time lost to each (31).
#[derive(Clone, Copy, Debug, PartialEq, Eq)]
pub struct Sums {
    pub ratios: u64,
    pub lost: u64,
}

// What stands in an empty place.
pub fn no_phase() -> Phase
    ensures { result ≡ no_phase }
{
    Phase {
        cars: false,
        ratio: 0,
        intergreen: 0,
        need: 0,
    }
}

// The phase at a place, from 0; an empty place past the sixth.
// Stays a test and an index: by `.get(i)` the reader's twin, `stream_at` of junction_places, took more instructions.
#[tactic(auto, unfolding(crate::specs::Phases::phase))]
pub fn phase_at(q: Phases, i: usize) -> Phase
    ensures { result ≡ phase q i }
{
    if i < MOST_PHASES {
        return q.of[i];
    }
    no_phase()
}

// The time lost to a phase: M - 1 with cars (30), need + M without.
#[tactic(auto, unfolding(crate::specs::Phases::lost))]
fn lost(p: Phase) -> u64
    ensures value { result ≡ lost_of p }
    ensures small { result ≤ 8589934592 }
{
    if p.cars {
        return (p.intergreen as u64).saturating_sub(1);
    }
    p.need as u64 + p.intergreen as u64
}

// Y and L by one pass over the phases.
#[tactic(auto, using(laws::specs::Sums::sum_none, laws::specs::Sums::sum_next), unfolding(crate::specs::Phases::phase, crate::specs::Phases::ratio_sum, crate::specs::Phases::lost_time))]
pub fn sums_of(q: Phases) -> Sums
    ensures { result ≡ sums_of q }
{
    let mut ratios: u64 = 0;
    let mut time: u64 = 0;
    for p in &q.of {
        ratios += p.ratio as u64;
        time += lost(*p);
    }
    Sums { ratios, lost: time }
}

// Whether 1,200,000 × lost is at most a product (33).
fn by_33(lost: u64, product: u64) -> bool
    ensures { result ≡ leb (1200000 * lost) product }
{
    lost <= product / 1200000
}

// Whether 15,000 × lost + 50,000 is at most a product (32).
fn by_32(lost: u64, product: u64) -> bool
    ensures { result ≡ leb (15000 * lost + 50000) product }
{
    (50000 <= product) & (lost <= product.saturating_sub(50000) / 15000)
}

// Whether a length is at least the optimum: by (33) where there are pedestrians or trams, else by (32).
#[tactic(auto, unfolding(crate::specs::Phases::long_enough))]
fn long_enough(mixed: bool, sums: Sums, t: u16) -> bool
    ensures { result ≡ long_enough mixed sums.ratios sums.lost t }
{
    let free = 10000u64.saturating_sub(sums.ratios);
    if mixed {
        return by_33(sums.lost, t as u64 * t as u64 * free);
    }
    by_32(sums.lost, t as u64 * free)
}

// T0, the least length, from 1 on, that is long enough; 181 where none up to 180 is.
// Stays a number, and no Option: documents name it as a function that answers every value.
#[tactic(auto, unfolding(crate::specs::Phases::first_length))]
pub fn first_length(mixed: bool, sums: Sums) -> u16
    ensures { result ≡ first_length mixed sums.ratios sums.lost }
{
    laws::first_in(1..NO_CYCLE as usize, |t| long_enough(mixed, sums, t as u16)) as u16
}
