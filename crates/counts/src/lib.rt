// The choice of a count (document 01: the greatest count day not after the design day; of equals, the larger flow; document 02, 2026-04: of the
// counts of one period).
#![tactic(auto)]

ghost use Rattle.std.specs.Prelude.{◌≡◌, max};
ghost use Rattle.counts.specs.Newest.{usable as is_usable, rank as rank_of, rank_day, rank_flow};

use limits::{GREATEST_FLOW, GREATEST_PERIOD, LEAST_FLOW, LEAST_PERIOD};

// A traffic count: the car stream's number, the day of the count, the flow in E/h, the period of the day.
#[derive(Clone, Copy, Debug, PartialEq, Eq)]
pub struct Count {
    pub stream: u8,
    pub day: u16,
    pub flow: u16,
    pub period: u8,
}

// What is asked for: a count of this car stream, not after this day, in this period. Each number is as wide as a caller can hand it in.
#[derive(Clone, Copy, Debug, PartialEq, Eq)]
pub struct Wanted {
    pub stream: usize,
    pub day: u16,
    pub period: usize,
}

// The larger of the rank so far and a count's. The rank of a usable count is its day times 65,536 plus its flow, and 0 of another; the
// rank so far is 0 where no usable count has come.
// Stays one number, with 0 for none: documents name `newer`, `day` and `flow`, whose clauses are of ranks as numbers.
pub fn newer(best: u32, w: Wanted, c: Count) -> u32
    ensures { result ≡ max best (rank_of w c) }
{
    best.max(rank(w, c))
}

#[tactic(auto, unfolding(crate::specs::Newest::rank))]
fn rank(w: Wanted, c: Count) -> u32
    ensures { result ≡ rank_of w c }
{
    if usable(w, c) {
        c.day as u32 * 65536 + c.flow as u32
    } else {
        0
    }
}

#[tactic(auto, unfolding(crate::specs::Newest::usable))]
fn usable(w: Wanted, c: Count) -> bool
    ensures { result ≡ is_usable w c }
{
    (c.stream as usize == w.stream)
        & (c.day <= w.day)
        & (c.period as usize == w.period)
        & (LEAST_PERIOD <= c.period)
        & (c.period <= GREATEST_PERIOD)
        & (LEAST_FLOW <= c.flow)
        & (c.flow <= GREATEST_FLOW)
}

// The day of the count with a rank, 0 where there is none.
#[tactic(auto, unfolding(crate::specs::Newest::rank_day))]
pub fn day(rank: u32) -> u16
    ensures { result ≡ rank_day rank }
{
    (rank / 65536) as u16
}

// The flow of the count with a rank, 0 where there is none.
#[tactic(auto, unfolding(crate::specs::Newest::rank_flow))]
pub fn flow(rank: u32) -> u16
    ensures { result ≡ rank_flow rank }
{
    (rank % 65536) as u16
}
