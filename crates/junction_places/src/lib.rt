// What stands at a place of a junction, from 0, or has a number, from 1, and the count that gives a stream its flow.
#![tactic(auto)]

ghost use Rattle.std.specs.Prelude.{◌≡◌, ℕ, ◌<◌, get_or, cond, ltb};
ghost use Rattle.limits.specs.Limits.{most_counts};
ghost use Rattle.junction_places.specs.Blank.{no_stream, no_count, no_zone};
ghost use Rattle.junction_places.specs.Places.{stream_at, zone_at, stream_numbered, numbered as numbered_in, exists as exists_in};
ghost use Rattle.junction_places.specs.Ranks.{newest_rank};

use counts::{Count, Wanted};
use junction::{Junction, Side, Zone};
use limits::{MOST_COUNTS, MOST_STREAMS, MOST_ZONES};
use streams::{CarFigures, Kind, Stream};

// Whether a number is that of one of so many streams.
#[tactic(auto, unfolding(crate::specs::Places::numbered))]
pub fn numbered(streams: usize, n: usize) -> bool
    ensures { result ≡ numbered_in streams n }
{
    (1..=streams).contains(&n)
}

// Whether a stream has a number.
#[tactic(auto, unfolding(crate::specs::Places::exists))]
pub fn exists(j: Junction, n: usize) -> bool
    ensures { result ≡ exists_in j n }
{
    numbered(j.held.streams, n)
}

// The stream with a number, from 1; an empty place where no stream has the number.
#[tactic(auto, unfolding(crate::specs::Places::stream_numbered))]
pub fn stream_numbered(j: Junction, n: usize) -> Stream
    ensures { result ≡ stream_numbered j n }
{
    if n == 0 {
        return no_stream();
    }
    stream_at(j, n - 1)
}

// The stream at a place, from 0; an empty place past the sixteenth.
// Stays a test and an index, as do zones and counts: by `.get(i).copied().unwrap_or(..)` the reading of a junction took 1.1 % more instructions,
// and no change may make it slower.
#[tactic(auto, unfolding(crate::specs::Places::stream_at))]
fn stream_at(j: Junction, i: usize) -> Stream
    ensures { result ≡ stream_at j i }
{
    if i < MOST_STREAMS {
        return j.streams[i];
    }
    no_stream()
}

// What stands in an empty place, which no field has filled: a car of phase 0 with all figures 0.
pub fn no_stream() -> Stream
    ensures { result ≡ no_stream }
{
    let car = CarFigures {
        amber: 0,
        flying: false,
        radius: 0,
        width: 0,
        rows: 0,
        gradient: 0,
        conditions: 0,
        left: 0,
        right: 0,
    };
    Stream {
        phase: 0,
        kind: Kind::Car(car),
    }
}

// What stands in an empty place for a count.
pub fn no_count() -> Count
    ensures { result ≡ no_count }
{
    Count {
        stream: 0,
        day: 0,
        flow: 0,
        period: 0,
    }
}

// The zone at a place, from 0; an empty place past the sixty-fourth.
#[tactic(auto, unfolding(crate::specs::Places::zone_at))]
pub fn zone_at(j: Junction, i: usize) -> Zone
    ensures { result ≡ zone_at j i }
{
    if i < MOST_ZONES {
        return j.zones[i];
    }
    no_zone()
}

// What stands in an empty place for a zone.
pub fn no_zone() -> Zone
    ensures { result ≡ no_zone }
{
    let side = Side {
        stream: 0,
        clearing: 0,
        reaching: 0,
    };
    Zone { a: side, b: side }
}

// The count at a place, from 0; an empty place past the last. The counts are lent, since passing the junction on for each would copy all of it.
fn count_at(counts: &[Count; MOST_COUNTS], i: usize) -> Count
    ensures { result ≡ cond (ltb i most_counts) (get_or counts.now i no_count) no_count }
{
    if i < MOST_COUNTS {
        return counts[i];
    }
    no_count()
}

// For each number of one byte the rank of the count that gives its stream the flow, by one pass over the counts.
#[tactic(auto, unfolding(crate::specs::Places::count_at, crate::specs::Ranks::rank_at, crate::specs::Ranks::newest_rank))]
pub fn newest_ranks(j: Junction) -> [u32; 256]
    ensures { (n : ℕ) → n < 256 → get_or result n 0 ≡ newest_rank j n }
{
    let mut ranks: [u32; 256] = [0; 256];
    for i in 0..j.held.counts {
        let c = count_at(&j.counts, i);
        let n = c.stream as usize;
        let wanted = Wanted {
            stream: n,
            day: j.day,
            period: j.period as usize,
        };
        ranks[n] = counts::newer(ranks[n], wanted, c);
    }
    ranks
}

// The rank of the count that gives the stream with a number its flow, 0 where none is usable.
#[tactic(auto, using(laws::proofs::Largest::largest_none, laws::proofs::Largest::largest_next), unfolding(crate::specs::Places::count_at, crate::specs::Ranks::rank_at, crate::specs::Ranks::newest_rank))]
pub fn newest_rank(j: Junction, n: usize) -> u32
    ensures { result ≡ newest_rank j n }
{
    let wanted = Wanted {
        stream: n,
        day: j.day,
        period: j.period as usize,
    };
    let mut best: u32 = 0;
    for i in 0..j.held.counts {
        best = counts::newer(best, wanted, count_at(&j.counts, i));
    }
    best
}
