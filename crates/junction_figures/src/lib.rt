// The annex's figures of a junction that was read. Streams are named by their numbers, from 1.
#![tactic(auto)]

ghost use Rattle.std.specs.Prelude.{◌≡◌, ◌&&◌, eqb};
ghost use Rattle.junction_figures.specs.Figures.{entry_at, pair_entry, shares_at, first_shared, shares_zone, unchecked as unchecked_pair, stream_need, stream_flow, stream_day, kind_saturation, stream_saturation, stream_ratio};

use junction::{Junction, Zone};
use streams::{Kind, Stream};

// The entry from stream n to stream m, the largest over the zones of the pair; 0 where they share none.
#[tactic(auto, using(laws::proofs::Largest::largest_none, laws::proofs::Largest::largest_next), unfolding(junction_places::specs::Places::zone_at, crate::specs::Figures::zone_entry, crate::specs::Figures::pair_entry))]
pub fn pair_entry(j: Junction, n: usize, m: usize) -> u16
    ensures { result ≡ pair_entry j n m }
{
    let zones = j.held.zones;
    let from = junction_places::stream_numbered(j, n);
    let to = junction_places::stream_numbered(j, m);
    let mut most: u16 = 0;
    for i in 0..zones {
        let z = j
            .zones
            .get(i)
            .copied()
            .unwrap_or(junction_places::no_zone());
        most = most.max(entry_at(n, m, from, to, z));
    }
    most
}

// That at one zone; 0 at a zone of other streams.
#[tactic(auto, unfolding(crate::specs::Figures::forward, crate::specs::Figures::backward))]
fn entry_at(n: usize, m: usize, from: Stream, to: Stream, z: Zone) -> u16
    ensures { result ≡ entry_at n m from to z }
{
    if joins(n, m, z.a.stream, z.b.stream) {
        times::entry(from, to, z.a.clearing, z.b.reaching)
    } else if joins(n, m, z.b.stream, z.a.stream) {
        times::entry(from, to, z.b.clearing, z.a.reaching)
    } else {
        0
    }
}

// Whether x and y, the streams of a zone in one order or the other, are n and m.
fn joins(n: usize, m: usize, x: u8, y: u8) -> bool
    ensures { result ≡ (eqb x n && eqb y m) }
{
    (x as usize == n) & (y as usize == m)
}

// Whether streams n and m share a zone.
#[tactic(auto, unfolding(crate::specs::Figures::shares_zone))]
pub fn shares_zone(j: Junction, n: usize, m: usize) -> bool
    ensures { result ≡ shares_zone j n m }
{
    first_shared(j, n, m) < j.held.zones
}

// Whether two streams are in different phases and share no zone, so that their greens are not compared.
#[tactic(auto, unfolding(crate::specs::Figures::unchecked))]
pub fn unchecked(j: Junction, n: usize, m: usize) -> bool
    ensures { result ≡ unchecked_pair j n m }
{
    let first = junction_places::stream_numbered(j, n);
    let second = junction_places::stream_numbered(j, m);
    (first.phase != second.phase) & !shares_zone(j, n, m)
}

#[tactic(auto, unfolding(crate::specs::Figures::first_shared))]
fn first_shared(j: Junction, n: usize, m: usize) -> usize
    ensures { result ≡ first_shared j n m }
{
    laws::first_in(0..j.held.zones, |i| shares_at(j, n, m, i))
}

#[tactic(auto, unfolding(crate::specs::Figures::shares_at, crate::specs::Figures::forward, crate::specs::Figures::backward))]
fn shares_at(j: Junction, n: usize, m: usize, i: usize) -> bool
    ensures { result ≡ shares_at j n m i }
{
    let z = junction_places::zone_at(j, i);
    joins(n, m, z.a.stream, z.b.stream) | joins(n, m, z.b.stream, z.a.stream)
}

// The needed green of stream n at a cycle.
#[tactic(auto, unfolding(crate::specs::Figures::stream_need))]
pub fn stream_need(j: Junction, n: usize, cycle: u16) -> u32
    ensures { result ≡ stream_need j n cycle }
{
    flows::need(junction_places::stream_numbered(j, n), cycle)
}

// The flow of car stream n in E/h: of the counts of the period that is planned, the one with the greatest count day not after the design day, of
// equals the larger; 0 without one.
#[tactic(auto, unfolding(crate::specs::Figures::stream_flow))]
pub fn stream_flow(j: Junction, n: usize) -> u16
    ensures { result ≡ stream_flow j n }
{
    counts::flow(junction_places::newest_rank(j, n))
}

// The day of the count that gives car stream n its flow, 0 without one.
#[tactic(auto, unfolding(crate::specs::Figures::stream_day))]
pub fn stream_day(j: Junction, n: usize) -> u16
    ensures { result ≡ stream_day j n }
{
    counts::day(junction_places::newest_rank(j, n))
}

// The saturation flow of car stream n in E/h, 0 for another kind.
#[tactic(auto, unfolding(crate::specs::Figures::stream_saturation))]
pub fn stream_saturation(j: Junction, n: usize) -> u32
    ensures { result ≡ stream_saturation j n }
{
    saturation(junction_places::stream_numbered(j, n))
}

// That of a stream.
pub fn saturation(s: Stream) -> u32
    ensures { result ≡ kind_saturation s.kind }
{
    match s.kind {
        Kind::Car(c) => flows::saturation_flow(c),
        _ => 0,
    }
}

// The flow ratio of car stream n in ten-thousandths.
#[tactic(auto, unfolding(crate::specs::Figures::stream_ratio))]
pub fn stream_ratio(j: Junction, n: usize) -> u32
    ensures { result ≡ stream_ratio j n }
{
    flows::flow_ratio(stream_flow(j, n), stream_saturation(j, n))
}
