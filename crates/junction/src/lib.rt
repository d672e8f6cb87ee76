// A junction, and what the bodies of a junction file's fields say (document 01, "The junction file").
#![tactic(auto)]

ghost use Rattle.std.specs.Prelude.{◌≡◌};
ghost use Rattle.junction.specs.Layout.{design_day, planned_period, heading_in_range, radius_in_range, shares_in_range, car_in_range, car_of, tram_in_range, tram_of, pedestrian_in_range, walk_of, pedestrian_of, cyclist_in_range, cyclist_of, island_in_range, island_of, stream_length_right, stream_in_range, kind_of, stream_of, zone_in_range, zone_of, count_in_range, count_of};

use counts::Count;
use fields::{byte, byte_in, number, number_in};
use limits::{
    GREATEST_FLOW, GREATEST_PERIOD, LEAST_FLOW, LEAST_PERIOD, MOST_COUNTS, MOST_STREAMS, MOST_ZONES,
};
use streams::{
    CarFigures, CyclistFigures, IslandFigures, Kind, PedestrianFigures, Stream, TramFigures,
};

// One stream's side of a zone: the stream's number, from 1, and its distances in decimetres.
#[derive(Clone, Copy)]
pub struct Side {
    pub stream: u8,
    pub clearing: u16,
    pub reaching: u16,
}

// A conflict zone of two streams.
#[derive(Clone, Copy)]
pub struct Zone {
    pub a: Side,
    pub b: Side,
}

// How many of each a file has, and the tag of its last field so far, 0 before the first.
// The tag stays a number, 0 for none: the theorems of `FieldsRight` are stated of it.
#[derive(Clone, Copy)]
pub struct Held {
    pub last: u8,
    pub streams: usize,
    pub zones: usize,
    pub counts: usize,
}

// Stays numbers beside arrays of fixed room: the project has no heap.
#[derive(Clone, Copy)]
pub struct Junction {
    // The design day, and the period that is planned.
    pub day: u16,
    pub period: u8,
    pub held: Held,
    pub streams: [Stream; MOST_STREAMS],
    pub zones: [Zone; MOST_ZONES],
    pub counts: [Count; MOST_COUNTS],
}

// The design day of a heading's body.
#[tactic(auto, unfolding(crate::specs::Layout::design_day))]
pub fn design_day(b: &[u8]) -> u16
    ensures { result ≡ design_day b.now }
{
    number(b, 2)
}

// The period that a heading's body plans.
#[tactic(auto, unfolding(crate::specs::Layout::planned_period))]
pub fn planned_period(b: &[u8]) -> u8
    ensures { result ≡ planned_period b.now }
{
    byte(b, 4)
}

// Whether the period of a heading's body is in range.
#[tactic(auto, unfolding(crate::specs::Layout::heading_in_range))]
pub fn heading_in_range(b: &[u8]) -> bool
    ensures { result ≡ heading_in_range b.now }
{
    byte_in(b, 4, LEAST_PERIOD, GREATEST_PERIOD)
}

// Whether a stream's body is as long as its kind asks; that of an unknown kind is not judged.
#[tactic(auto, unfolding(crate::specs::Layout::stream_length_right))]
pub fn stream_length_right(b: &[u8]) -> bool
    ensures { result ≡ stream_length_right b.now }
{
    let n = b.len();
    if n == 0 {
        return false;
    }
    match byte(b, 0) {
        1 => n == 13,
        2 => n == 6,
        3 => n == 9,
        4 => n == 3,
        5 => n == 15,
        0 | 6.. => true,
    }
}

// Whether the kind of a stream's body is known and each of its numbers in range.
#[tactic(auto, unfolding(crate::specs::Layout::stream_in_range))]
pub fn stream_in_range(b: &[u8]) -> bool
    ensures { result ≡ stream_in_range b.now }
{
    match byte(b, 0) {
        1 => car_in_range(b),
        2 => tram_in_range(b),
        3 => pedestrian_in_range(b),
        4 => cyclist_in_range(b),
        5 => island_in_range(b),
        0 | 6.. => false,
    }
}

// The stream of a body, read as a cyclist's where the kind is unknown.
#[tactic(auto, unfolding(crate::specs::Layout::stream_of))]
pub fn stream_of(b: &[u8]) -> Stream
    ensures { result ≡ stream_of b.now }
{
    Stream {
        phase: byte(b, 1),
        kind: kind_of(b),
    }
}

#[tactic(auto, unfolding(crate::specs::Layout::kind_of))]
fn kind_of(b: &[u8]) -> Kind
    ensures { result ≡ kind_of b.now }
{
    match byte(b, 0) {
        1 => car_of(b),
        2 => tram_of(b),
        3 => pedestrian_of(b),
        4 => cyclist_of(b),
        5 => island_of(b),
        0 | 6.. => cyclist_of(b),
    }
}

#[tactic(auto, unfolding(crate::specs::Layout::car_in_range))]
fn car_in_range(b: &[u8]) -> bool
    ensures { result ≡ car_in_range b.now }
{
    byte_in(b, 1, 1, 6)
        & byte_in(b, 2, 3, 5)
        & byte_in(b, 3, 0, 1)
        & radius_in_range(b)
        & number_in(b, 6, 300, 1500)
        & byte_in(b, 8, 1, 2)
        & byte_in(b, 9, 0, 20)
        & byte_in(b, 10, 1, 3)
        & shares_in_range(b)
}

#[tactic(auto, unfolding(crate::specs::Layout::radius_in_range))]
fn radius_in_range(b: &[u8]) -> bool
    ensures { result ≡ radius_in_range b.now }
{
    (number(b, 4) == 0) | number_in(b, 4, 30, 9999)
}

#[tactic(auto, unfolding(crate::specs::Layout::shares_in_range))]
fn shares_in_range(b: &[u8]) -> bool
    ensures { result ≡ shares_in_range b.now }
{
    let sum = byte(b, 11) as u16 + byte(b, 12) as u16;
    (sum <= 100) & ((number(b, 4) == 0) | (sum == 0))
}

#[tactic(auto, unfolding(crate::specs::Layout::car_of))]
fn car_of(b: &[u8]) -> Kind
    ensures { result ≡ car_of b.now }
{
    Kind::Car(CarFigures {
        amber: byte(b, 2),
        flying: byte(b, 3) == 1,
        radius: number(b, 4),
        width: number(b, 6),
        rows: byte(b, 8),
        gradient: byte(b, 9),
        conditions: byte(b, 10),
        left: byte(b, 11),
        right: byte(b, 12),
    })
}

#[tactic(auto, unfolding(crate::specs::Layout::tram_in_range))]
fn tram_in_range(b: &[u8]) -> bool
    ensures { result ≡ tram_in_range b.now }
{
    byte_in(b, 1, 1, 6) & byte_in(b, 2, 0, 1) & number_in(b, 3, 100, 600) & byte_in(b, 5, 1, 34)
}

#[tactic(auto, unfolding(crate::specs::Layout::tram_of))]
fn tram_of(b: &[u8]) -> Kind
    ensures { result ≡ tram_of b.now }
{
    Kind::Tram(TramFigures {
        stop: byte(b, 2) == 1,
        length: number(b, 3),
        hourly: byte(b, 5),
    })
}

#[tactic(auto, unfolding(crate::specs::Layout::pedestrian_in_range))]
fn pedestrian_in_range(b: &[u8]) -> bool
    ensures { result ≡ pedestrian_in_range b.now }
{
    byte_in(b, 1, 1, 6)
        & byte_in(b, 2, 12, 15)
        & number_in(b, 3, 10, 600)
        & number_in(b, 5, 0, 9999)
        & byte_in(b, 7, 0, 1)
        & byte_in(b, 8, 0, 1)
}

#[tactic(auto, unfolding(crate::specs::Layout::pedestrian_of))]
fn pedestrian_of(b: &[u8]) -> Kind
    ensures { result ≡ pedestrian_of b.now }
{
    Kind::Pedestrian(walk_of(b))
}

// The figures that kinds 3 and 5 have.
#[tactic(auto, unfolding(crate::specs::Layout::walk_of))]
fn walk_of(b: &[u8]) -> PedestrianFigures
    ensures { result ≡ walk_of b.now }
{
    PedestrianFigures {
        speed: byte(b, 2),
        crossing: number(b, 3),
        hourly: number(b, 5),
        counted: byte(b, 7) == 1,
        disturbed: byte(b, 8) == 1,
    }
}

#[tactic(auto, unfolding(crate::specs::Layout::cyclist_in_range))]
fn cyclist_in_range(b: &[u8]) -> bool
    ensures { result ≡ cyclist_in_range b.now }
{
    byte_in(b, 1, 1, 6) & byte_in(b, 2, 0, 1)
}

#[tactic(auto, unfolding(crate::specs::Layout::cyclist_of))]
fn cyclist_of(b: &[u8]) -> Kind
    ensures { result ≡ cyclist_of b.now }
{
    Kind::Cyclist(CyclistFigures {
        counted: byte(b, 2) == 1,
    })
}

#[tactic(auto, unfolding(crate::specs::Layout::island_in_range))]
fn island_in_range(b: &[u8]) -> bool
    ensures { result ≡ island_in_range b.now }
{
    pedestrian_in_range(b)
        & number_in(b, 9, 10, 600)
        & number_in(b, 11, 10, 600)
        & number_in(b, 13, 20, 200)
        & (number(b, 13) % 5 == 0)
}

#[tactic(auto, unfolding(crate::specs::Layout::island_of))]
fn island_of(b: &[u8]) -> Kind
    ensures { result ≡ island_of b.now }
{
    Kind::Island(IslandFigures {
        walk: walk_of(b),
        wider: number(b, 9),
        island: number(b, 11),
        packet: number(b, 13),
    })
}

// Whether each distance of a zone's body is in range.
#[tactic(auto, unfolding(crate::specs::Layout::zone_in_range))]
pub fn zone_in_range(b: &[u8]) -> bool
    ensures { result ≡ zone_in_range b.now }
{
    number_in(b, 2, 0, 999)
        & number_in(b, 4, 0, 999)
        & number_in(b, 6, 0, 999)
        & number_in(b, 8, 0, 999)
}

// The zone of a body.
#[tactic(auto, unfolding(crate::specs::Layout::zone_of))]
pub fn zone_of(b: &[u8]) -> Zone
    ensures { result ≡ zone_of b.now }
{
    Zone {
        a: Side {
            stream: byte(b, 0),
            clearing: number(b, 2),
            reaching: number(b, 4),
        },
        b: Side {
            stream: byte(b, 1),
            clearing: number(b, 6),
            reaching: number(b, 8),
        },
    }
}

// Whether flow and period of a count's body are in range.
#[tactic(auto, unfolding(crate::specs::Layout::count_in_range))]
pub fn count_in_range(b: &[u8]) -> bool
    ensures { result ≡ count_in_range b.now }
{
    number_in(b, 5, LEAST_FLOW, GREATEST_FLOW) & byte_in(b, 7, LEAST_PERIOD, GREATEST_PERIOD)
}

// The count of a body; its file day is not kept.
#[tactic(auto, unfolding(crate::specs::Layout::count_of))]
pub fn count_of(b: &[u8]) -> Count
    ensures { result ≡ count_of b.now }
{
    Count {
        stream: byte(b, 0),
        day: number(b, 1),
        flow: number(b, 5),
        period: byte(b, 7),
    }
}
