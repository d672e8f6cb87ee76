// The questions of a junction file, 3 to 9 (document 01, "Questions in order").
#![tactic(auto)]

ghost use Rattle.std.specs.Prelude.{◌&&◌, ◌≡◌, cond, eqb, get_or, ltb};
ghost use Rattle.limits.specs.Limits.{most_streams};
ghost use Rattle.junction_places.specs.Blank.{no_stream};
ghost use Rattle.junction_questions.specs.Questions.{in_order, length_right, in_range, within_limit, car_refers, count_refers, refers as refers_to, body_verdict, first_in_phase, phases_right, first_car, first_lacking, counts_verdict, whole, whole_verdict};
ghost use Rattle.streams.specs.Kinds.{is_car};
ghost use Rattle.junction_questions.specs.lemmas.Parts.{of_streams};

use fields::{Refusal, ask};
use junction::{Held, Junction};
use limits::{MOST_COUNTS, MOST_STREAMS, MOST_ZONES};
use streams::Stream;

// Questions 3 to 7 of a field that fits, with its tag, its body and its place: held is what the junction has before it, first and second are
// the streams that the body's first two bytes name.
// The tag stays a number: the answer is promised for every byte, also for one that is no tag.
#[tactic(auto, unfolding(crate::specs::Questions::body_verdict))]
pub fn body_verdict(
    tag: u8,
    b: &[u8],
    at: usize,
    held: Held,
    first: Stream,
    second: Stream,
) -> Result<(), Refusal>
    ensures { result ≡ body_verdict tag b.now at held first second }
{
    ask(in_order(held.last, tag), 3, at)?;
    ask(length_right(tag, b), 4, at)?;
    ask(in_range(tag, b), 5, at)?;
    ask(within_limit(tag, held), 6, at)?;
    ask(refers(tag, held.streams, b, first, second), 7, at)
}

#[tactic(auto, unfolding(crate::specs::Questions::in_order))]
fn in_order(last: u8, tag: u8) -> bool
    ensures { result ≡ in_order last tag }
{
    if last == 0 {
        tag == 1
    } else {
        (2 <= tag) & (tag <= 4) & (last <= tag)
    }
}

#[tactic(auto, unfolding(crate::specs::Questions::length_right))]
fn length_right(tag: u8, b: &[u8]) -> bool
    ensures { result ≡ length_right tag b.now }
{
    match tag {
        1 => b.len() == 5,
        2 => junction::stream_length_right(b),
        3 => b.len() == 10,
        _ => b.len() == 8,
    }
}

#[tactic(auto, unfolding(crate::specs::Questions::in_range))]
fn in_range(tag: u8, b: &[u8]) -> bool
    ensures { result ≡ in_range tag b.now }
{
    match tag {
        1 => junction::heading_in_range(b),
        2 => junction::stream_in_range(b),
        3 => junction::zone_in_range(b),
        _ => junction::count_in_range(b),
    }
}

#[tactic(auto, unfolding(crate::specs::Questions::within_limit))]
fn within_limit(tag: u8, held: Held) -> bool
    ensures { result ≡ within_limit tag held }
{
    match tag {
        1 => true,
        2 => held.streams < MOST_STREAMS,
        3 => held.zones < MOST_ZONES,
        _ => held.counts < MOST_COUNTS,
    }
}

#[tactic(auto, unfolding(crate::specs::Questions::refers, crate::specs::Questions::zone_refers))]
fn refers(tag: u8, streams: usize, b: &[u8], first: Stream, second: Stream) -> bool
    ensures { result ≡ refers_to tag streams b.now first second }
{
    let x = fields::byte(b, 0);
    match tag {
        1 | 2 => true,
        3 => {
            let y = fields::byte(b, 1);
            junction_places::numbered(streams, x as usize)
                & junction_places::numbered(streams, y as usize)
                & (x < y)
                & (first.phase != second.phase)
        }
        _ => refers_to_car(streams, x as usize, first),
    }
}

// Whether a number of so many streams, that of this one, is that of a car.
#[tactic(auto, unfolding(crate::specs::Questions::car_refers))]
fn refers_to_car(streams: usize, n: usize, first: Stream) -> bool
    ensures { result ≡ car_refers streams n first }
{
    junction_places::numbered(streams, n) & streams::is_car(first)
}

// Whether a number is that of a car stream.
#[tactic(auto, unfolding(crate::specs::Questions::count_refers))]
pub fn count_refers(j: Junction, n: usize) -> bool
    ensures { result ≡ count_refers j n }
{
    refers_to_car(j.held.streams, n, junction_places::stream_numbered(j, n))
}

// Question 8, place the file length, and 9, place the stream's number.
#[tactic(auto, unfolding(crate::specs::Questions::whole_verdict))]
pub fn whole_verdict(size: usize, j: Junction) -> Result<(), Refusal>
    ensures { result ≡ whole_verdict size j }
{
    ask(whole(j), 8, size)?;
    counts_verdict(j)
}

// Whether a heading is present, phases 1 to some 2 or more are all used, and a car is present.
#[tactic(auto, using(crate::specs::lemmas::Parts::phases_of_streams, crate::specs::lemmas::Parts::car_of_streams), unfolding(crate::specs::Questions::whole))]
fn whole(j: Junction) -> bool
    ensures { result ≡ whole j }
{
    let n = j.held.streams;
    (j.held.last != 0) & phases_right(n, &j.streams) & (first_car(n, &j.streams) < n)
}

#[tactic(auto, unfolding(crate::specs::Questions::counts_verdict))]
fn counts_verdict(j: Junction) -> Result<(), Refusal>
    ensures { result ≡ counts_verdict j }
{
    let n = j.held.streams;
    let lacking = first_lacking(j);
    if n <= lacking {
        return Ok(());
    }
    Err(Refusal {
        number: 9,
        place: lacking + 1,
    })
}

#[tactic(auto, unfolding(crate::specs::Questions::phases_right, crate::specs::Questions::phase_follows, crate::specs::Questions::phase_used))]
fn phases_right(n: usize, streams: &[Stream; MOST_STREAMS]) -> bool
    ensures { result ≡ phases_right (of_streams n streams.now) }
{
    let one = first_in_phase(n, streams, 1) < n;
    let two = first_in_phase(n, streams, 2) < n;
    let three = first_in_phase(n, streams, 3) < n;
    let four = first_in_phase(n, streams, 4) < n;
    let five = first_in_phase(n, streams, 5) < n;
    let six = first_in_phase(n, streams, 6) < n;
    one & two & (!three | two) & (!four | three) & (!five | four) & (!six | five)
}

#[tactic(auto, unfolding(crate::specs::Questions::first_in_phase, junction_places::specs::Places::stream_at, crate::specs::Questions::in_phase))]
fn first_in_phase(n: usize, streams: &[Stream; MOST_STREAMS], p: u8) -> usize
    ensures { result ≡ first_in_phase (of_streams n streams.now) p }
{
    laws::first_in(0..n, |i| stream_in(streams, i).phase == p)
}

#[tactic(auto, unfolding(crate::specs::Questions::first_car, junction_places::specs::Places::stream_at, crate::specs::Questions::car_at))]
fn first_car(n: usize, streams: &[Stream; MOST_STREAMS]) -> usize
    ensures { result ≡ first_car (of_streams n streams.now) }
{
    laws::first_in(0..n, |i| streams::is_car(stream_in(streams, i)))
}

// The first place of a car without a usable count in the period. A place past the numbers of one byte, which no file has, asks the counts again.
#[tactic(auto, unfolding(crate::specs::Questions::first_lacking, junction_places::specs::Places::stream_at, crate::specs::Questions::lacks_count, crate::specs::Questions::car_at))]
fn first_lacking(j: Junction) -> usize
    ensures { result ≡ first_lacking j }
{
    let ranks = junction_places::newest_ranks(j);
    laws::first_in(0..j.held.streams, |i| {
        let rank = if i < 255 {
            ranks[i + 1]
        } else {
            junction_places::newest_rank(j, i + 1)
        };
        lacks_count(stream_in(&j.streams, i), rank)
    })
}

// The stream at a place, from 0; an empty place past the sixteenth.
fn stream_in(streams: &[Stream; MOST_STREAMS], i: usize) -> Stream
    ensures { result ≡ cond (ltb i most_streams) (get_or streams.now i no_stream) no_stream }
{
    if i < MOST_STREAMS {
        streams[i]
    } else {
        junction_places::no_stream()
    }
}

fn lacks_count(s: Stream, rank: u32) -> bool
    ensures { result ≡ (is_car s.kind && eqb rank 0) }
{
    streams::is_car(s) & (rank == 0)
}
