// Plan files: read whole, or refused by document 01's questions 11 to 13; and written.
#![tactic(auto)]

ghost use Rattle.std.specs.Prelude.{◌≡◌, ◌/◌, ◌%◌, ◌≤◌, ◌<◌, length};
ghost use Rattle.laws.specs.Filled.{filled};
ghost use Rattle.limits.specs.Limits.{most_streams};
ghost use Rattle.plan_file.specs.Plans.{no_green, no_plan, green_of, green_at, plan_of, due_verdict, cycle_in_range, cycle_expected};
ghost use Rattle.plan_file.specs.Plans.{cycle_verdict, green_expected, green_in_range, green_verdict, greens_from, plan_verdict};
ghost use Rattle.plan_file.specs.Writing.{plan_size, has_room, written};
ghost use Rattle.plan_file.specs.lemmas.Bytes.{cycle_byte, green_byte, plan_byte};

use fields::{Refusal, ask};
use limits::{MOST_SECONDS, MOST_STREAMS};

// A stream's green: where in the cycle it begins, and how long it lasts, in seconds.
#[derive(Clone, Copy)]
pub struct Green {
    pub start: u16,
    pub length: u16,
}

// The cycle in seconds, and the green of each stream.
// Stays an array of fixed room: the project has no heap.
#[derive(Clone, Copy)]
pub struct Plan {
    pub cycle: u16,
    pub greens: [Green; MOST_STREAMS],
}

// The verdict on a plan file for a junction with this many streams: no refusal, or the first of questions 11 to 13, field by field.
#[tactic(auto, unfolding(crate::specs::Plans::plan_verdict))]
pub fn verdict(file: &[u8], streams: usize) -> Result<(), Refusal>
    ensures { result ≡ plan_verdict file.now streams }
{
    cycle_verdict(file)?;
    greens_verdict(file, 5, streams)
}

// The questions of the fields from a place on: each that is not refused has eight bytes.
fn greens_verdict(file: &[u8], from: usize, streams: usize) -> Result<(), Refusal>
    requires { from ≤ length file.now }
    ensures { result ≡ greens_from streams file.now from 1 }
{
    let mut at = from;
    for i in 0..streams {
        green_verdict(file, at, i + 1)?;
        at += 8;
    }
    ask(file.len() <= at, 12, at)
}

#[tactic(auto, unfolding(crate::specs::Plans::cycle_verdict))]
fn cycle_verdict(file: &[u8]) -> Result<(), Refusal>
    ensures { result ≡ cycle_verdict file.now }
{
    due_verdict(
        file,
        0,
        cycle_expected(file),
        cycle_in_range(fields::number(file, 3)),
    )
}

// Whether a cycle is one that a plan may have, in seconds.
pub fn cycle_in_range(cycle: u16) -> bool
    ensures { result ≡ cycle_in_range cycle }
{
    (1..=MOST_SECONDS).contains(&cycle)
}

#[tactic(auto, unfolding(crate::specs::Plans::green_verdict))]
fn green_verdict(file: &[u8], at: usize, n: usize) -> Result<(), Refusal>
    requires { at ≤ length file.now }
    ensures { result ≡ green_verdict file.now at n }
{
    due_verdict(
        file,
        at,
        green_expected(file, at, n),
        green_in_range(file, at),
    )
}

#[tactic(auto, using(fields::specs::Bytes::fits_end), unfolding(crate::specs::Plans::due_verdict))]
fn due_verdict(file: &[u8], at: usize, expected: bool, in_range: bool) -> Result<(), Refusal>
    requires { at ≤ length file.now }
    ensures { result ≡ due_verdict file.now at expected in_range }
{
    ask(at < file.len(), 12, file.len())?;
    ask(fields::field_end(file, at) <= file.len(), 11, at)?;
    ask(expected, 12, at)?;
    ask(in_range, 13, at)
}

#[tactic(auto, unfolding(crate::specs::Plans::cycle_expected))]
fn cycle_expected(file: &[u8]) -> bool
    ensures { result ≡ cycle_expected file.now }
{
    (fields::byte(file, 0) == 0x11) & (fields::number(file, 1) == 2)
}

#[tactic(auto, unfolding(crate::specs::Plans::green_expected))]
fn green_expected(file: &[u8], at: usize, n: usize) -> bool
    requires { at ≤ length file.now }
    ensures { result ≡ green_expected file.now at n }
{
    (fields::byte(file, at) == 0x12)
        & (fields::number(file, at + 1) == 5)
        & (fields::byte(file, at + 3) as usize == n)
}

#[tactic(auto, unfolding(crate::specs::Plans::green_in_range))]
fn green_in_range(file: &[u8], at: usize) -> bool
    requires { at ≤ length file.now }
    ensures { result ≡ green_in_range file.now at }
{
    let cycle = fields::number(file, 3);
    let start = fields::number(file, at + 4);
    (start < cycle) & fields::number_in(file, at + 6, 1, cycle)
}

// The plan that a file says, to be used only where nothing is refused.
#[tactic(auto, unfolding(crate::specs::Plans::plan_of))]
pub fn plan_of(file: &[u8]) -> Plan
    ensures { result ≡ plan_of file.now }
{
    let mut plan = Plan {
        cycle: fields::number(file, 3),
        greens: [no_green(); MOST_STREAMS],
    };
    for i in 0..MOST_STREAMS {
        plan.greens[i] = green_at(file, i);
    }
    plan
}

#[tactic(auto, unfolding(crate::specs::Plans::green_at))]
fn green_at(file: &[u8], i: usize) -> Green
    requires { i ≤ most_streams }
    ensures { result ≡ green_at file.now i }
{
    let at = 5 + 8 * i;
    Green {
        start: fields::number(file, at + 4),
        length: fields::number(file, at + 6),
    }
}

// The green of the stream with a number, from 1; an empty one where no place has the number.
#[tactic(auto, unfolding(crate::specs::Plans::green_of))]
pub fn green_of(p: Plan, n: usize) -> Green
    ensures { result ≡ green_of p n }
{
    if n == 0 {
        return no_green();
    }
    if MOST_STREAMS < n {
        return no_green();
    }
    let i = n - 1;
    p.greens[i]
}

// What stands in an empty place.
pub fn no_green() -> Green
    ensures { result ≡ no_green }
{
    Green {
        start: 0,
        length: 0,
    }
}

// A plan that says nothing: no cycle, and no green.
pub fn no_plan() -> Plan
    ensures { result ≡ no_plan }
{
    Plan {
        cycle: 0,
        greens: [no_green(); MOST_STREAMS],
    }
}

// Writes the plan file for a junction with this many streams, at most 16, from the buffer's first byte on; later bytes are untouched.
// Where the buffer has no room for it, no byte is altered.
#[tactic(auto, unfolding(crate::specs::Writing::plan_size, crate::specs::Writing::written))]
pub fn write(p: Plan, streams: usize, out: &mut [u8])
    ensures { out.new ≡ written p streams out.old }
{
    if has_room(streams, out.len()) {
        write_bytes(p, plan_size(streams), out);
    }
}

fn write_bytes(p: Plan, size: usize, out: &mut [u8])
    requires room { size ≤ length out.old }
    requires few { size ≤ plan_size most_streams }
    ensures { out.new ≡ filled (plan_byte p) out.old size }
{
    for k in 0..size {
        out[k] = plan_byte(p, k);
    }
}

// Whether a buffer of this size holds the plan file of so many streams, at most 16.
#[tactic(auto, unfolding(crate::specs::Writing::has_room))]
pub fn has_room(streams: usize, size: usize) -> bool
    ensures { result ≡ has_room streams size }
{
    if MOST_STREAMS < streams {
        return false;
    }
    plan_size(streams) <= size
}

// How long the plan file of so many streams is.
#[tactic(auto, unfolding(crate::specs::Writing::plan_size))]
pub fn plan_size(streams: usize) -> usize
    requires { streams ≤ most_streams }
    ensures { result ≡ plan_size streams }
{
    5 + 8 * streams
}

// The byte at a place of the plan file: field 11 has 5 bytes, and each field 12 has 8.
#[tactic(auto, unfolding(crate::specs::lemmas::Bytes::plan_byte, crate::specs::Writing::plan_size))]
fn plan_byte(p: Plan, k: usize) -> u8
    requires { k < plan_size most_streams }
    ensures { result ≡ plan_byte p k }
{
    if k < 5 {
        return cycle_byte(p.cycle, k);
    }
    let n = (k - 5) / 8 + 1;
    green_byte(green_of(p, n), n, (k - 5) % 8)
}

#[tactic(auto, unfolding(crate::specs::lemmas::Bytes::cycle_byte, crate::specs::Writing::cycle_field))]
fn cycle_byte(cycle: u16, k: usize) -> u8
    requires { k < 5 }
    ensures { result ≡ cycle_byte cycle k }
{
    match k {
        0 => 0x11,
        1 => 0,
        2 => 2,
        3 => high(cycle),
        _ => low(cycle),
    }
}

#[tactic(auto, unfolding(crate::specs::lemmas::Bytes::green_byte, crate::specs::Writing::green_field))]
fn green_byte(g: Green, n: usize, k: usize) -> u8
    requires stream { n ≤ most_streams }
    requires place { k < 8 }
    ensures { result ≡ green_byte g n k }
{
    match k {
        0 => 0x12,
        1 => 0,
        2 => 5,
        3 => n as u8,
        4 => high(g.start),
        5 => low(g.start),
        6 => high(g.length),
        _ => low(g.length),
    }
}

// The two bytes of a number, the high one first in a file.
pub fn high(n: u16) -> u8
    ensures { result ≡ n / 256 }
{
    n.to_be_bytes()[0]
}

pub fn low(n: u16) -> u8
    ensures { result ≡ n % 256 }
{
    n.to_be_bytes()[1]
}
