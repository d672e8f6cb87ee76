// Reads a junction file: a junction, or the first refusal of document 01's questions 1 to 9.
#![tactic(auto)]

ghost use Rattle.junction_file.specs.Taken.{Taken};
ghost use Rattle.std.specs.Prelude.{◌≡◌, true, length, IfOk};
ghost use Rattle.junction_places.specs.Blank.{blank as blank_of};
ghost use Rattle.junction_places.specs.Places.{stream_numbered};
ghost use Rattle.junction_questions.specs.Questions.{within_limit};
ghost use Rattle.junction_file.specs.Reading.{with_field, read_from, reading, taken_or_refused};

use fields::{Refusal, ask};
use junction::{Held, Junction};
use junction_places::no_stream;
use limits::{MOST_BYTES, MOST_COUNTS, MOST_STREAMS, MOST_ZONES};
use streams::Stream;

// The answer to every sequence of bytes: a junction, or the first refusal with its number and place.
#[tactic(auto, unfolding(crate::specs::Reading::reading))]
pub fn read(file: &[u8]) -> Result<Junction, Refusal>
    ensures answer { result ≡ taken_or_refused (reading file.now) }
    ensures taken { IfOk result Taken }
{
    ask(file.len() <= MOST_BYTES, 1, 0)?;
    read_fields(file)
}

fn read_fields(file: &[u8]) -> Result<Junction, Refusal>
    ensures { result ≡ taken_or_refused (read_from (length file.now) file.now 0 blank_of) }
{
    let mut at: usize = 0;
    let mut j = blank();
    // Stays a while: each field says where the next one begins.
    while at < file.len() {
        let end = fields::field_end(file, at);
        ask(end <= file.len(), 2, at)?;
        let tag = file[at];
        let body = &file[at + 3..end];
        let first = stream_named(&j, fields::byte(body, 0));
        let second = stream_named(&j, fields::byte(body, 1));
        junction_questions::body_verdict(tag, body, at, j.held, first, second)?;
        add_field(&mut j, tag, body);
        at = end;
    }
    junction_questions::whole_verdict(file.len(), j)?;
    Ok(j)
}

// The stream with a number; an empty place where no stream has it.
#[tactic(auto, unfolding(junction_places::specs::Places::stream_numbered, junction_places::specs::Places::stream_at))]
fn stream_named(j: &Junction, n: u8) -> Stream
    ensures { result ≡ stream_numbered j.now n }
{
    let n = n as usize;
    if (1..=MOST_STREAMS).contains(&n) {
        j.streams[n - 1]
    } else {
        no_stream()
    }
}

// Adds what a field says, by its tag.
#[tactic(auto, unfolding(junction_questions::specs::Questions::within_limit, crate::specs::Reading::with_field, crate::specs::Reading::with_heading, crate::specs::Reading::with_stream, crate::specs::Reading::with_zone, crate::specs::Reading::with_count))]
fn add_field(j: &mut Junction, tag: u8, body: &[u8])
    requires { within_limit tag j.old.held ≡ true }
    ensures { j.new ≡ with_field tag body.now j.old }
{
    match tag {
        1 => {
            j.held.last = 1;
            j.day = junction::design_day(body);
            j.period = junction::planned_period(body);
        }
        2 => {
            j.held.last = 2;
            j.streams[j.held.streams] = junction::stream_of(body);
            j.held.streams += 1;
        }
        3 => {
            j.held.last = 3;
            j.zones[j.held.zones] = junction::zone_of(body);
            j.held.zones += 1;
        }
        _ => {
            j.held.last = 4;
            j.counts[j.held.counts] = junction::count_of(body);
            j.held.counts += 1;
        }
    }
}

fn blank() -> Junction
    ensures { result ≡ blank_of }
{
    let stream = no_stream();
    let zone = junction_places::no_zone();
    let count = junction_places::no_count();
    Junction {
        day: 0,
        period: 0,
        held: Held {
            last: 0,
            streams: 0,
            zones: 0,
            counts: 0,
        },
        streams: [stream; MOST_STREAMS],
        zones: [zone; MOST_ZONES],
        counts: [count; MOST_COUNTS],
    }
}
