// Reads test cases on standard input, one a line, and prints the library's answer to each, to be read against the papers.
//
// A case is a word that says what is asked, a label, a colon and what is asked about; bytes are in hexadecimal, as crate `case_text` reads them.
//
//     read LABEL: BYTES         a junction file: `taken` with the numbers of streams, zones and counts, or `refused`, number and place
//     judge LABEL: BYTES        a plan file for the last junction file given: `accepted`, or `refused`, number and place
//     delay LABEL: STREAM BYTES a stream's number and a plan file for the last junction file given: `delay` or `saturation` with the value's 64
//                               bits, or `no red`, and the level of service; or `refused`, number and place
//     shift LABEL: OFFSET BYTES an offset and a plan file for the last junction file given: `shifted` and every byte of the lent file afterwards; or
//                               `refused`, number and place, then `kept` where every byte, in the file and behind it, is what it was before
//     plan LABEL: SIZE BYTES    a lent buffer's size and a junction file: the cycle, the lengths tried and the plan file's bytes, or `refused`,
//                               number and place; then `kept` where every other byte, in the buffer and behind it, is what it was before
//     portable LABEL: NUMBERS   a stretch, a speed, and flow, S and available waiting length of each approach: `t` and `L` in tenths, `cycle`, and
//                               number, start and length of each approach; or `refused`, number and place
//     junction: BYTES           gives the junction file for the plan files after it, and prints nothing
//
// The answer follows the line's text up to the colon. A case of another word is answered `not known`. An empty line and a line that begins
// with `#` are printed as they are.
#![tactic(auto)]

ghost use Rattle.std.specs.Prelude.{◌≡◌, ◌≤◌, length};

use case_text::{FILE_ROOM, Hex, print, print_bytes};
use delays::Told;
use junction::Junction;
use plan_file::Green;
use planner::WorkedOut;
use roadworks::{Approach, Timing};
use service_level::Service;
use std::fmt;
use std::fmt::Display;
use std::io::Read;

// What every byte of a lent buffer is before.
const BEFORE: u8 = 0xa5;

// The greatest number that a case gives.
const MOST_NUMBER: usize = 9999999999999999999;

// The cases have at most so many bytes.
const ROOM: usize = 1048576;

// A plan file's buffer has at most so many bytes.
const PLAN_ROOM: usize = 300;

// Whether every byte that is not an answer is what it was before.
#[derive(Clone, Copy)]
struct Kept(bool);

impl Display for Kept {
    fn fmt<W: fmt::Write>(&self, f: &mut fmt::Formatter<W>) -> fmt::Result {
        let Kept(kept) = *self;
        write!(f, "{}", if kept { "kept" } else { "spoilt" })
    }
}

// What is told of a car, with the 64 bits of the value.
#[derive(Clone, Copy)]
struct ServiceBits(Service);

impl Display for ServiceBits {
    fn fmt<W: fmt::Write>(&self, f: &mut fmt::Formatter<W>) -> fmt::Result {
        let ServiceBits(service) = *self;
        match service {
            Service::Delay(d) => write!(f, "delay {:016x}", bits(d)),
            Service::Oversaturated(u) => write!(f, "saturation {:016x}", bits(u)),
            Service::NoRed => write!(f, "no red"),
        }
    }
}

// The figures of a timing: the table's times in tenths, the cycle and both greens.
#[derive(Clone, Copy)]
struct TimingFigures(Timing);

impl Display for TimingFigures {
    fn fmt<W: fmt::Write>(&self, f: &mut fmt::Formatter<W>) -> fmt::Result {
        let TimingFigures(
            Timing {
                table,
                greens,
                cycle,
            },
        ) = *self;
        write!(f, "t {} L {} cycle {cycle}", table.clearing, table.lost)?;
        for (n, green) in [(1, greens.first), (2, greens.second)] {
            let Green { start, length } = green;
            write!(f, " {n} {start} {length}")?;
        }
        Ok(())
    }
}

fn main(rt: HostRuntime) {
    let mut room = room();
    answer_lines(&rt, read_cases(&rt, &mut room));
}

// Room for all cases.
// Stays a function: with so large an array in `main` the proof ran out of stack.
fn room() -> [u8; ROOM]
    ensures { 1048576 ≡ length result }
{
    [0; ROOM]
}

// Reads standard input as far as the buffer goes. A read that fails is the end.
// Stays a loop over a count: std has no method that fills a lent buffer as far as the input goes and answers how far that is.
fn read_cases<'a>(rt: &HostRuntime, room: &'a mut [u8]) -> &'a [u8]
    ensures { length result.now ≤ length room.old }
{
    let mut from = rt.stdin();
    let mut size = 0;
    while size < room.len() {
        let n = from.read(&mut room[size..]).unwrap_or(0);
        if n == 0 {
            break;
        }
        size += n;
    }
    &room[..size]
}

fn answer_lines(rt: &HostRuntime, text: &[u8]) {
    // The last line that gives a junction file.
    let mut junction: &[u8] = b"";
    for line in text.split_inclusive(|byte| *byte == b'\n') {
        let line = line.strip_suffix(b"\n").unwrap_or(line);
        if line.starts_with(b"junction:") {
            junction = line;
        } else {
            answer_line(rt, line, junction);
        }
    }
}

fn answer_line(rt: &HostRuntime, line: &[u8], junction: &[u8]) {
    if case_text::is_comment(line) {
        print_bytes(rt, line);
    } else {
        print_bytes(rt, case_text::head(line));
        answer(rt, line, junction);
    }
    print(rt, "\n");
}

fn answer(rt: &HostRuntime, line: &[u8], junction: &[u8]) {
    if line.starts_with(b"read ") {
        read(rt, line);
    } else if line.starts_with(b"judge ") {
        judge(rt, junction, line);
    } else if line.starts_with(b"delay ") {
        delay(rt, junction, line);
    } else if line.starts_with(b"shift ") {
        shift(rt, junction, line);
    } else if line.starts_with(b"plan ") {
        plan(rt, line);
    } else if line.starts_with(b"portable ") {
        portable(rt, line);
    } else {
        print(rt, " not known");
    }
}

fn read(rt: &HostRuntime, line: &[u8]) {
    let mut room = [0; FILE_ROOM];
    match junction_file::read(case_text::fill(line, &mut room)) {
        Ok(Junction { held, .. }) => print(
            rt,
            format_args!(" taken {} {} {}", held.streams, held.zones, held.counts),
        ),
        Err(refusal) => print(rt, format_args!(" {refusal}")),
    }
}

fn judge(rt: &HostRuntime, junction: &[u8], line: &[u8]) {
    let mut junction_room = [0; FILE_ROOM];
    let mut plan_room = [0; FILE_ROOM];
    let junction = case_text::fill(junction, &mut junction_room);
    let plan = case_text::fill(line, &mut plan_room);
    match plan_judge::judge(junction, plan) {
        Ok(()) => print(rt, " accepted"),
        Err(refusal) => print(rt, format_args!(" {refusal}")),
    }
}

fn delay(rt: &HostRuntime, junction: &[u8], line: &[u8]) {
    let mut junction_room = [0; FILE_ROOM];
    let mut plan_room = [0; FILE_ROOM];
    let junction = case_text::fill(junction, &mut junction_room);
    let plan = case_text::fill_after_number(line, &mut plan_room);
    match delays::delay(junction, plan, case_text::number(line, MOST_NUMBER)) {
        Ok(Told { service, level }) => {
            print(rt, format_args!(" {} {level}", ServiceBits(service)));
        }
        Err(refusal) => print(rt, format_args!(" {refusal}")),
    }
}

// The bits of a number that is not below 0; 0 for any other, which no answer has.
fn bits(x: f64) -> u64 {
    if x >= 0.0 { f64::to_bits(x) } else { 0 }
}

fn shift(rt: &HostRuntime, junction: &[u8], line: &[u8]) {
    let mut junction_room = [0; FILE_ROOM];
    let mut plan_room = [0; FILE_ROOM];
    let junction = case_text::fill(junction, &mut junction_room);
    let size = case_text::fill_after_number(line, &mut plan_room).len();
    let before = plan_room;
    match offsets::shift(
        junction,
        &mut plan_room[..size],
        case_text::number(line, MOST_NUMBER),
    ) {
        Ok(()) => print(rt, format_args!(" shifted {}", Hex(&plan_room[..size]))),
        Err(refusal) => print(rt, format_args!(" {refusal} {}", Kept(plan_room == before))),
    }
}

fn plan(rt: &HostRuntime, line: &[u8]) {
    let mut room = [0; FILE_ROOM];
    let junction = case_text::fill_after_number(line, &mut room);
    let mut out = [BEFORE; PLAN_ROOM];
    let lent = case_text::number(line, PLAN_ROOM);
    let answer = planner::work_out(junction, &mut out[..lent]);
    let size = match answer {
        Ok(WorkedOut { cycle, tried, size }) => {
            let size = size.min(PLAN_ROOM);
            print(
                rt,
                format_args!(" cycle {cycle} tried {tried} plan {}", Hex(&out[..size])),
            );
            size
        }
        Err(refusal) => {
            print(rt, format_args!(" {refusal}"));
            0
        }
    };
    let kept = out[size..].iter().all(|byte| *byte == BEFORE);
    print(rt, format_args!(" {}", Kept(kept)));
}

fn portable(rt: &HostRuntime, line: &[u8]) {
    match roadworks::work_out(
        case_text::number_at(line, 0),
        case_text::number_at(line, 1),
        approach(line, 2),
        approach(line, 5),
    ) {
        Ok(timing) => print(rt, format_args!(" {}", TimingFigures(timing))),
        Err(refusal) => print(rt, format_args!(" {refusal}")),
    }
}

// The approach of the numbers at a place and after it.
fn approach(line: &[u8], place: usize) -> Approach
    requires { place ≤ 5 }
{
    Approach {
        flow: case_text::number_at(line, place),
        saturation: case_text::number_at(line, place + 1),
        waiting: case_text::number_at(line, place + 2),
    }
}
