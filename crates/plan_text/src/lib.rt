// What the programs `plan`, `shift` and `portable` print: a plan, which is also kept where a new file is named, and its lines.
#![tactic(auto)]

use console::Program;
use limits::MOST_STREAMS;
use plan_file::Green;
use std::fmt;
use std::fmt::Display;

// The line of a cycle.
#[derive(Clone, Copy)]
pub struct CycleLine(pub u16);

impl Display for CycleLine {
    fn fmt<W: fmt::Write>(&self, f: &mut fmt::Formatter<W>) -> fmt::Result {
        let CycleLine(cycle) = *self;
        writeln!(f, "cycle {cycle}")
    }
}

// The line of a green: the number of its stream or approach, its start and its length.
#[derive(Clone, Copy)]
pub struct GreenLine {
    pub number: usize,
    pub green: Green,
}

impl Display for GreenLine {
    fn fmt<W: fmt::Write>(&self, f: &mut fmt::Formatter<W>) -> fmt::Result {
        let GreenLine { number, green } = *self;
        writeln!(f, "{number} {} {}", green.start, green.length)
    }
}

// The lines of a plan file: its cycle, and the green of each stream.
#[derive(Clone, Copy)]
struct PlanLines<'a>(&'a [u8]);

impl Display for PlanLines<'_> {
    fn fmt<W: fmt::Write>(&self, f: &mut fmt::Formatter<W>) -> fmt::Result {
        let PlanLines(file) = *self;
        let plan = plan_file::plan_of(file);
        write!(f, "{}", CycleLine(plan.cycle))?;
        for number in 1..=streams(file) {
            let green = plan_file::green_of(plan, number);
            write!(f, "{}", GreenLine { number, green })?;
        }
        Ok(())
    }
}

// How many streams a plan file has: its cycle takes five bytes, a stream eight.
fn streams(file: &[u8]) -> usize {
    file.len().saturating_sub(5).div_ceil(8).min(MOST_STREAMS)
}

// Writes a plan file where argument i names a new file, then prints the plan.
pub fn tell_plan(program: Program<'_>, i: usize, plan: &[u8]) {
    if program.has_argument(i) && program.write_new(i, plan).is_none() {
        return;
    }
    program.print(PlanLines(plan));
}
