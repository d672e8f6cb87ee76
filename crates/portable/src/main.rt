// Works out portable signals for road works: eight decimal numbers as arguments, the stretch in metres and the speed in km/h, then flow and
// saturation flow in E/h and the available waiting length in metres, of approach 1 and of approach 2. Prints the table's t and L in seconds, the cycle,
// then each approach's number, start and length in seconds; or the refusal. What fails is told on standard error.
#![tactic(auto)]

ghost use Rattle.std.specs.Prelude.{◌≤◌};

use console::{Decimal, Program};
use plan_text::{CycleLine, GreenLine};
use roadworks::{Approach, Timing};
use std::fmt;
use std::fmt::Display;

const WORDS: &str = "STRETCH SPEED FLOW S WAITING FLOW S WAITING
stretch and available waiting lengths in m, flows and saturation flows in E/h, approach 1 before approach 2;
speed in km/h: the mean speed of clearing cars, measured on the site or assumed by the annex";

// What is asked.
#[derive(Clone, Copy)]
struct Site {
    stretch: usize,
    speed: usize,
    first: Approach,
    second: Approach,
}

// The lines of a timing: the table's times, the cycle and both greens.
#[derive(Clone, Copy)]
struct TimingLines(Timing);

impl Display for TimingLines {
    fn fmt<W: fmt::Write>(&self, f: &mut fmt::Formatter<W>) -> fmt::Result {
        let TimingLines(timing) = *self;
        writeln!(f, "t {}", Decimal::tenths(timing.table.clearing.into()))?;
        writeln!(f, "L {}", Decimal::tenths(timing.table.lost.into()))?;
        write!(f, "{}", CycleLine(timing.cycle))?;
        for (number, green) in [(1, timing.greens.first), (2, timing.greens.second)] {
            write!(f, "{}", GreenLine { number, green })?;
        }
        Ok(())
    }
}

fn main(rt: HostRuntime) {
    let program = Program::new(&rt, "portable", WORDS);
    let Some(site) = site_arguments(program) else {
        program.usage();
        return;
    };
    match roadworks::work_out(site.stretch, site.speed, site.first, site.second) {
        Ok(timing) => program.print(TimingLines(timing)),
        Err(refusal) => program.print_line(refusal),
    }
}

// What the arguments ask, where they are eight numbers.
fn site_arguments(program: Program<'_>) -> Option<Site> {
    if program.has_argument(9) {
        return None;
    }
    Some(Site {
        stretch: program.number(1)?,
        speed: program.number(2)?,
        first: approach_arguments(program, 3)?,
        second: approach_arguments(program, 6)?,
    })
}

// The approach of argument i and the two after it.
fn approach_arguments(program: Program<'_>, i: usize) -> Option<Approach>
    requires { i ≤ 6 }
{
    Some(Approach {
        flow: program.number(i)?,
        saturation: program.number(i + 1)?,
        waiting: program.number(i + 2)?,
    })
}
