// Prints what is told of each car stream of an accepted plan: two file names as arguments, the junction's first. A line has the stream's number,
// then `delay` and the seconds, `saturation` and its value, or `no red`, and the level of service. Seconds are in tenths, rounded up, so that they
// and the level never contradict each other (tenths/proofs/Printed.antt); a saturation is rounded down. Where the plan is not accepted, the judge's
// refusal is printed. What fails is told on standard error.
#![tactic(auto)]

use console::{Decimal, JUNCTION_ROOM, PLAN_ROOM, Program};
use delays::Told;
use limits::MOST_STREAMS;
use service_level::Service;
use std::fmt;
use std::fmt::Display;
use tenths::TENTHS_END;

// What is told of the cars of an accepted plan: a line for each. A number that is refused is that of no car.
#[derive(Clone, Copy)]
struct CarLines<'a> {
    junction: &'a [u8],
    plan: &'a [u8],
}

impl Display for CarLines<'_> {
    fn fmt<W: fmt::Write>(&self, f: &mut fmt::Formatter<W>) -> fmt::Result {
        let CarLines { junction, plan } = *self;
        for n in 1..=MOST_STREAMS {
            if let Ok(Told { service, level }) = delays::delay(junction, plan, n) {
                writeln!(f, "{n} {} {level}", ServiceWords(service))?;
            }
        }
        Ok(())
    }
}

// The delay, the saturation, or that there is none.
#[derive(Clone, Copy)]
struct ServiceWords(Service);

impl Display for ServiceWords {
    fn fmt<W: fmt::Write>(&self, f: &mut fmt::Formatter<W>) -> fmt::Result {
        let ServiceWords(service) = *self;
        match service {
            Service::Delay(d) => write!(f, "delay {}", Seconds(tenths::tenths_up(d))),
            Service::Oversaturated(u) => {
                write!(
                    f,
                    "saturation {}",
                    Decimal::tenths(tenths::tenths_down(u).into())
                )
            }
            Service::NoRed => write!(f, "no red"),
        }
    }
}

// A delay in tenths of a second. More tenths than are told are told to be more.
#[derive(Clone, Copy)]
struct Seconds(u32);

impl Display for Seconds {
    fn fmt<W: fmt::Write>(&self, f: &mut fmt::Formatter<W>) -> fmt::Result {
        let Seconds(n) = *self;
        if n < TENTHS_END {
            write!(f, "{}", Decimal::tenths(n.into()))
        } else {
            write!(f, "over {}", Decimal::tenths((TENTHS_END - 1).into()))
        }
    }
}

fn main(rt: HostRuntime) {
    let program = Program::new(&rt, "delay", "JUNCTION-FILE PLAN-FILE");
    if !program.has_two_names() {
        return;
    }
    let mut junction = [0; JUNCTION_ROOM];
    let mut plan = [0; PLAN_ROOM];
    let Some((junction, plan)) = program.read_two(&mut junction, &mut plan) else {
        return;
    };
    match plan_judge::judge(junction, plan) {
        Ok(()) => program.print(CarLines { junction, plan }),
        Err(refusal) => program.print_line(refusal),
    }
}
