// Prints a junction file's matrix of intergreen times, the pairs that are not checked, and each stream's figures; or the refusal. The file is
// named by the argument, or is standard input. What fails is told on standard error.
#![tactic(auto)]

use console::{Decimal, JUNCTION_ROOM, Program};
use dates::Date;
use junction::Junction;
use limits::MOST_SECONDS;
use std::fmt;
use std::fmt::Display;
use streams::Kind;

const TITLE: &str =
    "Intergreen times in s, from the stream that clears (down) to the stream that starts (across); . same phase, - not checked";

// What is printed of a junction.
#[derive(Clone, Copy)]
struct Figures<'a>(&'a Junction);

impl Display for Figures<'_> {
    fn fmt<W: fmt::Write>(&self, f: &mut fmt::Formatter<W>) -> fmt::Result {
        let Figures(junction) = *self;
        writeln!(f, "{TITLE}")?;
        write!(f, "{}", Matrix(junction))?;
        writeln!(
            f,
            "not checked, in different phases without a zone:{}",
            Unchecked(junction)
        )?;
        writeln!(f)?;
        writeln!(
            f,
            "Streams, with flows counted in period {}",
            junction.period
        )?;
        for number in 1..=junction.held.streams {
            writeln!(f, "{}", StreamLine { junction, number })?;
        }
        Ok(())
    }
}

// The matrix: the streams' numbers, then a row from each stream.
#[derive(Clone, Copy)]
struct Matrix<'a>(&'a Junction);

impl Display for Matrix<'_> {
    fn fmt<W: fmt::Write>(&self, f: &mut fmt::Formatter<W>) -> fmt::Result {
        let Matrix(junction) = *self;
        write!(f, "     ")?;
        for to in 1..=junction.held.streams {
            write!(f, "{to:5}")?;
        }
        writeln!(f)?;
        for from in 1..=junction.held.streams {
            writeln!(f, "{}", Row { junction, from })?;
        }
        Ok(())
    }
}

// The row from a stream to each.
#[derive(Clone, Copy)]
struct Row<'a> {
    junction: &'a Junction,
    from: usize,
}

impl Display for Row<'_> {
    fn fmt<W: fmt::Write>(&self, f: &mut fmt::Formatter<W>) -> fmt::Result {
        let Row { junction, from } = *self;
        write!(f, "{from:5}")?;
        for to in 1..=junction.held.streams {
            write!(f, "{}", Cell { junction, from, to })?;
        }
        Ok(())
    }
}

// The intergreen time from a stream to another; or what there is in its place.
#[derive(Clone, Copy)]
struct Cell<'a> {
    junction: &'a Junction,
    from: usize,
    to: usize,
}

impl Display for Cell<'_> {
    fn fmt<W: fmt::Write>(&self, f: &mut fmt::Formatter<W>) -> fmt::Result {
        let Cell { junction, from, to } = *self;
        if junction_figures::shares_zone(*junction, from, to) {
            write!(f, "{:5}", junction_figures::pair_entry(*junction, from, to))
        } else if junction_figures::unchecked(*junction, from, to) {
            write!(f, "    -")
        } else {
            write!(f, "    .")
        }
    }
}

// The pairs that are not checked, each once.
#[derive(Clone, Copy)]
struct Unchecked<'a>(&'a Junction);

impl Display for Unchecked<'_> {
    fn fmt<W: fmt::Write>(&self, f: &mut fmt::Formatter<W>) -> fmt::Result {
        let Unchecked(junction) = *self;
        let mut none = true;
        for from in 1..=junction.held.streams {
            for to in 1..=junction.held.streams {
                if from < to && junction_figures::unchecked(*junction, from, to) {
                    write!(f, " {from}-{to}")?;
                    none = false;
                }
            }
        }
        if none { write!(f, " none") } else { Ok(()) }
    }
}

// The figures of a stream.
#[derive(Clone, Copy)]
struct StreamLine<'a> {
    junction: &'a Junction,
    number: usize,
}

impl Display for StreamLine<'_> {
    fn fmt<W: fmt::Write>(&self, f: &mut fmt::Formatter<W>) -> fmt::Result {
        let StreamLine { junction, number } = *self;
        let stream = junction_places::stream_numbered(*junction, number);
        let need = |cycle| junction_figures::stream_need(*junction, number, cycle);
        write!(
            f,
            "{number:5}  phase {}  {:<12}needs ",
            stream.phase,
            kind_word(stream.kind)
        )?;
        match stream.kind {
            Kind::Car(_) => write!(f, "{} s{}", need(MOST_SECONDS), Car { junction, number }),
            Kind::Tram(tram) => {
                let cycle = flows::longest_cycle(tram.hourly);
                write!(
                    f,
                    "{} s up to a cycle of {cycle} s, then {} s",
                    need(cycle),
                    need(MOST_SECONDS)
                )
            }
            Kind::Pedestrian(_) | Kind::Cyclist(_) | Kind::Island(_) => write!(
                f,
                "{} s",
                need(MOST_SECONDS)
            ),
        }
    }
}

fn kind_word(kind: Kind) -> &'static str {
    match kind {
        Kind::Car(_) => "car",
        Kind::Tram(_) => "tram",
        Kind::Pedestrian(_) => "pedestrian",
        Kind::Cyclist(_) => "cyclist",
        Kind::Island(_) => "island",
    }
}

// A car's flow, with the day of the count that gives it, its date and its number; its saturation flow and its flow ratio.
#[derive(Clone, Copy)]
struct Car<'a> {
    junction: &'a Junction,
    number: usize,
}

impl Display for Car<'_> {
    fn fmt<W: fmt::Write>(&self, f: &mut fmt::Formatter<W>) -> fmt::Result {
        let Car { junction, number } = *self;
        let flow = junction_figures::stream_flow(*junction, number);
        let day = junction_figures::stream_day(*junction, number);
        let date = IsoDate(dates::date_of(day));
        write!(f, "   flow {flow} E/h counted on {date}, day {day}")?;
        let saturation = junction_figures::stream_saturation(*junction, number);
        let ratio = Decimal::ten_thousandths(junction_figures::stream_ratio(
            *junction, number,
        ).into());
        write!(f, "   S {saturation} E/h   y {ratio}")
    }
}

// A date by year, month and day.
#[derive(Clone, Copy)]
struct IsoDate(Date);

impl Display for IsoDate {
    fn fmt<W: fmt::Write>(&self, f: &mut fmt::Formatter<W>) -> fmt::Result {
        let IsoDate(Date { year, month, day }) = *self;
        write!(f, "{year}-{month:02}-{day:02}")
    }
}

fn main(rt: HostRuntime) {
    let program = Program::new(&rt, "intergreens", "[JUNCTION-FILE]");
    if program.has_argument(2) || !program.is_name(1) {
        program.usage();
        return;
    }
    let mut junction = [0; JUNCTION_ROOM];
    let Some(junction) = program.read_input(1, &mut junction) else {
        return;
    };
    match junction_file::read(junction) {
        Ok(junction) => program.print(Figures(&junction)),
        Err(refusal) => program.print_line(refusal),
    }
}
