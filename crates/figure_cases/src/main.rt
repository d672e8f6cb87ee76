// Prints the annex's tables, document 01's marked figures and the figures of its whole case as the library answers them, to be read
// against the papers.
#![tactic(auto)]

use phase_lengths::{Phase, Phases};
use std::fmt;
use std::fmt::Display;
use streams::{CarFigures, Kind, PedestrianFigures, Stream, TramFigures};

// Table 1's widths in centimetres, each with the one below and above, and a wide approach.
const WIDTHS: [u16; 37] = [
    299, 300, 301, 324, 325, 326, 329, 330, 331, 349, 350, 351, 359, 360, 361, 374, 375, 376, 399,
    400, 401, 419, 420, 421, 449, 450, 451, 479, 480, 481, 499, 500, 501, 539, 540, 541, 1500,
];

// Table 3's cycles for 1 to 34 trams an hour, 14 or fewer as 15.
const CYCLES: [u8; 34] = [
    120, 120, 120, 120, 120, 120, 120, 120, 120, 120, 120, 120, 120, 120, 120, 113, 106, 100, 95,
    91, 87, 82, 79, 75, 72, 69, 67, 65, 63, 60, 58, 56, 54, 53,
];

// What a line says, and its figure.
#[derive(Clone, Copy)]
struct Line(&'static str, u64);

impl Display for Line {
    fn fmt<W: fmt::Write>(&self, f: &mut fmt::Formatter<W>) -> fmt::Result {
        let Line(words, figure) = *self;
        writeln!(f, "{words:<42}{figure:6}")
    }
}

fn main(rt: HostRuntime) {
    table_1(&rt);
    table_3(&rt);
    marked(&rt);
    whole_case(&rt);
}

// Prints a text. What cannot be printed is let go.
fn put<D: Display + Drop>(rt: &HostRuntime, text: D) {
    let _ = rt.print(text);
}

fn table_1(rt: &HostRuntime) {
    put(rt, "Table 1: width in cm, straight base flow in E/h\n");
    for width in WIDTHS {
        put(
            rt,
            format_args!("{width:6}{:6}\n", flows::straight_flow(width)),
        );
    }
    put(rt, "\n");
}

fn table_3(rt: &HostRuntime) {
    put(
        rt,
        "Table 3: trams an hour, cycle and needed green in s, one second more and needed green\n",
    );
    for (trams, cycle) in (1..=34).zip(CYCLES) {
        need_row(rt, trams, cycle);
    }
    put(rt, "\n");
}

fn need_row(rt: &HostRuntime, trams: u8, cycle: u8) {
    let s = tram(true, 300, trams);
    let cycle = u16::from(cycle);
    let longer = cycle + 1;
    put(
        rt,
        format_args!(
            "{trams:6}{cycle:6}{:6}{longer:6}{:6}\n",
            flows::need(s, cycle),
            flows::need(s, longer)
        ),
    );
}

fn car_figures(radius: u16) -> CarFigures {
    CarFigures {
        amber: 3,
        flying: false,
        radius,
        width: 350,
        rows: 1,
        gradient: 10,
        conditions: 2,
        left: 0,
        right: 0,
    }
}

fn car(radius: u16) -> Stream {
    Stream {
        phase: 1,
        kind: Kind::Car(car_figures(radius)),
    }
}

fn tram(stop: bool, length: u16, hourly: u8) -> Stream {
    Stream {
        phase: 2,
        kind: Kind::Tram(TramFigures {
            stop,
            length,
            hourly,
        }),
    }
}

// Undisturbed, reach uncounted.
fn pedestrian(crossing: u16, hourly: u16) -> Stream {
    let figures = PedestrianFigures {
        speed: 12,
        crossing,
        hourly,
        counted: false,
        disturbed: false,
    };
    Stream {
        phase: 2,
        kind: Kind::Pedestrian(figures),
    }
}

// The entry toward an uncounted pedestrian.
fn clears(i: Stream, clearing: u16) -> u64 {
    times::entry(i, pedestrian(70, 200), clearing, 0).into()
}

// The entry toward a standing car.
fn reaches(i: Stream, clearing: u16, reach: u16) -> u64 {
    times::entry(i, car(0), clearing, reach).into()
}

fn crosses(s: Stream) -> u64 {
    flows::need(s, 50).into()
}

fn base_flow(width: u16) -> u64 {
    flows::straight_flow(width).into()
}

fn marked(rt: &HostRuntime) {
    put(rt, "Marked figures\n");
    let lines = [
        Line(" 1 car, l 140", clears(car(0), 140)),
        Line(" 1 car, l 141", clears(car(0), 141)),
        Line(" 2 car, l 0", clears(car(0), 0)),
        Line(" 3 turn of radius 150, l 290", clears(car(150), 290)),
        Line(" 3 turn of radius 151, l 290", clears(car(151), 290)),
        Line(
            " 4 stop tram of 300, l 200",
            clears(tram(true, 300, 15), 200),
        ),
        Line(
            " 4 stop tram of 300, l 201",
            clears(tram(true, 300, 15), 201),
        ),
        Line(
            " 5 the same, l 200, to standing car, r 75",
            reaches(tram(true, 300, 15), 200, 75),
        ),
        Line(
            " 5 the same, l 200, to standing car, r 74",
            reaches(tram(true, 300, 15), 200, 74),
        ),
        Line(
            " 6 stop tram of 325, l 400",
            clears(tram(true, 325, 15), 400),
        ),
        Line(
            " 6 stop tram of 325, l 401",
            clears(tram(true, 325, 15), 401),
        ),
        Line(
            " 7 running tram of 300, l 200",
            clears(tram(false, 300, 15), 200),
        ),
        Line(
            " 8 pedestrian, l 0, to standing car, r 75",
            reaches(pedestrian(70, 200), 0, 75),
        ),
        Line(" 9 crossing 120, 200 people", crosses(pedestrian(120, 200))),
        Line(" 9 crossing 120, 120 people", crosses(pedestrian(120, 120))),
        Line(" 9 crossing 121, 200 people", crosses(pedestrian(121, 200))),
        Line("10 width 540", base_flow(540)),
        Line("10 width 541", base_flow(541)),
    ];
    for line in lines {
        put(rt, line);
    }
    put(rt, "\n");
}

fn whole_case(rt: &HostRuntime) {
    put(rt, "Whole case\n");
    let motor = car(0);
    let walk = pedestrian(70, 200);
    let saturation = flows::saturation_flow(car_figures(0));
    let ratio = flows::flow_ratio(600, saturation);
    let onward = times::entry(motor, walk, 140, 0);
    let back = times::entry(walk, motor, 70, 75);
    let first = Phase {
        cars: true,
        ratio,
        intergreen: onward.into(),
        need: flows::need(motor, 50),
    };
    let second = Phase {
        cars: false,
        ratio: 0,
        intergreen: back.into(),
        need: flows::need(walk, 50),
    };
    let sums = phase_lengths::sums_of(two_phases(first, second));
    let lines = [
        Line("saturation flow S", saturation.into()),
        Line("flow ratio y in ten-thousandths", ratio.into()),
        Line("entry from stream 1 to stream 2", onward.into()),
        Line("entry from stream 2 to stream 1", back.into()),
        Line("lost time L in s", sums.lost),
    ];
    for line in lines {
        put(rt, line);
    }
}

fn two_phases(first: Phase, second: Phase) -> Phases {
    let none = phase_lengths::no_phase();
    Phases {
        count: 2,
        of: [first, second, none, none, none, none],
    }
}
