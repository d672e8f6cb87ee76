// Delay and level of service of a car stream, in f64, rounded at each step as written (document 02, 2026-05; annex (51) to (56)).
#![tactic(auto)]

ghost use Rattle.std.specs.Prelude.{◌≡◌, Some, [], ◌∷◌};
ghost use Rattle.service_level.specs.Delays.{figures_of, term_a, term_b, delay_of, without_terms, service_of, delay_level, level_of};
ghost use Rattle.service_level.specs.Delays.{letter as letter_of};

use std::fmt;

// The figures travel together: the green's share g of the cycle, the saturation u, the terms A and B, and the delay d in seconds.
#[derive(Clone, Copy, Debug, PartialEq)]
pub struct DelayFigures {
    pub g: f64,
    pub u: f64,
    pub a: f64,
    pub b: f64,
    pub d: f64,
}

// What is told of a stream: its delay in seconds, or its saturation where that is 1 or more, or that it has no red.
#[derive(Clone, Copy, Debug, PartialEq)]
pub enum Service {
    Delay(f64),
    Oversaturated(f64),
    NoRed,
}

#[derive(Clone, Copy, Debug, PartialEq, Eq)]
pub enum Level {
    A,
    B,
    C,
    D,
    E,
    F,
}

// The figures of a green of this length in a cycle, both in seconds, of a flow and a saturation flow, both in E/h. Where there is no red, or
// the saturation is 1 or more, the request asks for no A, B and d, and nothing is divided for them: they are 0.
#[tactic(auto, using(crate::specs::Literals::is_1), unfolding(crate::specs::Delays::figures_of))]
pub fn figures(length: u16, cycle: u16, flow: u16, s: u32) -> DelayFigures
    ensures { result ≡ figures_of length cycle flow s }
{
    let g = (length as u32 + 1) as f64 / cycle as f64;
    let u = flow as f64 / (g * s as f64);
    if g >= 1.0 {
        return without_terms(g, u);
    }
    if u >= 1.0 {
        return without_terms(g, u);
    }
    let a = term_a(g, u);
    let b = term_b(u);
    let d = delay(cycle, flow, a, b);
    DelayFigures { g, u, a, b, d }
}

#[tactic(auto, using(crate::specs::Literals::is_0))]
fn without_terms(g: f64, u: f64) -> DelayFigures
    ensures { result ≡ without_terms g u }
{
    DelayFigures {
        g,
        u,
        a: 0.0,
        b: 0.0,
        d: 0.0,
    }
}

// (52)
#[tactic(auto, using(crate::specs::Literals::is_1, crate::specs::Literals::is_2), unfolding(crate::specs::Delays::term_a))]
fn term_a(g: f64, u: f64) -> f64
    ensures { result ≡ term_a g u }
{
    ((1.0 - g) * (1.0 - g)) / (2.0 * (1.0 - g * u))
}

// (53)
#[tactic(auto, using(crate::specs::Literals::is_1, crate::specs::Literals::is_2), unfolding(crate::specs::Delays::term_b))]
fn term_b(u: f64) -> f64
    ensures { result ≡ term_b u }
{
    (u * u) / (2.0 * (1.0 - u))
}

// (51), with the factor 0.9 in place of term (54)
#[tactic(auto, using(crate::specs::Literals::is_3600, crate::specs::Literals::is_nine_tenths), unfolding(crate::specs::Delays::delay_of))]
fn delay(cycle: u16, flow: u16, a: f64, b: f64) -> f64
    ensures { result ≡ delay_of cycle flow a b }
{
    0.9 * (cycle as f64 * a + (3600.0 * b) / flow as f64)
}

// No red is tested first, then the saturation.
#[tactic(auto, using(crate::specs::Literals::is_1), unfolding(crate::specs::Delays::service_of))]
pub fn service_of(f: DelayFigures) -> Service
    ensures { result ≡ service_of f }
{
    if f.g >= 1.0 {
        return Service::NoRed;
    }
    if f.u >= 1.0 {
        return Service::Oversaturated(f.u);
    }
    Service::Delay(f.d)
}

// The level of service: of the unrounded delay; F at a saturation of 1 or more, A without red.
#[tactic(auto, unfolding(crate::specs::Delays::service_level, crate::specs::Delays::level_of))]
pub fn level_of(f: DelayFigures) -> Level
    ensures { result ≡ level_of f }
{
    match service_of(f) {
        Service::Delay(d) => delay_level(d),
        Service::Oversaturated(_) => Level::F,
        Service::NoRed => Level::A,
    }
}

#[tactic(auto, using(crate::specs::Literals::is_25, crate::specs::Literals::is_35, crate::specs::Literals::is_50, crate::specs::Literals::is_70, crate::specs::Literals::is_100), unfolding(crate::specs::Delays::delay_level))]
fn delay_level(d: f64) -> Level
    ensures { result ≡ delay_level d }
{
    if d <= 25.0 {
        return Level::A;
    }
    if d <= 35.0 {
        return Level::B;
    }
    if d <= 50.0 {
        return Level::C;
    }
    if d <= 70.0 {
        return Level::D;
    }
    if d <= 100.0 {
        return Level::E;
    }
    Level::F
}

// A level's letter, as a byte.
#[tactic(auto, unfolding(crate::specs::Delays::letter))]
pub fn letter(l: Level) -> u8
    ensures { result ≡ letter_of l }
{
    match l {
        Level::A => b'A',
        Level::B => b'B',
        Level::C => b'C',
        Level::D => b'D',
        Level::E => b'E',
        Level::F => b'F',
    }
}

impl fmt::Display for Level {
    ghost output = { λ l. Some (letter_of l ∷ []) };

    #[tactic(auto, unfolding(crate::specs::Delays::letter))]
    fn fmt<W: fmt::Write>(&self, f: &mut fmt::Formatter<W>) -> fmt::Result {
        f.write_str(match self {
            Level::A => "A",
            Level::B => "B",
            Level::C => "C",
            Level::D => "D",
            Level::E => "E",
            Level::F => "F",
        })
    }
}
