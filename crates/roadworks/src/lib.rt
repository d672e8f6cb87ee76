// Portable signals for road works: one narrowed stretch, one lane for both directions, and an approach at each end (document 02, 2026-07;
// annex, part B). The steps from the flow ratios on are the planner's, by its own functions, and the rules are the judge's.
#![tactic(auto)]

ghost use Rattle.std.specs.Prelude.{true, ◌≡◌, ◌≤◌, ◌<◌, IfSome, IfNone};
ghost use Rattle.limits.specs.Limits.{most_seconds, no_cycle};
ghost use Rattle.stretches.specs.Table.{listed};
ghost use Rattle.phase_greens.specs.Fills.{Right};
ghost use Rattle.phase_greens.specs.Greens.{sharing, gives_greens};
ghost use Rattle.phase_greens.specs.Slots.{slots_of};
ghost use Rattle.roadworks.specs.Roadworks.{hourly as is_hourly, in_range, intergreen as intergreen_of, load_of, approach_phase, phases_of};
ghost use Rattle.roadworks.specs.Roadworks.{served as is_served, greens_at, rules_kept, works, cycle_from, enough_waiting, timing_at, timed as timed_of, portable};

use cycle_search::slot_green;
use fields::{Refusal, ask};
use flows::CAR_NEED;
use junction_tables::{Conflict, Load};
use limits::{GREATEST_FLOW, LEAST_FLOW, NO_CYCLE};
use phase_greens::Slots;
use phase_lengths::{Phase, Phases, no_phase};
use plan_file::Green;
use stretches::TableTimes;

// An approach: its flow and its saturation flow in E/h, and the available waiting length in metres.
#[repr(C)]
#[derive(Clone, Copy)]
pub struct Approach {
    pub flow: usize,
    pub saturation: usize,
    pub waiting: usize,
}

// The green of each approach.
#[derive(Clone, Copy)]
pub struct Greens {
    pub first: Green,
    pub second: Green,
}

// The table's t and L, the cycle in seconds, and the greens.
#[derive(Clone, Copy)]
pub struct Timing {
    pub table: TableTimes,
    pub cycle: u16,
    pub greens: Greens,
}

// What the approaches ask of a plan: M for both directions, and each one's flow and saturation flow.
#[derive(Clone, Copy)]
pub struct Asked {
    pub intergreen: u16,
    pub first: Load,
    pub second: Load,
}

// The answer to every stretch in metres, speed in km/h and two approaches. Refused, each at place 0: 25, stretch or speed is not listed; 26, a flow
// or a saturation flow is not from 1 to 9,999; 21, the flow ratios sum to 10,000 or more; 22, no length from T0 to 180 s works; 27, an available
// waiting length is not above the needed one.
pub fn work_out(
    stretch: usize,
    speed: usize,
    first: Approach,
    second: Approach,
) -> Result<Timing, Refusal>
    ensures { result ≡ portable stretch speed first second }
{
    ask(stretches::listed(stretch, speed), 25, 0)?;
    ask(in_range(first) & in_range(second), 26, 0)?;
    timed(stretch, speed, first, second)
}

// 26 for an approach.
#[tactic(auto, unfolding(crate::specs::Roadworks::in_range))]
fn in_range(a: Approach) -> bool
    ensures { result ≡ in_range a }
{
    hourly(a.flow) & hourly(a.saturation)
}

// Whether a number of E/h is from 1 to 9,999.
fn hourly(flow: usize) -> bool
    ensures { result ≡ is_hourly flow }
{
    (LEAST_FLOW as usize..=GREATEST_FLOW as usize).contains(&flow)
}

// The answer where 25 and 26 refuse nothing.
#[tactic(auto, unfolding(crate::specs::Roadworks::cycle_of, crate::specs::Roadworks::first_tried, crate::specs::Roadworks::phases_of, crate::specs::Roadworks::timing))]
fn timed(stretch: usize, speed: usize, first: Approach, second: Approach) -> Result<Timing, Refusal>
    requires listed { listed stretch speed ≡ true }
    requires first { in_range first ≡ true }
    requires second { in_range second ≡ true }
    ensures { result ≡ timed_of stretch speed first second }
{
    let asked = Asked {
        intergreen: intergreen(stretch, speed),
        first: load(first),
        second: load(second),
    };
    let q = phases_of(asked);
    let sums = phase_lengths::sums_of(q);
    ask(sums.ratios < 10000, 21, 0)?;
    let Some(cycle) = search(asked, q, phase_lengths::first_length(false, sums)) else {
        return Err(Refusal {
            number: 22,
            place: 0,
        });
    };
    ask(
        enough_waiting(first, cycle) & enough_waiting(second, cycle),
        27,
        0,
    )?;
    Ok(timing_at(stretches::times(stretch, speed), q, cycle))
}

// M: 3 s and the unrounded t, rounded up.
#[tactic(auto, unfolding(crate::specs::Roadworks::intergreen))]
fn intergreen(stretch: usize, speed: usize) -> u16
    requires { listed stretch speed ≡ true }
    ensures { result ≡ intergreen_of stretch speed }
{
    let speed = speed as u32;
    laws::div_up(36 * (stretch as u32 + 20) + 30 * speed, 10 * speed) as u16
}

fn load(a: Approach) -> Load
    requires { in_range a ≡ true }
    ensures { result ≡ load_of a }
{
    Load {
        flow: a.flow as u16,
        saturation: a.saturation as u32,
    }
}

// The phases: each approach alone, and M between them.
#[tactic(auto, unfolding(crate::specs::Roadworks::phases_of))]
fn phases_of(asked: Asked) -> Phases
    ensures { result ≡ phases_of asked }
{
    Phases {
        count: 2,
        of: [
            approach_phase(asked.intergreen, asked.first),
            approach_phase(asked.intergreen, asked.second),
            no_phase(),
            no_phase(),
            no_phase(),
            no_phase(),
        ],
    }
}

fn approach_phase(intergreen: u16, load: Load) -> Phase
    ensures { result ≡ approach_phase intergreen load }
{
    Phase {
        cars: true,
        ratio: flows::flow_ratio(load.flow, load.saturation),
        intergreen: intergreen as u32,
        need: CAR_NEED,
    }
}

// The least length from the first on that works, where one up to 180 does.
#[tactic(auto, unfolding(crate::specs::Roadworks::cycle_from))]
fn search(asked: Asked, q: Phases, first: u16) -> Option<u16>
    requires phases { q ≡ phases_of asked }
    requires right { Right q }
    requires short { first ≤ no_cycle }
    ensures some { IfSome result (λ t. (t < no_cycle) × (t ≡ cycle_from asked first)) }
    ensures none { IfNone result (no_cycle ≤ cycle_from asked first) }
{
    for t in first..NO_CYCLE {
        if works_at(asked, q, t) {
            return Some(t);
        }
    }
    None
}

// Whether a length works: at least the lost time, each green 1 or more, and every rule kept.
#[tactic(auto, unfolding(crate::specs::Roadworks::works, crate::specs::Roadworks::phases_of))]
fn works_at(asked: Asked, q: Phases, t: u16) -> bool
    requires phases { q ≡ phases_of asked }
    requires right { Right q }
    requires short { t ≤ most_seconds }
    ensures { result ≡ works asked t }
{
    let slots = phase_greens::slots_of(q, phase_greens::shared_out(q, t));
    if !phase_greens::gives_greens(q, slots, t) {
        return false;
    }
    rules_kept(asked, greens_of(q, slots, t), t)
}

// The approaches' greens, at a length that gives both a green.
fn greens_of(q: Phases, slots: Slots, t: u16) -> Greens
    requires right { Right q }
    requires two { q.count ≡ 2 }
    requires slots { slots ≡ slots_of q (sharing q t) }
    requires green { gives_greens q t ≡ true }
    requires short { t ≤ most_seconds }
    ensures { result ≡ greens_at q t }
{
    Greens {
        first: slot_green(slots.of[0]),
        second: slot_green(slots.of[1]),
    }
}

// Needs, capacities and the zone, the stretch itself, which both approaches share, with M as both entries.
#[tactic(auto, unfolding(crate::specs::Roadworks::rules_kept))]
fn rules_kept(asked: Asked, greens: Greens, t: u16) -> bool
    ensures { result ≡ rules_kept asked greens t }
{
    let stretch = Conflict {
        a: 1,
        b: 2,
        atob: asked.intergreen,
        btoa: asked.intergreen,
    };
    served(asked.first, greens.first, t)
        & served(asked.second, greens.second, t)
        & plan_rules::zone_clear(t, greens.first, greens.second, stretch)
}

// Whether a green is an approach's needed one, and serves its flow.
fn served(load: Load, green: Green, t: u16) -> bool
    ensures { result ≡ is_served load green t }
{
    (CAR_NEED <= green.length as u32)
        & plan_rules::enough_capacity(load.flow, t, load.saturation, green.length)
}

// 27 for an approach: its available waiting length is above the needed one, flow × cycle/600 m. 600 × waiting may not fit, so the product is divided.
#[tactic(auto, unfolding(crate::specs::Roadworks::enough_waiting))]
fn enough_waiting(a: Approach, cycle: u16) -> bool
    requires range { in_range a ≡ true }
    ensures { result ≡ enough_waiting a cycle }
{
    a.flow * cycle as usize / 600 < a.waiting
}

// The answer's figures, at a length that gives both approaches a green.
fn timing_at(table: TableTimes, q: Phases, cycle: u16) -> Timing
    requires right { Right q }
    requires two { q.count ≡ 2 }
    requires green { gives_greens q cycle ≡ true }
    requires short { cycle ≤ most_seconds }
    ensures { result ≡ timing_at table q cycle }
{
    let slots = phase_greens::slots_of(q, phase_greens::shared_out(q, cycle));
    Timing {
        table,
        cycle,
        greens: greens_of(q, slots, cycle),
    }
}
