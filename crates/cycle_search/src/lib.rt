// The plan of a length, and the cycle: the least length from the first on that does not fail (document 01, "Working out a plan").
#![tactic(auto)]

ghost use Rattle.std.specs.Prelude.{true, ◌≡◌, ◌≤◌};
ghost use Rattle.limits.specs.Limits.{most_seconds, no_cycle};
ghost use Rattle.junction_file.specs.Taken.{Taken};
ghost use Rattle.phase_greens.specs.Greens.{sharing, gives_greens};
ghost use Rattle.phase_greens.specs.Slots.{slots_of};
ghost use Rattle.junction_phases.specs.JunctionPhases.{phases_at};
ghost use Rattle.cycle_search.specs.Planning.{slot_green, plan_at, found as found_from, first_tried};
ghost use Rattle.cycle_search.specs.lemmas.Lengths.{SlotSmall};

use junction::Junction;
use junction_tables::Tables;
use limits::{MOST_STREAMS, NO_CYCLE};
use phase_greens::{Slot, Slots};
use phase_lengths::Phases;
use plan_file::{Green, Plan};

// The cycle, 181 where no length from the first to 180 works; how many lengths were tried; and the cycle's plan, where there is a cycle.
// The cycle stays a number, and no Option: the clause of `find_cycle` tells how many lengths were tried also where there is none.
#[derive(Clone, Copy)]
pub struct Found {
    pub cycle: u16,
    pub tried: u16,
    pub plan: Plan,
}

// T0, the first length that is tried: the annex's optimum with trams at 10 s.
#[tactic(auto, unfolding(crate::specs::Planning::first_tried, crate::specs::Planning::ratios))]
fn first_tried(j: &Junction, q: Phases) -> u16
    requires taken { Taken j.now }
    requires phases { q ≡ phases_at j.now 0 }
    ensures { result ≡ first_tried j.now }
{
    let sums = phase_lengths::sums_of(q);
    phase_lengths::first_length(junction_phases::has_pedestrian_or_tram(j), sums)
}

// A phase's start and green, which are at most 180.
pub fn slot_green(slot: Slot) -> Green
    requires { SlotSmall slot }
    ensures { result ≡ slot_green slot }
{
    Green {
        start: slot.start as u16,
        length: slot.green as u16,
    }
}

// The plan of a length: every stream gets its phase's green.
#[tactic(auto, unfolding(crate::specs::Planning::phase_green, crate::specs::Planning::plan_at))]
fn plan_at(j: &Junction, q: Phases, slots: Slots, t: u16) -> Plan
    requires taken { Taken j.now }
    requires phases { q ≡ phases_at j.now t }
    requires slots { slots ≡ slots_of q (sharing q t) }
    requires green { gives_greens q t ≡ true }
    requires short { t ≤ most_seconds }
    ensures { result ≡ plan_at j.now t }
{
    let streams = j.held.streams;
    let mut p = Plan {
        cycle: t,
        greens: [plan_file::no_green(); MOST_STREAMS],
    };
    for i in 0..streams {
        let stream = j.streams[i];
        p.greens[i] = slot_green(slots.of[stream.phase as usize - 1]);
    }
    p
}

// The least length from the first on that works: at least its lost time, every green 1 or more, and every rule met. The tests stand in the
// loop, which is left from inside them at the first rule broken; the plan that has passed them all is handed on.
// Stays a labelled loop that yields the cycle by break: the form that document 01 names for it.
#[tactic(auto, unfolding(junction_phases::specs::JunctionPhases::phases_at))]
fn search(tables: &Tables, fixed: Phases, first: u16) -> Found
    requires taken { Taken tables.now.junction }
    requires phases { fixed ≡ phases_at tables.now.junction 0 }
    requires short { first ≤ no_cycle }
    ensures { result ≡ found_from tables.now.junction first }
{
    let j = &tables.junction;
    let streams = j.held.streams;
    let zones = j.held.zones;
    let mut t = first;
    let mut tried: u16 = 0;
    let mut p = plan_file::no_plan();
    let cycle = 'search: loop {
        if NO_CYCLE <= t {
            p = plan_file::no_plan();
            break t;
        }
        tried += 1;
        let q = junction_phases::at_cycle(j, fixed, t);
        let slots = phase_greens::slots_of(q, phase_greens::shared_out(q, t));
        if !phase_greens::gives_greens(q, slots, t) {
            t += 1;
            continue 'search;
        }
        p = plan_at(j, q, slots, t);
        for n in 0..streams {
            if !plan_rules::need_met(j.streams[n], p.greens[n], p.cycle) {
                t += 1;
                continue 'search;
            }
        }
        for c in 0..streams {
            if !plan_rules::capacity_met(j.streams[c], tables.loads.of[c], p.greens[c], p.cycle) {
                t += 1;
                continue 'search;
            }
        }
        for z in 0..zones {
            let conflict = tables.conflicts.of[z];
            let a = conflict.a as usize - 1;
            let b = conflict.b as usize - 1;
            if !plan_rules::zone_clear(p.cycle, p.greens[a], p.greens[b], conflict) {
                t += 1;
                continue 'search;
            }
        }
        break t;
    };
    Found {
        cycle,
        tried,
        plan: p,
    }
}

// The cycle of a junction that is taken, by its phases with trams at 10 s.
#[tactic(auto, unfolding(crate::specs::Planning::first_tried))]
pub fn find_cycle(tables: &Tables, q: Phases) -> Found
    requires taken { Taken tables.now.junction }
    requires phases { q ≡ phases_at tables.now.junction 0 }
    ensures { result ≡ found_from tables.now.junction (first_tried tables.now.junction) }
{
    let first = first_tried(&tables.junction, q);
    search(tables, q, first)
}
