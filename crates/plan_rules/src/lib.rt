// The rules that a plan has to meet: needed green, capacity, and clear conflict zones (document 01, "Judging a plan").
#![tactic(auto)]

ghost use Rattle.std.specs.Prelude.{◌≡◌, ◌+◌, ◌≤◌, ◌<◌};
ghost use Rattle.fields.specs.Verdict.{Passed, ask_each};
ghost use Rattle.junction_file.specs.Taken.{Taken};
ghost use Rattle.junction_tables.specs.Tables.{loads_of, conflicts_of};
ghost use Rattle.plan_rules.specs.Rules.{off as off_of, need_met_by, need_met, enough_capacity, capacity_met_by, capacity_met, zone_clear, zone_met, rules_verdict};

use fields::Refusal;
use junction::Junction;
use junction_tables::{Conflict, Conflicts, Load, Loads};
use plan_file::{Green, Plan};
use streams::Stream;

// The verdict on a plan for a junction: no refusal, or 15 or 16 with the lowest stream, or 17 with the lowest zone, that breaks the rule.
// Each rule is asked of all streams or zones before the next.
#[tactic(auto, unfolding(crate::specs::Rules::rules_verdict, fields::specs::Verdict::ask_each))]
pub fn verdict(j: Junction, p: Plan) -> Result<(), Refusal>
    requires { Taken j }
    ensures { result ≡ rules_verdict j p }
{
    ask_needs(j, p)?;
    ask_capacities(j, junction_tables::loads_of(j), p)?;
    ask_zones(j, junction_tables::conflicts_of(j), p)
}

// 15: has each stream its needed green?
fn ask_needs(j: Junction, p: Plan) -> Result<(), Refusal>
    requires { Taken j }
    ensures { result ≡ ask_each (need_met j p) 15 j.held.streams Passed }
{
    fields::ask_each(
        15,
        j.held.streams,
        |i| need_met(j.streams[i], p.greens[i], p.cycle),
    )
}

// 16: has each car stream its capacity?
fn ask_capacities(j: Junction, loads: Loads, p: Plan) -> Result<(), Refusal>
    requires taken { Taken j }
    requires loads { loads ≡ loads_of j }
    ensures { result ≡ ask_each (capacity_met j p) 16 j.held.streams Passed }
{
    fields::ask_each(
        16,
        j.held.streams,
        |i| capacity_met(j.streams[i], loads.of[i], p.greens[i], p.cycle),
    )
}

// 17: do the greens of each zone's streams keep their entries apart?
fn ask_zones(j: Junction, conflicts: Conflicts, p: Plan) -> Result<(), Refusal>
    requires taken { Taken j }
    requires conflicts { conflicts ≡ conflicts_of j }
    ensures { result ≡ ask_each (zone_met j p) 17 j.held.zones Passed }
{
    fields::ask_each(17, j.held.zones, |i| {
        let c = conflicts.of[i];
        let a = c.a as usize - 1;
        let b = c.b as usize - 1;
        zone_clear(p.cycle, p.greens[a], p.greens[b], c)
    })
}

// Whether a stream with this green has its needed green at the cycle.
pub fn need_met(s: Stream, green: Green, cycle: u16) -> bool
    ensures { result ≡ need_met_by s green cycle }
{
    flows::need(s, cycle) <= green.length as u32
}

// Whether a stream with this load and green has its capacity; streams other than cars have no rule of capacity.
pub fn capacity_met(s: Stream, load: Load, green: Green, cycle: u16) -> bool
    ensures { result ≡ capacity_met_by s load green cycle }
{
    !streams::is_car(s) | enough_capacity(load.flow, cycle, load.saturation, green.length)
}

// Whether a green of this length in each cycle serves a flow: flow × cycle at most S × (length + 1).
#[tactic(auto, unfolding(crate::specs::Rules::enough_capacity))]
pub fn enough_capacity(flow: u16, cycle: u16, saturation: u32, length: u16) -> bool
    ensures { result ≡ enough_capacity flow cycle saturation length }
{
    flow as u64 * cycle as u64 <= saturation as u64 * (length as u64 + 1)
}

// Whether the greens of a zone's two streams keep its entries apart: from the end of a to the start of b, and from the end of b to a's next
// start.
#[tactic(auto, unfolding(crate::specs::Rules::zone_clear))]
pub fn zone_clear(cycle: u16, a: Green, b: Green, c: Conflict) -> bool
    ensures { result ≡ zone_clear cycle a b c.atob c.btoa }
{
    let after = off(cycle, a.start, b.start);
    (a.length as u64 + c.atob as u64 <= after)
        & (after + b.length as u64 + c.btoa as u64 <= cycle as u64)
}

// How long after a start of the one stream the other's next start comes: (to - from) modulo the cycle, for starts below it.
#[tactic(auto, unfolding(crate::specs::Rules::off))]
fn off(cycle: u16, from: u16, to: u16) -> u64
    ensures value { result ≡ off_of cycle from to }
    ensures small { result ≤ 131070 }
{
    if from <= to {
        return to as u64 - from as u64;
    }
    (to as u64 + cycle as u64).saturating_sub(from as u64)
}
