// The phases of a junction that was read: their flow ratios, intergreens toward the next phase and needed greens (document 01, "Working out
// a plan"). Phases and streams are named by their numbers, from 1.
#![tactic(auto)]

ghost use Rattle.std.specs.Prelude.{cond, ◌≡◌, ◌≤◌, ◌<◌, ℕ, min, get_or};
ghost use Rattle.std.specs.List.{list_any};
ghost use Rattle.limits.specs.Limits.{most_phases, most_streams};
ghost use Rattle.laws.specs.ByNumber.{ByNumber};
ghost use Rattle.laws.specs.Largest.{largest_of};
ghost use Rattle.streams.specs.Kinds.{is_car, is_pedestrian_or_tram};
ghost use Rattle.flows.specs.Saturation.{flow_ratio};
ghost use Rattle.junction_places.specs.Blank.{no_stream};
ghost use Rattle.junction_file.specs.Taken.{Taken};
ghost use Rattle.junction_phases.specs.JunctionPhases.{has_pedestrian_or_tram, phase_after, phases_at, with_need};
ghost use Rattle.junction_phases.specs.lemmas.Made.{phase_with};
ghost use Rattle.junction_phases.specs.lemmas.Tabled.{largest_in, needs_by, ratios_by, entries_by, onward as onward_by, StreamPhases, ZonesPhases};

use junction::Junction;
use junction_tables::{Conflicts, Load, Loads, Tables};
use limits::{MOST_PHASES, MOST_STREAMS};
use phase_lengths::{Phase, Phases};
use streams::Stream;

// A number where a test passes, else 0.
fn only(test: bool, n: u32) -> u32
    ensures { result ≡ cond test n 0 }
{
    if test { n } else { 0 }
}

// Whether one of some streams is a pedestrian's or a tram's.
fn some_pedestrian_or_tram(streams: &[Stream]) -> bool
    ensures { result ≡ list_any (λ s. is_pedestrian_or_tram s.kind) streams.now }
{
    streams.iter().any(|s| streams::is_pedestrian_or_tram(*s))
}

// Whether the junction has a pedestrian or a tram, so that (33) gives its first length.
pub fn has_pedestrian_or_tram(j: &Junction) -> bool
    requires { Taken j.now }
    ensures { result ≡ has_pedestrian_or_tram j.now }
{
    some_pedestrian_or_tram(&j.streams[..j.held.streams])
}

// The number of phases: that of the last one, at most six.
#[tactic(auto, using(laws::proofs::Largest::largest_none, laws::proofs::Largest::largest_next))]
fn phase_count(streams: &[Stream; MOST_STREAMS], n: usize) -> usize
    requires { n ≤ most_streams }
    ensures value { result ≡ min (largest_of (λ i. (get_or streams.now i no_stream).phase) n) most_phases }
    ensures few { result ≤ most_phases }
{
    let mut last: u8 = 0;
    for s in &streams[..n] {
        last = last.max(s.phase);
    }
    (last as usize).min(MOST_PHASES)
}

// The phase after a phase; the first follows the last.
fn following(f: u8, count: usize) -> u8
    requires { count ≤ most_phases }
    ensures { result ≡ phase_after count f }
{
    if (f as usize) < count {
        return f + 1;
    }
    1
}

// The flow ratio of a car, 0 of another stream.
fn car_ratio(s: Stream, load: Load) -> u32
    ensures { result ≡ cond (is_car s.kind) (flow_ratio load.flow load.saturation) 0 }
{
    only(
        streams::is_car(s),
        flows::flow_ratio(load.flow, load.saturation),
    )
}

// The largest figure of each phase's streams, by one pass over the streams. A figure is that of the stream at a place, from 0.
fn largest_by_phase<F: Fn(usize) -> u32>(
    streams: &[Stream; MOST_STREAMS],
    n: usize,
    figure: F,
) -> [u32; MOST_PHASES]
    requires phases { StreamPhases streams.now n }
    requires callable { (i : ℕ) → i < n → F.pre figure i }
    ensures { (of : ℕ → ℕ)
        → ((i x : ℕ) → i < n → F.post figure i x → x ≡ of i)
        → ByNumber most_phases (largest_in streams.now of n) result }
{
    let mut largest: [u32; MOST_PHASES] = [0; MOST_PHASES];
    for i in 0..n {
        let f = streams[i].phase as usize - 1;
        largest[f] = largest[f].max(figure(i));
    }
    largest
}

// The largest flow ratio of each phase's cars.
fn ratios_of(streams: &[Stream; MOST_STREAMS], loads: &Loads, n: usize) -> [u32; MOST_PHASES]
    requires { StreamPhases streams.now n }
    ensures { ByNumber most_phases (ratios_by streams.now loads.now n) result }
{
    largest_by_phase(streams, n, |i| car_ratio(streams[i], loads.of[i]))
}

// The largest needed green of each phase's streams at a cycle.
fn needs_at(streams: &[Stream; MOST_STREAMS], n: usize, t: u16) -> [u32; MOST_PHASES]
    requires { StreamPhases streams.now n }
    ensures { ByNumber most_phases (needs_by streams.now t n) result }
{
    largest_by_phase(streams, n, |i| flows::need(streams[i], t))
}

// The entry from a stream of phase f to one of phase g, 0 where g is not the next phase.
fn onward(f: u8, g: u8, count: usize, entry: u16) -> u32
    requires { count ≤ most_phases }
    ensures { result ≡ onward_by count f g entry }
{
    only(g == following(f, count), entry as u32)
}

// The largest entry from each phase's streams to those of the next phase, by one pass over the zones.
fn entries_of(
    streams: &[Stream; MOST_STREAMS],
    conflicts: &Conflicts,
    zones: usize,
    count: usize,
) -> [u32; MOST_PHASES]
    requires zones { ZonesPhases streams.now conflicts.now zones }
    requires count { count ≤ most_phases }
    ensures { ByNumber most_phases (entries_by streams.now conflicts.now count zones) result }
{
    let mut entries: [u32; MOST_PHASES] = [0; MOST_PHASES];
    for i in 0..zones {
        let c = conflicts.of[i];
        let a = streams[c.a as usize - 1];
        let b = streams[c.b as usize - 1];
        let f = a.phase as usize - 1;
        entries[f] = entries[f].max(onward(a.phase, b.phase, count, c.atob));
        let g = b.phase as usize - 1;
        entries[g] = entries[g].max(onward(b.phase, a.phase, count, c.btoa));
    }
    entries
}

// A phase by its largest figures. It has cars where its ratio is not 0, since a car's ratio is never 0.
fn phase_with(ratio: u32, entry: u32, need: u32) -> Phase
    ensures { result ≡ phase_with ratio entry need }
{
    Phase {
        cars: 1 <= ratio,
        ratio,
        intergreen: entry.max(1),
        need,
    }
}

// The phases of a junction, with their needs at a cycle.
#[tactic(auto, using(crate::specs::lemmas::Tabled::stream_phases, crate::specs::lemmas::Tabled::zones_phases, laws::specs::Filled::filled_none, laws::specs::Filled::filled_next))]
pub fn phases_at(tables: &Tables, t: u16) -> Phases
    requires { Taken tables.now.junction }
    ensures { result ≡ phases_at tables.now.junction t }
{
    let streams = &tables.junction.streams;
    let n = tables.junction.held.streams;
    let count = phase_count(streams, n);
    let ratios = ratios_of(streams, &tables.loads, n);
    let entries = entries_of(
        streams,
        &tables.conflicts,
        tables.junction.held.zones,
        count,
    );
    let needs = needs_at(streams, n, t);
    let mut q = Phases {
        count,
        of: [phase_lengths::no_phase(); MOST_PHASES],
    };
    for i in 0..count {
        q.of[i] = phase_with(ratios[i], entries[i], needs[i]);
    }
    q
}

// The same phases with their needs at another cycle.
#[tactic(auto, using(crate::specs::lemmas::Tabled::stream_phases, crate::specs::lemmas::Placed::few_phases, laws::specs::Filled::filled_none, laws::specs::Filled::filled_next), unfolding(crate::specs::JunctionPhases::phases_at))]
pub fn at_cycle(j: &Junction, q: Phases, t: u16) -> Phases
    requires taken { Taken j.now }
    requires phases { q ≡ phases_at j.now 0 }
    ensures { result ≡ phases_at j.now t }
{
    let needs = needs_at(&j.streams, j.held.streams, t);
    let count = q.count;
    let mut now = Phases {
        count,
        of: [phase_lengths::no_phase(); MOST_PHASES],
    };
    for i in 0..count {
        now.of[i] = with_need(phase_lengths::phase_at(q, i), needs[i]);
    }
    now
}

fn with_need(p: Phase, need: u32) -> Phase
    ensures { result ≡ with_need p need }
{
    Phase { need, ..p }
}
