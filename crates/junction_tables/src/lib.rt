// Of a taken junction: the entries of every pair of streams, those at each zone, and flow and S of each stream, worked out once, since the
// search asks for them at every length.
#![tactic(auto)]

ghost use Rattle.std.specs.Prelude.{◌≡◌, length};
ghost use Rattle.laws.specs.Ranges.{Between};
ghost use Rattle.limits.specs.Limits.{most_streams};
ghost use Rattle.junction_file.specs.Taken.{Taken};
ghost use Rattle.junction_figures.specs.Figures.{pair_entry};
ghost use Rattle.junction_tables.specs.Pairs.{pairs, pair_place, ByPair, raised_to, conflict_by};
ghost use Rattle.junction_tables.specs.Tables.{no_conflict, conflicts_of, no_load, load_by, loads_of};

use junction::Junction;
use limits::{MOST_STREAMS, MOST_ZONES};
use streams::Stream;

// So many ordered pairs of streams.
const PAIRS: usize = MOST_STREAMS * MOST_STREAMS;

// A conflict zone: the numbers of its streams, and the entries of the pair in seconds, atob from a to b and btoa from b to a.
#[derive(Clone, Copy, Debug, PartialEq, Eq)]
pub struct Conflict {
    pub a: u8,
    pub b: u8,
    pub atob: u16,
    pub btoa: u16,
}

// The conflict zones in their order; the places after the last are empty.
// Stays an array of fixed room, as do the loads: the project has no heap.
#[derive(Clone, Copy, Debug, PartialEq, Eq)]
pub struct Conflicts {
    pub of: [Conflict; MOST_ZONES],
}

// The flow of a stream and its saturation flow in E/h, 0 and 0 for a stream that is no car.
#[derive(Clone, Copy, Debug, PartialEq, Eq)]
pub struct Load {
    pub flow: u16,
    pub saturation: u32,
}

// Those of the streams in their order; the places after the last are empty.
#[derive(Clone, Copy, Debug, PartialEq, Eq)]
pub struct Loads {
    pub of: [Load; MOST_STREAMS],
}

fn no_conflict() -> Conflict
    ensures { result ≡ no_conflict }
{
    Conflict {
        a: 0,
        b: 0,
        atob: 0,
        btoa: 0,
    }
}

// The place of the pair from stream n to stream m in a table of all pairs.
fn pair_place(n: u8, m: u8) -> usize
    requires from { Between 1 most_streams n }
    requires to { Between 1 most_streams m }
    ensures { result ≡ pair_place n m }
{
    MOST_STREAMS * (n as usize - 1) + (m as usize - 1)
}

// Raises the entry from stream n to stream m to that at one more zone of theirs, where that is larger.
fn raise(entries: &mut [u16], n: u8, m: u8, entry: u16)
    requires long { length entries.old ≡ pairs }
    requires from { Between 1 most_streams n }
    requires to { Between 1 most_streams m }
    ensures { entries.new ≡ raised_to entries.old n m entry }
{
    let here = pair_place(n, m);
    entries[here] = entries[here].max(entry);
}

// The entries of every pair of streams, by one pass over the zones; the two directions at a zone differ in its sides exchanged alone. Each
// number is read where it stands: copying the zone first took 5 % more instructions, and no change may make it slower.
#[tactic(auto, using(crate::specs::lemmas::Pairs::zone_first, crate::specs::lemmas::Pairs::zone_second))]
fn pair_entries(j: Junction) -> [u16; PAIRS]
    requires { Taken j }
    ensures { ByPair (pair_entry j) result }
{
    let mut entries: [u16; PAIRS] = [0; PAIRS];
    for i in 0..j.held.zones {
        let a = j.zones[i].a.stream;
        let b = j.zones[i].b.stream;
        let first = j.streams[a as usize - 1];
        let second = j.streams[b as usize - 1];
        let atob = times::entry(first, second, j.zones[i].a.clearing, j.zones[i].b.reaching);
        raise(&mut entries, a, b, atob);
        let btoa = times::entry(second, first, j.zones[i].b.clearing, j.zones[i].a.reaching);
        raise(&mut entries, b, a, btoa);
    }
    entries
}

// Two streams with the entries of the pair.
fn conflict_by(entries: &[u16], a: u8, b: u8) -> Conflict
    requires long { length entries.now ≡ pairs }
    requires first { Between 1 most_streams a }
    requires second { Between 1 most_streams b }
    ensures { result ≡ conflict_by entries.now a b }
{
    Conflict {
        a,
        b,
        atob: entries[pair_place(a, b)],
        btoa: entries[pair_place(b, a)],
    }
}

// The conflicts of a junction: at each zone the entries of its pair.
#[tactic(auto, using(crate::specs::lemmas::Pairs::zone_first, crate::specs::lemmas::Pairs::zone_second, laws::specs::Filled::filled_none, laws::specs::Filled::filled_next, crate::proofs::lemmas::Pairs::zone_conflict), unfolding(crate::specs::Tables::conflicts_of))]
pub fn conflicts_of(j: Junction) -> Conflicts
    requires { Taken j }
    ensures { result ≡ conflicts_of j }
{
    let entries = pair_entries(j);
    let mut all = Conflicts {
        of: [no_conflict(); MOST_ZONES],
    };
    for i in 0..j.held.zones {
        all.of[i] = conflict_by(&entries, j.zones[i].a.stream, j.zones[i].b.stream);
    }
    all
}

fn no_load() -> Load
    ensures { result ≡ no_load }
{
    Load {
        flow: 0,
        saturation: 0,
    }
}

// The load of a stream by the rank of its newest count.
fn load_by(rank: u32, s: Stream) -> Load
    ensures { result ≡ load_by rank s }
{
    let flow = counts::flow(rank);
    let saturation = junction_figures::saturation(s);
    Load { flow, saturation }
}

// The loads of a junction.
#[tactic(auto, using(laws::specs::Filled::filled_none, laws::specs::Filled::filled_next, junction_file::specs::lemmas::Places::stream_place_lem), unfolding(junction_figures::specs::Figures::stream_flow, junction_figures::specs::Figures::stream_saturation, junction_figures::specs::Figures::stream_ratio, crate::specs::Tables::loads_of))]
pub fn loads_of(j: Junction) -> Loads
    requires { Taken j }
    ensures { result ≡ loads_of j }
{
    let ranks = junction_places::newest_ranks(j);
    let mut all = Loads {
        of: [no_load(); MOST_STREAMS],
    };
    for i in 0..j.held.streams {
        all.of[i] = load_by(ranks[i + 1], j.streams[i]);
    }
    all
}

// A junction with its tables, which travel together.
// `Taken` is still a clause of each function: it names the place of a car, so that a ghost field would take it only as `∥ Taken junction ∥₁`.
#[derive(Clone, Copy)]
pub struct Tables {
    pub junction: Junction,
    pub loads: Loads,
    pub conflicts: Conflicts,
    pub ghost loaded: { loads ≡ loads_of junction },
    pub ghost joined: { conflicts ≡ conflicts_of junction },
}

// The tables of a junction that is taken.
pub fn tables_of(junction: Junction) -> Tables
    requires { Taken junction }
    ensures { result.junction ≡ junction }
{
    Tables {
        junction,
        loads: loads_of(junction),
        conflicts: conflicts_of(junction),
    }
}
