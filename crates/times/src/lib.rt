// Times at a conflict zone and the entry from one stream to another (annex, section 1; document 01, "Times at a zone", with document 02).
#![tactic(auto)]

ghost use Rattle.std.specs.Prelude.{◌≡◌, ◌≤◌, ◌^◌};
ghost use Rattle.times.specs.lemmas.Bounds.{TimeSmall, time_small_prop, SmallRatio, SmallRoot, SmallRoots};
ghost use Rattle.times.specs.declared.Time.TheVariants.{Ratio, Root};
ghost use Rattle.times.specs.Comparison.{ratio_ratio, ratio_root, root_ratio, root_after, root_before, root_root};
ghost use Rattle.times.specs.Comparison.{within as within_gap};
ghost use Rattle.times.specs.Times.{car_time, car_leaving, longer as longer_of, stop_leaving, tram_leaving, walk_leaving};
ghost use Rattle.times.specs.Times.{leaving as leaving_time, passing as passing_time, car_reaching, tram_reaching, counted_reaching};
ghost use Rattle.times.specs.Times.{walk_reaching, reaching as reaching_time};
ghost use Rattle.times.specs.Entry.{least_gap, entry as entry_of};

use streams::{CarFigures, Kind, PedestrianFigures, Stream, TramFigures};

// A time in seconds, exactly.
#[derive(Clone, Copy)]
pub enum Time {
    // n / d
    Ratio { n: u64, d: u64 },
    // The square root of q / d, less whole seconds.
    Root { q: u64, d: u64, less: u64 },
}

// A time whose numbers are small enough for every product of the comparison to fit 64 bits.
#[derive(Clone, Copy)]
struct SmallTime {
    time: Time,
    ghost small: { TimeSmall time } by { time_small_prop time },
}

impl SmallTime {
    fn ratio(n: u64, d: u64) -> SmallTime
        requires { SmallRatio n d }
        ensures { result.time ≡ Ratio n d }
    {
        SmallTime {
            time: Time::Ratio { n, d },
        }
    }

    fn root(q: u64, d: u64, less: u64) -> SmallTime
        requires { SmallRoot q d less }
        ensures { result.time ≡ Root q d less }
    {
        SmallTime {
            time: Time::Root { q, d, less },
        }
    }
}

// Two roots, of a and of p, that are compared after both times were multiplied by the root of s.
#[derive(Clone, Copy)]
struct Roots {
    a: u64,
    p: u64,
    s: u64,
    ghost small: { SmallRoots a p s },
}

// The entry from stream i to stream j at one zone, (19), with i's clearing and j's reaching distance in decimetres: the least whole number
// of seconds, not below 0, that is at least leaving minus reaching. It is 65,535 where no smaller number is enough, as for a
// pedestrian whose speed is 0, which no file holds.
// Stays a number, and no Option: documents name it as a function that answers every value.
#[tactic(auto, unfolding(crate::specs::Entry::entry))]
pub fn entry(i: Stream, j: Stream, clearing: u16, reach: u16) -> u16
    ensures { result ≡ entry_of i j clearing reach }
{
    let leaves = i.kind;
    let reaches = j.kind;
    least_gap(leaving(leaves, clearing), reaching(reaches, reach))
}

#[tactic(auto, unfolding(crate::specs::Entry::least_gap))]
fn least_gap(leave: SmallTime, reach: SmallTime) -> u16
    ensures { result ≡ least_gap leave.time reach.time }
{
    laws::first_in(0..65535, |gap| within(leave, reach, gap as u64)) as u16
}

// Whether the leaving time is at most gap + the reaching time.
#[tactic(auto, unfolding(crate::specs::Comparison::within, crate::specs::Comparison::ratio_within, crate::specs::Comparison::root_within))]
fn within(leave: SmallTime, reach: SmallTime, gap: u64) -> bool
    requires gap_small { gap ≤ 65535 }
    ensures { result ≡ within_gap leave.time reach.time gap }
{
    match (leave.time, reach.time) {
        (Time::Ratio { n: m, d: b }, Time::Ratio { n, d }) => ratio_ratio(m, b, n, d, gap),
        (
            Time::Ratio { n: m, d: b },
            Time::Root {
                q: p,
                d: f,
                less: c,
            },
        ) => ratio_root(m, b, p, f, c, gap),
        (Time::Root { q, d: e, less }, Time::Ratio { n, d }) => root_ratio(q, e, n, d, gap + less),
        (
            Time::Root { q, d: e, less },
            Time::Root {
                q: p,
                d: f,
                less: c,
            },
        ) => root_root(
            Roots {
                a: q * f,
                p: p * e,
                s: e * f,
            },
            c,
            gap + less,
        ),
    }
}

// The pairs of numbers stay loose here and below: `Time`, whose shape the theorem `longer_at_least` holds, has them loose, and a pair of its
// own would have to be made at each arm above.
#[tactic(auto, unfolding(crate::specs::Comparison::ratio_ratio))]
fn ratio_ratio(m: u64, b: u64, n: u64, d: u64, gap: u64) -> bool
    requires leaving_small { SmallRatio m b }
    requires reaching_small { SmallRatio n d }
    requires gap_small { gap ≤ 2 ^ 16 }
    ensures { result ≡ ratio_ratio m b n d gap }
{
    m * d <= gap * b * d + n * b
}

#[tactic(auto, unfolding(crate::specs::Comparison::ratio_root))]
fn ratio_root(m: u64, b: u64, p: u64, f: u64, c: u64, gap: u64) -> bool
    requires leaving_small { SmallRatio m b }
    requires reaching_small { SmallRoot p f c }
    requires gap_small { gap ≤ 2 ^ 16 }
    ensures { result ≡ ratio_root m b p f c gap }
{
    let side = (m + c * b).saturating_sub(gap * b);
    side * side * f <= p * (b * b)
}

#[tactic(auto, unfolding(crate::specs::Comparison::root_ratio))]
fn root_ratio(q: u64, e: u64, n: u64, d: u64, gap: u64) -> bool
    requires leaving_small { SmallRoot q e 0 }
    requires reaching_small { SmallRatio n d }
    requires gap_small { gap ≤ 2 ^ 16 }
    ensures { result ≡ root_ratio q e n d gap }
{
    let side = gap * d + n;
    q * (d * d) <= side * side * e
}

#[tactic(auto, unfolding(crate::specs::Comparison::root_root))]
fn root_root(roots: Roots, c: u64, gap: u64) -> bool
    requires less_small { c ≤ 1 }
    requires gap_small { gap ≤ 2 ^ 16 }
    ensures { result ≡ root_root roots.a roots.p roots.s c gap }
{
    if c <= gap {
        return root_after(roots, gap - c);
    }
    root_before(roots, c - gap)
}

#[tactic(auto, unfolding(crate::specs::Comparison::root_after, crate::specs::Comparison::below_root))]
fn root_after(roots: Roots, k: u64) -> bool
    requires factor_small { k ≤ 2 ^ 16 }
    ensures { result ≡ root_after roots.a roots.p roots.s k }
{
    let Roots { a, p, s } = roots;
    let square = k * k;
    let side = a.saturating_sub(square * s + p);
    side * side <= 4 * square * s * p
}

#[tactic(auto, unfolding(crate::specs::Comparison::root_before, crate::specs::Comparison::root_below))]
fn root_before(roots: Roots, h: u64) -> bool
    requires factor_small { h ≤ 1 }
    ensures { result ≡ root_before roots.a roots.p roots.s h }
{
    let Roots { a, p, s } = roots;
    let square = h * h;
    let low = a + square * s;
    let side = p.saturating_sub(low);
    (low <= p) & (4 * square * s * a <= side * side)
}

// The time from the end of green until the last participant leaves, with clearing distance l; a cyclist's by (5', 12').
#[tactic(auto, unfolding(crate::specs::Times::leaving))]
fn leaving(kind: Kind, l: u16) -> SmallTime
    ensures { result.time ≡ leaving_time kind l }
{
    match kind {
        Kind::Car(c) => car_leaving(c, l),
        Kind::Tram(t) => tram_leaving(t, l),
        Kind::Pedestrian(p) => walk_leaving(p, l),
        Kind::Cyclist(_) => SmallTime::ratio(40 + l as u64, 40),
        Kind::Island(i) => walk_leaving(i.walk, l),
    }
}

// A car: straight (1, 7), turning with a radius above 150 dm (2, 8), any other turn (2, 9).
#[tactic(auto, unfolding(crate::specs::Times::car_leaving))]
fn car_leaving(c: CarFigures, l: u16) -> SmallTime
    ensures { result.time ≡ car_leaving c l }
{
    if c.radius == 0 {
        return car_time(3, 100, c.amber, l);
    }
    if 150 < c.radius {
        return car_time(2, 70, c.amber, l);
    }
    car_time(2, 50, c.amber, l)
}

// approach + (l + 60)/speed, raised to amber + 1 if lower (9').
#[tactic(auto, unfolding(crate::specs::Times::car_time))]
fn car_time(approach: u8, speed: u8, amber: u8, l: u16) -> SmallTime
    ensures { result.time ≡ car_time approach speed amber l }
{
    let v = speed as u64;
    let plain = approach as u64 * v + (l as u64 + 60);
    let raised = (amber as u64 + 1) * v;
    SmallTime::ratio(plain.max(raised), v)
}

// A tram, from a stop or running (3, 10).
#[tactic(auto, unfolding(crate::specs::Times::tram_leaving))]
fn tram_leaving(t: TramFigures, l: u16) -> SmallTime
    ensures { result.time ≡ tram_leaving t l }
{
    if t.stop {
        return stop_leaving(t.length, l);
    }
    let thousandths = 5100 + 9 * (l as u64 + t.length as u64);
    SmallTime::ratio(thousandths, 1000)
}

// From a stop: (4, 11) up to 400 dm, beyond it the larger of (11) at 400 and (11') (document 02, 2026-02).
#[tactic(auto, unfolding(crate::specs::Times::stop_leaving))]
fn stop_leaving(length: u16, l: u16) -> SmallTime
    ensures { result.time ≡ stop_leaving length l }
{
    if l <= 400 {
        let way = l as u64 + length as u64;
        return SmallTime::root(way, 5, 0);
    }
    let way = 400 + length as u64;
    let parts = 12321 + 10 * (l as u64 - 400);
    longer(way, 5, parts, 1110)
}

// The larger of the square root of q / e and n / d, compared exactly.
#[tactic(auto, unfolding(crate::specs::Times::longer))]
fn longer(q: u64, e: u64, n: u64, d: u64) -> SmallTime
    requires root_small { SmallRoot q e 0 }
    requires ratio_small { SmallRatio n d }
    ensures { result.time ≡ longer_of q e n d }
{
    if root_ratio(q, e, n, d, 0) {
        return SmallTime::ratio(n, d);
    }
    SmallTime::root(q, e, 0)
}

// A pedestrian, over an island too (5, 12).
#[tactic(auto, unfolding(crate::specs::Times::walk_leaving))]
fn walk_leaving(p: PedestrianFigures, l: u16) -> SmallTime
    ensures { result.time ≡ walk_leaving p l }
{
    SmallTime::ratio(l as u64, p.speed as u64)
}

// The time from the start of green until the first participant reaches the zone, with reaching distance r.
#[tactic(auto, unfolding(crate::specs::Times::reaching))]
fn reaching(kind: Kind, r: u16) -> SmallTime
    ensures { result.time ≡ reaching_time kind r }
{
    match kind {
        Kind::Car(c) => car_reaching(c, r),
        Kind::Tram(t) => tram_reaching(t, r),
        Kind::Pedestrian(p) => walk_reaching(p, r),
        Kind::Cyclist(y) => counted_reaching(y.counted, r, 50),
        Kind::Island(i) => walk_reaching(i.walk, r),
    }
}

// A car, flying (14) or standing (13).
#[tactic(auto, unfolding(crate::specs::Times::car_reaching))]
fn car_reaching(c: CarFigures, r: u16) -> SmallTime
    ensures { result.time ≡ car_reaching c r }
{
    if c.flying {
        return passing(r);
    }
    SmallTime::root(r as u64 + 15, 10, 1)
}

// A tram, from a stop (15) or running (16).
#[tactic(auto, unfolding(crate::specs::Times::tram_reaching))]
fn tram_reaching(t: TramFigures, r: u16) -> SmallTime
    ensures { result.time ≡ tram_reaching t r }
{
    if t.stop {
        return SmallTime::root(r as u64 + 15, 5, 0);
    }
    passing(r)
}

// (14), (16).
#[tactic(auto, unfolding(crate::specs::Times::passing))]
fn passing(r: u16) -> SmallTime
    ensures { result.time ≡ passing_time r }
{
    let thousandths = 9 * r as u64;
    SmallTime::ratio(thousandths, 1000)
}

// A pedestrian, over an island too (17, 18).
#[tactic(auto, unfolding(crate::specs::Times::walk_reaching))]
fn walk_reaching(p: PedestrianFigures, r: u16) -> SmallTime
    ensures { result.time ≡ walk_reaching p r }
{
    counted_reaching(p.counted, r, 15)
}

// (18), (18') where the time is counted, else 0 (17, 17').
#[tactic(auto, unfolding(crate::specs::Times::counted_reaching))]
fn counted_reaching(counted: bool, r: u16, speed: u8) -> SmallTime
    ensures { result.time ≡ counted_reaching counted r speed }
{
    if counted {
        return SmallTime::ratio(r as u64, speed as u64);
    }
    SmallTime::ratio(0, 1)
}
