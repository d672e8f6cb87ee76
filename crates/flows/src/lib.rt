// Needed greens, saturation flows and flow ratios of the annex, section 2 (document 01, "Needs and flows").
#![tactic(auto)]

ghost use Rattle.std.specs.Prelude.{◌≡◌, ◌^◌};
ghost use Rattle.flows.specs.Needs.{need_at, tram_need, longest_cycle, pedestrian_need, crossing_speed, disturbance, island_need};
ghost use Rattle.flows.specs.Saturation.{straight_flow, turning_flow, base_flow, gradient_percent, conditions_percent};
ghost use Rattle.flows.specs.Saturation.{turn_divisor, saturation_flow, flow_ratio};
ghost use Rattle.flows.specs.lemmas.Bounds.{Bounded};

use streams::{CarFigures, IslandFigures, Kind, PedestrianFigures, Stream, TramFigures};

// The needed green of cars in seconds (38).
pub const CAR_NEED: u32 = 8;

// The needed green of a stream in seconds, at a cycle in seconds: 8 for cars (38), 10 or 20 for trams (Table 3), 6 for cyclists (40'), and for
// pedestrians the time to cross, at least 6 (38 to 40; over an island 39'). More than 34 trams an hour, which no file holds, count as 34.
#[tactic(auto, unfolding(crate::specs::Needs::need_at, crate::specs::Needs::kind_need))]
pub fn need(s: Stream, cycle: u16) -> u32
    ensures { result ≡ need_at cycle s }
{
    let kind = s.kind;
    match kind {
        Kind::Car(_) => CAR_NEED,
        Kind::Tram(t) => tram_need(t, cycle),
        Kind::Pedestrian(p) => pedestrian_need(p),
        Kind::Cyclist(_) => 6,
        Kind::Island(i) => island_need(i),
    }
}

// Annex 2.2, Table 3: one tram a cycle, or two.
#[tactic(auto, unfolding(crate::specs::Needs::tram_need))]
fn tram_need(t: TramFigures, cycle: u16) -> u32
    ensures { result ≡ tram_need cycle t }
{
    let longest = longest_cycle(t.hourly);
    if cycle <= longest { 10 } else { 20 }
}

// Table 3: the longest cycle in seconds in which 15, 16, .. 34 trams an hour need 10 s.
const TABLE3: [u16; 20] = [
    120, 113, 106, 100, 95, 91, 87, 82, 79, 75, 72, 69, 67, 65, 63, 60, 58, 56, 54, 53,
];

// The longest cycle in seconds in which a number of trams an hour needs 10 s; in a longer one they need 20 s.
#[tactic(auto, unfolding(crate::specs::Needs::longest_cycle, crate::specs::Needs::table3))]
pub fn longest_cycle(hourly: u8) -> u16
    ensures { result ≡ longest_cycle hourly }
{
    TABLE3[(hourly as usize).saturating_sub(15).min(19)]
}

// Formulas (38) to (40). The 3 s of a disturbed crossing go into the quotient as the way that pedestrians walk in them.
#[tactic(auto, unfolding(crate::specs::Needs::pedestrian_need))]
fn pedestrian_need(p: PedestrianFigures) -> u32
    ensures { result ≡ pedestrian_need p }
{
    let speed = crossing_speed(p);
    let way = p.crossing as u32 + disturbance(p) * speed;
    laws::div_up(way, speed).max(6)
}

// Formulas (38) to (40) with (39'): at least what the crossing needs without the island.
#[tactic(auto, unfolding(crate::specs::Needs::island_need))]
fn island_need(i: IslandFigures) -> u32
    ensures { result ≡ island_need i }
{
    let walk = i.walk;
    let way = i.wider as u32 + i.island as u32 + i.packet as u32 + disturbance(walk) * 12;
    pedestrian_need(walk).max(laws::div_up(way, 12))
}

// In dm/s, formula (39): 12, or 16 where the time is 0.75 of that.
#[tactic(auto, unfolding(crate::specs::Needs::crossing_speed))]
fn crossing_speed(p: PedestrianFigures) -> u32
    ensures { Bounded (crossing_speed p) 17 result }
{
    if p.crossing > 120 || p.hourly <= 120 {
        16
    } else {
        12
    }
}

// Formula (40), in seconds.
#[tactic(auto, unfolding(crate::specs::Needs::disturbance))]
fn disturbance(p: PedestrianFigures) -> u32
    ensures { Bounded (disturbance p) 4 result }
{
    if p.disturbed { 3 } else { 0 }
}

// The straight base flow in E/h of an approach of a width in cm: Table 1 at the greatest listed width not above it, wider than
// 540 by formula (20). A width below 300, which no file holds, has flow 0.
#[tactic(auto, unfolding(crate::specs::Saturation::straight_flow))]
pub fn straight_flow(width: u16) -> u32
    ensures { result ≡ straight_flow width }
{
    match width {
        0..=299 => 0,
        300..=324 => 1850,
        325..=329 => 1870,
        330..=349 => 1875,
        350..=359 => 1925,
        360..=374 => 1950,
        375..=399 => 1980,
        400..=419 => 2030,
        420..=449 => 2075,
        450..=479 => 2275,
        480..=499 => 2475,
        500..=539 => 2585,
        540 => 2700,
        541.. => 21 * width as u32 / 4,
    }
}

// Formula (22) in two rows, else (21).
#[tactic(auto, unfolding(crate::specs::Saturation::turning_flow))]
fn turning_flow(radius: u16, rows: u8) -> u32
    ensures { result ≡ turning_flow radius rows }
{
    let radius = radius as u32;
    if rows == 2 {
        12000 * radius / (4 * radius + 61)
    } else {
        7200 * radius / (4 * radius + 61)
    }
}

// Formulas (20) to (22).
#[tactic(auto, using(crate::specs::lemmas::Bounds::straight_small, crate::specs::lemmas::Bounds::turning_small), unfolding(crate::specs::Saturation::base_flow))]
fn base_flow(c: CarFigures) -> u32
    ensures { Bounded (base_flow c) (2 ^ 19) result }
{
    if c.radius == 0 {
        straight_flow(c.width)
    } else {
        turning_flow(c.radius, c.rows)
    }
}

// Formula (23) in hundredths.
#[tactic(auto, unfolding(crate::specs::Saturation::gradient_percent))]
fn gradient_percent(gradient: u8) -> u64
    ensures { Bounded (gradient_percent gradient) 131 result }
{
    130u64.saturating_sub(3 * gradient as u64)
}

// Table 2 in hundredths.
#[tactic(auto, unfolding(crate::specs::Saturation::conditions_percent))]
fn conditions_percent(conditions: u8) -> u64
    ensures { Bounded (conditions_percent conditions) 121 result }
{
    match conditions {
        1 => 120,
        2 => 100,
        _ => 85,
    }
}

// 400 / Kturn of formulas (24) to (26).
#[tactic(auto, unfolding(crate::specs::Saturation::turn_divisor))]
fn turn_divisor(left: u8, right: u8) -> u64
    ensures { Bounded (turn_divisor left right) (2 ^ 12) result }
{
    let left = left as u64;
    let right = right as u64;
    let turning = left + right;
    if turning < 10 {
        return 400;
    }
    4 * 100u64.saturating_sub(turning) + 7 * left + 5 * right
}

// The saturation flow of a car stream in E/h, formula (28): the base flow is rounded down, and its product with the factors once.
// Of numbers that no file holds, a straight width below 300 and a gradient field above 43 give 0, rows other than 2 count as 1,
// conditions other than 1 and 2 count as 3, and shares above 100 in all leave none straight.
#[tactic(auto, using(crate::specs::lemmas::Bounds::turn_positive), unfolding(crate::specs::Saturation::saturation_flow))]
pub fn saturation_flow(c: CarFigures) -> u32
    ensures { result ≡ saturation_flow c }
{
    let base = base_flow(c) as u64;
    let gradient = gradient_percent(c.gradient);
    let conditions = conditions_percent(c.conditions);
    let divisor = turn_divisor(c.left, c.right);
    let flow = base * gradient * conditions * 400 / (100 * 100 * divisor);
    flow as u32
}

// The flow ratio y of a flow and a saturation flow s in E/h, in ten-thousandths, rounded up, formula (29). An s of 0, which no
// file gives, is answered by 4,294,967,295, more than any ratio.
#[tactic(auto, unfolding(crate::specs::Saturation::flow_ratio))]
pub fn flow_ratio(flow: u16, s: u32) -> u32
    ensures { result ≡ flow_ratio flow s }
{
    if s == 0 {
        return 4294967295;
    }
    laws::div_up(10000 * flow as u32, s)
}
