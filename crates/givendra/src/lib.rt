// The library for programs in other languages (include/givendra.h): every answer but the release is a struct of numbers, since C reads it. A refusal's
// number is 0 where nothing is refused, and the other numbers are 0 where something is.
#![tactic(auto)]

ghost use Rattle.std.specs.Prelude.{◌≡◌, ℕ, max, length, leb, Result};
ghost use Rattle.fields.specs.declared.Refusal.{Refusal};
ghost use Rattle.fields.specs.Verdict.{Verdict, Passed, ask, first_refusal, answered};
ghost use Rattle.counts.specs.Newest.{rank_flow};
ghost use Rattle.junction.specs.declared.Junction.{Junction};
ghost use Rattle.junction_file.specs.Reading.{reading};
ghost use Rattle.junction_figures.specs.Figures.{pair_entry, stream_need, stream_saturation, stream_ratio};
ghost use Rattle.offsets.specs.Shifting.{shifted_plan};
ghost use Rattle.planner.specs.WorkingOut.{buffer as buffer_after};
ghost use Rattle.givendra.specs.Answers.{release, answer_of, judge_answer, worked_answer, plan_answer, read_answer, junction_answer, figure as figure_of, figure_answer, intergreen_verdict, intergreen_answer, need_verdict, need_answer, car_verdict, saturation_answer, ratio_answer};
ghost use Rattle.givendra.specs.Answers.{answer_of_delay, told_answer, delay_answer, shift_answer, answer_of_portable, timed_answer, portable_answer};
ghost use Rattle.givendra.specs.LentList.{wanted, record_rank, newest_answer};

use counts::{Count, Wanted};
use delays::Told;
use fields::{Refusal, ask};
use junction::Junction;
use planner::WorkedOut;
use roadworks::{Approach, Timing};
use service_level::Service;

// A refusal's place and number, 0 and 0 where nothing is refused: the judge's answer, and that of a shift.
#[repr(C)]
#[derive(Clone, Copy)]
pub struct JudgeAnswer {
    pub place: usize,
    pub refusal: u8,
}

// The cycle in seconds, how many lengths were tried, and how many bytes the plan file has.
#[repr(C)]
#[derive(Clone, Copy)]
pub struct PlanAnswer {
    pub place: usize,
    pub refusal: u8,
    pub cycle: u16,
    pub tried: u16,
    pub size: usize,
}

// What a junction file holds.
#[repr(C)]
#[derive(Clone, Copy)]
pub struct JunctionAnswer {
    pub place: usize,
    pub refusal: u8,
    pub design_day: u16,
    pub period: u8,
    pub streams: usize,
    pub zones: usize,
    pub counts: usize,
}

// A figure of the annex.
#[repr(C)]
#[derive(Clone, Copy)]
pub struct Figure {
    pub place: usize,
    pub refusal: u8,
    pub value: u32,
}

// What is told of a car stream in a plan: 1 a delay in seconds, 2 a saturation of 1 or more, 3 no red, with value 0; and the level's letter.
#[repr(C)]
#[derive(Clone, Copy)]
pub struct DelayAnswer {
    pub place: usize,
    pub refusal: u8,
    pub outcome: u8,
    pub level: u8,
    pub value: f64,
}

// The release, by which a caller sees that header and archive belong together.
#[unsafe(no_mangle)]
pub extern "C" fn givendra_release() -> u32
    ensures { result ≡ release }
{
    2
}

// Judges a plan file for a junction file.
#[tactic(auto, unfolding(crate::specs::Answers::judge_answer))]
#[unsafe(no_mangle)]
pub extern "C" fn givendra_judge(junction: &[u8], plan: &[u8]) -> JudgeAnswer
    ensures { result ≡ judge_answer junction.now plan.now }
{
    JudgeAnswer::from(plan_judge::judge(junction, plan))
}

impl From<Result<(), Refusal>> for JudgeAnswer {
    ghost from_gives = { λ v r. r ≡ answer_of v };

    #[tactic(auto, unfolding(crate::specs::Answers::answer_of))]
    fn from(v: Result<(), Refusal>) -> JudgeAnswer {
        match v {
            Ok(()) => JudgeAnswer {
                place: 0,
                refusal: 0,
            },
            Err(r) => JudgeAnswer {
                place: r.place,
                refusal: r.number,
            },
        }
    }
}

// Adds an offset in seconds to every start of the lent plan file, modulo its cycle.
#[tactic(auto, unfolding(crate::specs::Answers::shift_answer))]
#[unsafe(no_mangle)]
pub extern "C" fn givendra_shift(junction: &[u8], plan: &mut [u8], offset: usize) -> JudgeAnswer
    ensures result { result ≡ shift_answer junction.now plan.old offset }
    ensures lent { plan.new ≡ shifted_plan junction.now plan.old offset }
{
    JudgeAnswer::from(offsets::shift(junction, plan, offset))
}

// Works out a plan for a junction file, and writes its plan file into the lent buffer.
#[tactic(auto, unfolding(crate::specs::Answers::plan_answer))]
#[unsafe(no_mangle)]
pub extern "C" fn givendra_work_out(junction: &[u8], buffer: &mut [u8]) -> PlanAnswer
    ensures result { result ≡ plan_answer junction.now (length buffer.old) }
    ensures lent { buffer.new ≡ buffer_after junction.now buffer.old }
{
    PlanAnswer::from(planner::work_out(junction, buffer))
}

impl From<Result<WorkedOut, Refusal>> for PlanAnswer {
    ghost from_gives = { λ v r. r ≡ worked_answer v };

    fn from(v: Result<WorkedOut, Refusal>) -> PlanAnswer {
        match v {
            Ok(worked) => PlanAnswer {
                place: 0,
                refusal: 0,
                cycle: worked.cycle,
                tried: worked.tried,
                size: worked.size,
            },
            Err(r) => PlanAnswer {
                place: r.place,
                refusal: r.number,
                cycle: 0,
                tried: 0,
                size: 0,
            },
        }
    }
}

// Reads a junction file.
#[tactic(auto, unfolding(crate::specs::Answers::junction_answer))]
#[unsafe(no_mangle)]
pub extern "C" fn givendra_read_junction(junction: &[u8]) -> JunctionAnswer
    ensures { result ≡ junction_answer junction.now }
{
    JunctionAnswer::from(junction_file::read(junction))
}

impl From<Result<Junction, Refusal>> for JunctionAnswer {
    ghost from_gives = { λ v r. r ≡ read_answer v };

    fn from(v: Result<Junction, Refusal>) -> JunctionAnswer {
        match v {
            Ok(j) => JunctionAnswer {
                place: 0,
                refusal: 0,
                design_day: j.day,
                period: j.period,
                streams: j.held.streams,
                zones: j.held.zones,
                counts: j.held.counts,
            },
            Err(r) => JunctionAnswer {
                place: r.place,
                refusal: r.number,
                design_day: 0,
                period: 0,
                streams: 0,
                zones: 0,
                counts: 0,
            },
        }
    }
}

impl From<Result<u32, Refusal>> for Figure {
    ghost from_gives = { λ v r. r ≡ figure_answer v };

    fn from(v: Result<u32, Refusal>) -> Figure {
        match v {
            Ok(value) => Figure {
                place: 0,
                refusal: 0,
                value,
            },
            Err(r) => Figure {
                place: r.place,
                refusal: r.number,
                value: 0,
            },
        }
    }
}

// A figure of a junction file: the file's refusal, else what is answered of the junction.
#[tactic(auto, unfolding(crate::specs::Answers::figure))]
fn figure_in<F: Fn(Junction) -> Result<u32, Refusal>>(junction: &[u8], figure: F) -> Figure
    requires { (j : Junction) → F.pre figure j }
    ensures { (verdict : Junction → Verdict) (of : Junction → ℕ)
        → ((j : Junction) (x : Result ℕ Refusal) → F.post figure j x → x ≡ answered (verdict j) (of j))
        → result ≡ figure_of (first_refusal (reading junction.now).verdict (verdict (reading junction.now).junction)) (of (reading junction.now).junction) }
{
    match junction_file::read(junction) {
        Ok(j) => Figure::from(figure(j)),
        Err(r) => Figure::from(Err(r)),
    }
}

// The intergreen time from one stream to another, in seconds.
#[tactic(auto, unfolding(crate::specs::Answers::intergreen_answer))]
#[unsafe(no_mangle)]
pub extern "C" fn givendra_intergreen(junction: &[u8], from: usize, to: usize) -> Figure
    ensures { result ≡ intergreen_answer junction.now from to }
{
    figure_in(junction, |j| intergreen(j, from, to))
}

#[tactic(auto, unfolding(crate::specs::Answers::intergreen_verdict))]
fn intergreen(j: Junction, from: usize, to: usize) -> Result<u32, Refusal>
    ensures { result ≡ answered (intergreen_verdict j from to) (pair_entry j from to) }
{
    ask(junction_places::exists(j, from), 7, from)?;
    ask(junction_places::exists(j, to), 7, to)?;
    Ok(junction_figures::pair_entry(j, from, to) as u32)
}

// The needed green of a stream at a cycle, both in seconds.
#[tactic(auto, unfolding(crate::specs::Answers::need_answer))]
#[unsafe(no_mangle)]
pub extern "C" fn givendra_need(junction: &[u8], stream: usize, cycle: u16) -> Figure
    ensures { result ≡ need_answer junction.now stream cycle }
{
    figure_in(junction, |j| need(j, stream, cycle))
}

#[tactic(auto, unfolding(crate::specs::Answers::need_verdict))]
fn need(j: Junction, stream: usize, cycle: u16) -> Result<u32, Refusal>
    ensures { result ≡ answered (need_verdict j stream cycle) (stream_need j stream cycle) }
{
    ask(junction_places::exists(j, stream), 7, stream)?;
    ask(plan_file::cycle_in_range(cycle), 13, 0)?;
    Ok(junction_figures::stream_need(j, stream, cycle))
}

// The saturation flow of a car stream, in E/h.
#[tactic(auto, unfolding(crate::specs::Answers::saturation_answer))]
#[unsafe(no_mangle)]
pub extern "C" fn givendra_saturation_flow(junction: &[u8], stream: usize) -> Figure
    ensures { result ≡ saturation_answer junction.now stream }
{
    figure_in(junction, |j| saturation_flow(j, stream))
}

#[tactic(auto, unfolding(crate::specs::Answers::car_verdict))]
fn saturation_flow(j: Junction, stream: usize) -> Result<u32, Refusal>
    ensures { result ≡ answered (car_verdict j stream) (stream_saturation j stream) }
{
    ask(junction_questions::count_refers(j, stream), 7, stream)?;
    Ok(junction_figures::stream_saturation(j, stream))
}

// The flow ratio of a car stream, in ten-thousandths.
#[tactic(auto, unfolding(crate::specs::Answers::ratio_answer))]
#[unsafe(no_mangle)]
pub extern "C" fn givendra_flow_ratio(junction: &[u8], stream: usize) -> Figure
    ensures { result ≡ ratio_answer junction.now stream }
{
    figure_in(junction, |j| flow_ratio(j, stream))
}

#[tactic(auto, unfolding(crate::specs::Answers::car_verdict))]
fn flow_ratio(j: Junction, stream: usize) -> Result<u32, Refusal>
    ensures { result ≡ answered (car_verdict j stream) (stream_ratio j stream) }
{
    ask(junction_questions::count_refers(j, stream), 7, stream)?;
    Ok(junction_figures::stream_ratio(j, stream))
}

// The delay and the level of service of a car stream in a plan.
#[tactic(auto, unfolding(crate::specs::Answers::delay_answer))]
#[unsafe(no_mangle)]
pub extern "C" fn givendra_delay(junction: &[u8], plan: &[u8], stream: usize) -> DelayAnswer
    ensures { result ≡ delay_answer junction.now plan.now stream }
{
    DelayAnswer::from(delays::delay(junction, plan, stream))
}

impl From<Result<Told, Refusal>> for DelayAnswer {
    ghost from_gives = { λ v r. r ≡ answer_of_delay v };

    fn from(v: Result<Told, Refusal>) -> DelayAnswer {
        match v {
            Ok(told) => told_answer(told),
            Err(r) => DelayAnswer {
                place: r.place,
                refusal: r.number,
                outcome: 0,
                level: 0,
                value: 0.0,
            },
        }
    }
}

#[tactic(auto, unfolding(service_level::specs::Delays::outcome, service_level::specs::Delays::value))]
fn told_answer(told: Told) -> DelayAnswer
    ensures { result ≡ told_answer told.service told.level }
{
    let letter = service_level::letter(told.level);
    match told.service {
        Service::Delay(d) => DelayAnswer {
            place: 0,
            refusal: 0,
            outcome: 1,
            level: letter,
            value: d,
        },
        Service::Oversaturated(u) => DelayAnswer {
            place: 0,
            refusal: 0,
            outcome: 2,
            level: letter,
            value: u,
        },
        Service::NoRed => DelayAnswer {
            place: 0,
            refusal: 0,
            outcome: 3,
            level: letter,
            value: 0.0,
        },
    }
}

// Portable signals for a narrowed stretch: the table's t and L in tenths of a second, the cycle, and start and length of each approach's green, in
// seconds.
#[repr(C)]
#[derive(Clone, Copy)]
pub struct PortableAnswer {
    pub place: usize,
    pub refusal: u8,
    pub clearing_time: u16,
    pub lost_time: u16,
    pub cycle: u16,
    pub first_start: u16,
    pub first_length: u16,
    pub second_start: u16,
    pub second_length: u16,
}

// Works out portable signals for a stretch in metres, a speed in km/h and two approaches.
#[tactic(auto, unfolding(crate::specs::Answers::portable_answer))]
#[unsafe(no_mangle)]
pub extern "C" fn givendra_portable(
    stretch: usize,
    speed: usize,
    first: Approach,
    second: Approach,
) -> PortableAnswer
    ensures { result ≡ portable_answer stretch speed first second }
{
    PortableAnswer::from(roadworks::work_out(stretch, speed, first, second))
}

impl From<Result<Timing, Refusal>> for PortableAnswer {
    ghost from_gives = { λ v r. r ≡ answer_of_portable v };

    #[tactic(auto, unfolding(roadworks::specs::Roadworks::refusal, roadworks::specs::Roadworks::refused_at, roadworks::specs::Roadworks::figures))]
    fn from(v: Result<Timing, Refusal>) -> PortableAnswer {
        match v {
            Ok(timing) => timed_answer(timing),
            Err(r) => PortableAnswer {
                place: r.place,
                refusal: r.number,
                clearing_time: 0,
                lost_time: 0,
                cycle: 0,
                first_start: 0,
                first_length: 0,
                second_start: 0,
                second_length: 0,
            },
        }
    }
}

fn timed_answer(timing: Timing) -> PortableAnswer
    ensures { result ≡ timed_answer timing }
{
    PortableAnswer {
        place: 0,
        refusal: 0,
        clearing_time: timing.table.clearing,
        lost_time: timing.table.lost,
        cycle: timing.cycle,
        first_start: timing.greens.first.start,
        first_length: timing.greens.first.length,
        second_start: timing.greens.second.start,
        second_length: timing.greens.second.length,
    }
}

// A count record of a lent list.
#[repr(C)]
#[derive(Clone, Copy)]
pub struct CountRecord {
    pub stream: u8,
    pub count_day: u16,
    pub file_day: u16,
    pub flow: u16,
    pub period: u8,
}

// The higher of two ranks: the highest so far, and that of a record. Its file day has no part in it.
#[tactic(auto, unfolding(crate::specs::LentList::record_rank))]
fn newer_record(best: u32, wanted: Wanted, r: CountRecord) -> u32
    ensures { result ≡ max best (record_rank wanted r) }
{
    let count = Count {
        stream: r.stream,
        day: r.count_day,
        flow: r.flow,
        period: r.period,
    };
    counts::newer(best, wanted, count)
}

// The flow of a stream in a period by a lent list of counts, in E/h.
#[unsafe(no_mangle)]
pub extern "C" fn givendra_newest_count(
    list: &[CountRecord],
    stream: usize,
    design_day: u16,
    period: usize,
) -> Figure
    ensures { result ≡ newest_answer list.now (wanted stream design_day period) }
{
    let wanted = Wanted {
        stream,
        day: design_day,
        period,
    };
    let mut best: u32 = 0;
    for place in 0..list.len() {
        best = newer_record(best, wanted, list[place]);
    }
    Figure::from(flow_of_rank(stream, best))
}

fn flow_of_rank(stream: usize, rank: u32) -> Result<u32, Refusal>
    ensures { result ≡ answered (ask (leb 1 rank) 9 stream Passed) (rank_flow rank) }
{
    ask(1 <= rank, 9, stream)?;
    Ok(counts::flow(rank) as u32)
}
