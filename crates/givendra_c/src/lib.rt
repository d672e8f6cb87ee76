// The C library (include/givendra.h): the functions of `givendra` under the same names, for programs in other languages.
#![tactic(auto)]

ghost use Rattle.std.specs.Prelude.{◌≡◌, length};
ghost use Rattle.offsets.specs.Shifting.{shifted_plan};
ghost use Rattle.planner.specs.WorkingOut.{buffer as buffer_after};
ghost use Rattle.givendra.specs.Answers.{release, judge_answer, plan_answer, junction_answer, intergreen_answer, need_answer, saturation_answer, ratio_answer};
ghost use Rattle.givendra.specs.Answers.{delay_answer, shift_answer, portable_answer};
ghost use Rattle.givendra.specs.LentList.{wanted, newest_answer};

use givendra::{
    CountRecord, DelayAnswer, Figure, JudgeAnswer, JunctionAnswer, PlanAnswer, PortableAnswer,
};
use roadworks::Approach;

// The release, by which a caller sees that header and archive belong together.
#[unsafe(no_mangle)]
pub extern "C" fn givendra_release() -> u32
    ensures { result ≡ release }
{
    givendra::givendra_release()
}

// Judges a plan file for a junction file.
#[unsafe(no_mangle)]
pub extern "C" fn givendra_judge(junction: &[u8], plan: &[u8]) -> JudgeAnswer
    ensures { result ≡ judge_answer junction.now plan.now }
{
    givendra::givendra_judge(junction, plan)
}

// Adds an offset in seconds to every start of the lent plan file, modulo its cycle.
#[unsafe(no_mangle)]
pub extern "C" fn givendra_shift(junction: &[u8], plan: &mut [u8], offset: usize) -> JudgeAnswer
    ensures result { result ≡ shift_answer junction.now plan.old offset }
    ensures lent { plan.new ≡ shifted_plan junction.now plan.old offset }
{
    givendra::givendra_shift(junction, plan, offset)
}

// Works out a plan for a junction file, and writes its plan file into the lent buffer.
#[unsafe(no_mangle)]
pub extern "C" fn givendra_work_out(junction: &[u8], buffer: &mut [u8]) -> PlanAnswer
    ensures result { result ≡ plan_answer junction.now (length buffer.old) }
    ensures lent { buffer.new ≡ buffer_after junction.now buffer.old }
{
    givendra::givendra_work_out(junction, buffer)
}

// Reads a junction file.
#[unsafe(no_mangle)]
pub extern "C" fn givendra_read_junction(junction: &[u8]) -> JunctionAnswer
    ensures { result ≡ junction_answer junction.now }
{
    givendra::givendra_read_junction(junction)
}

// The intergreen time from one stream to another, in seconds.
#[unsafe(no_mangle)]
pub extern "C" fn givendra_intergreen(junction: &[u8], from: usize, to: usize) -> Figure
    ensures { result ≡ intergreen_answer junction.now from to }
{
    givendra::givendra_intergreen(junction, from, to)
}

// The needed green of a stream at a cycle, both in seconds.
#[unsafe(no_mangle)]
pub extern "C" fn givendra_need(junction: &[u8], stream: usize, cycle: u16) -> Figure
    ensures { result ≡ need_answer junction.now stream cycle }
{
    givendra::givendra_need(junction, stream, cycle)
}

// The saturation flow of a car stream, in E/h.
#[unsafe(no_mangle)]
pub extern "C" fn givendra_saturation_flow(junction: &[u8], stream: usize) -> Figure
    ensures { result ≡ saturation_answer junction.now stream }
{
    givendra::givendra_saturation_flow(junction, stream)
}

// The flow ratio of a car stream, in ten-thousandths.
#[unsafe(no_mangle)]
pub extern "C" fn givendra_flow_ratio(junction: &[u8], stream: usize) -> Figure
    ensures { result ≡ ratio_answer junction.now stream }
{
    givendra::givendra_flow_ratio(junction, stream)
}

// The delay and the level of service of a car stream in a plan.
#[unsafe(no_mangle)]
pub extern "C" fn givendra_delay(junction: &[u8], plan: &[u8], stream: usize) -> DelayAnswer
    ensures { result ≡ delay_answer junction.now plan.now stream }
{
    givendra::givendra_delay(junction, plan, stream)
}

// Works out portable signals for a stretch in metres, a speed in km/h and two approaches.
#[unsafe(no_mangle)]
pub extern "C" fn givendra_portable(
    stretch: usize,
    speed: usize,
    first: Approach,
    second: Approach,
) -> PortableAnswer
    ensures { result ≡ portable_answer stretch speed first second }
{
    givendra::givendra_portable(stretch, speed, first, second)
}

// The flow of a stream in a period by a lent list of counts, in E/h.
#[unsafe(no_mangle)]
pub extern "C" fn givendra_newest_count(
    list: &[CountRecord],
    stream: usize,
    design_day: u16,
    period: usize,
) -> Figure
    ensures { result ≡ newest_answer list.now (wanted stream design_day period) }
{
    givendra::givendra_newest_count(list, stream, design_day, period)
}
