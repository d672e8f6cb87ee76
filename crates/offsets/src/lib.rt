// Adds one offset to every start of a plan file, modulo the cycle, in the lent file itself (document 02, 2026-06).
#![tactic(auto)]

ghost use Rattle.std.specs.Prelude.{◌≡◌, ◌+◌, ◌≤◌, ◌<◌, length};
ghost use Rattle.limits.specs.Limits.{most_streams};
ghost use Rattle.fields.specs.Bytes.{number_at};
ghost use Rattle.plan_file.specs.WellFormed.{WellFormed};
ghost use Rattle.offsets.specs.Shifting.{start_place, with_number, moved as moved_of, shifted, file_verdict, file_shifted, shift_verdict, shifted_plan};

use fields::{Refusal, ask};

// The answer to every two sequences of bytes and every offset: nothing refused, and in the lent plan file every start is (start + offset) modulo
// the cycle, and every other byte as it was; or the first refusal with its number and place, and no byte is altered. The junction's
// questions 1 to 9 come first, then the plan's 11 to 13; then 24, place 0: is the offset below the cycle? The judge's rules are not asked.
#[tactic(auto, unfolding(crate::specs::Shifting::shift_verdict, crate::specs::Shifting::shifted_plan, crate::specs::Shifting::file_shifted))]
pub fn shift(junction: &[u8], plan: &mut [u8], offset: usize) -> Result<(), Refusal>
    ensures result { result ≡ shift_verdict junction.now plan.old offset }
    ensures lent { plan.new ≡ shifted_plan junction.now plan.old offset }
{
    let j = junction_file::read(junction)?;
    shift_file(plan, j.held.streams, offset)
}

// The same with the plan file of a junction that is taken, which has so many streams.
#[tactic(auto, unfolding(crate::specs::Shifting::file_shifted))]
fn shift_file(plan: &mut [u8], streams: usize, offset: usize) -> Result<(), Refusal>
    requires { streams ≤ most_streams }
    ensures result { result ≡ file_verdict plan.old streams offset }
    ensures lent { plan.new ≡ file_shifted plan.old streams offset }
{
    file_verdict(plan, streams, offset)?;
    shift_starts(plan, streams, offset);
    Ok(())
}

#[tactic(auto, unfolding(crate::specs::Shifting::file_verdict))]
fn file_verdict(plan: &[u8], streams: usize, offset: usize) -> Result<(), Refusal>
    ensures { result ≡ file_verdict plan.now streams offset }
{
    plan_file::verdict(plan, streams)?;
    ask(offset < fields::number(plan, 3) as usize, 24, 0)
}

#[tactic(auto, unfolding(crate::specs::Shifting::start_place))]
fn shift_starts(plan: &mut [u8], streams: usize, offset: usize)
    requires formed { WellFormed plan.old streams }
    requires few { streams ≤ most_streams }
    requires below { offset < number_at plan.old 3 }
    ensures { plan.new ≡ shifted plan.old offset streams }
{
    let cycle = fields::number(plan, 3);
    for i in 0..streams {
        shift_start(plan, start_place(i), cycle, offset);
    }
}

// Where the start of stream i + 1 stands, after its field's tag, body length and stream.
#[tactic(auto, unfolding(plan_file::specs::Writing::plan_size, crate::specs::Shifting::start_place))]
fn start_place(i: usize) -> usize
    requires { i ≤ most_streams }
    ensures { result ≡ start_place i }
{
    plan_file::plan_size(i) + 4
}

// Stores the two bytes of a start, and no other.
#[tactic(auto, unfolding(crate::specs::Shifting::with_number))]
fn shift_start(plan: &mut [u8], at: usize, cycle: u16, offset: usize)
    requires within { at + 1 < length plan.old }
    requires in_cycle { number_at plan.old at < cycle }
    requires below { offset < cycle }
    ensures { plan.new ≡ with_number plan.old at (moved_of cycle offset (number_at plan.old at)) }
{
    let start = moved(cycle, offset, fields::number(plan, at));
    plan[at] = plan_file::high(start);
    plan[at + 1] = plan_file::low(start);
}

// The sum is below twice the cycle, and need not fit one byte.
#[tactic(auto, unfolding(crate::specs::Shifting::moved))]
fn moved(cycle: u16, offset: usize, start: u16) -> u16
    requires below { offset < cycle }
    requires in_cycle { start < cycle }
    ensures { result ≡ moved_of cycle offset start }
{
    ((start as usize + offset) % cycle as usize) as u16
}
