// Works out a plan for a junction file, and writes it (document 01, "Working out a plan").
#![tactic(auto)]

ghost use Rattle.std.specs.Prelude.{◌≡◌, ◌≤◌, length, IfOk};
ghost use Rattle.junction_file.specs.Taken.{Taken};
ghost use Rattle.planner.specs.WorkingOut.{searched, worked_or_refused, junction_worked, junction_buffer, worked, buffer as buffer_after};

use fields::{Refusal, ask};
use junction::Junction;
use limits::NO_CYCLE;

// What was worked out: the cycle in seconds, how many lengths were tried and how many bytes the plan file has.
#[derive(Clone, Copy, Debug, PartialEq, Eq)]
pub struct WorkedOut {
    pub cycle: u16,
    pub tried: u16,
    pub size: usize,
}

// The answer to every junction file and every lent buffer. Where nothing is refused the plan file stands in the buffer from its first byte,
// 5 bytes and 8 for each stream, and later bytes are untouched. A refusal alters no byte: the junction's questions 1 to 9 come first; then
// 21, the flow ratios sum to 10,000 or more; 22, no length from T0 to 180 s works; 23, the buffer is too short; each of these at place 0.
pub fn work_out(junction: &[u8], out: &mut [u8]) -> Result<WorkedOut, Refusal>
    ensures result { result ≡ worked_or_refused (worked junction.now (length out.old)) }
    ensures lent { out.new ≡ buffer_after junction.now out.old }
    ensures within { IfOk result (λ w. w.size ≤ length out.old) }
{
    let j = junction_file::read(junction)?;
    work_out_junction(j, out)
}

fn work_out_junction(j: Junction, out: &mut [u8]) -> Result<WorkedOut, Refusal>
    requires { Taken j }
    ensures result { result ≡ worked_or_refused (junction_worked j (length out.old)) }
    ensures lent { out.new ≡ junction_buffer j out.old }
{
    let tables = junction_tables::tables_of(j);
    let q = junction_phases::phases_at(&tables, 0);
    let sums = phase_lengths::sums_of(q);
    ask(sums.ratios < 10000, 21, 0)?;
    let found = cycle_search::find_cycle(&tables, q);
    let streams = j.held.streams;
    calculated(found.cycle, plan_file::has_room(streams, out.len()))?;
    plan_file::write(found.plan, streams, out);
    Ok(WorkedOut {
        cycle: found.cycle,
        tried: found.tried,
        size: plan_file::plan_size(streams),
    })
}

// 22 and 23.
fn calculated(cycle: u16, room: bool) -> Result<(), Refusal>
    ensures { result ≡ searched cycle room }
{
    ask(cycle < NO_CYCLE, 22, 0)?;
    ask(room, 23, 0)
}
