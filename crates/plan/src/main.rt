// Works out a plan for a junction file, which the first argument names or standard input is, and prints it: the cycle, then each stream's number,
// start and length in seconds; or the refusal. Where a second argument names a new file, the plan file is written there, before the plan is
// printed. What fails is told on standard error.
#![tactic(auto)]

use console::{JUNCTION_ROOM, Program};

// Room for a plan of sixteen streams.
const PLAN_ROOM: usize = 133;

fn main(rt: HostRuntime) {
    let program = Program::new(&rt, "plan", "[JUNCTION-FILE [NEW-PLAN-FILE]]");
    if program.has_argument(3) || !program.is_name(1) || !program.is_name(2) {
        program.usage();
        return;
    }
    let mut junction = [0; JUNCTION_ROOM];
    let Some(junction) = program.read_input(1, &mut junction) else {
        return;
    };
    let mut plan = [0; PLAN_ROOM];
    match planner::work_out(junction, &mut plan) {
        Ok(worked) => plan_text::tell_plan(program, 2, &plan[..worked.size]),
        Err(refusal) => program.print_line(refusal),
    }
}
