// Adds an offset in seconds to every start of a plan, modulo its cycle: the names of a junction file and of a plan file as arguments, then the
// offset, a decimal number. Prints the plan as `plan` does: the cycle, then each stream's number, start and length in seconds; or the refusal. Where
// a fourth argument names a new file, the shifted plan file is written there, before the plan is printed; where something is refused, no file is
// written. The plan file that is read stays as it is. What fails is told on standard error.
#![tactic(auto)]

use console::{JUNCTION_ROOM, PLAN_ROOM, Program};

fn main(rt: HostRuntime) {
    let program = Program::new(
        &rt,
        "shift",
        "JUNCTION-FILE PLAN-FILE OFFSET [NEW-PLAN-FILE]",
    );
    let Some(offset) = offset_argument(program) else {
        program.usage();
        return;
    };
    let mut junction = [0; JUNCTION_ROOM];
    let mut plan = [0; PLAN_ROOM];
    let Some((junction, plan)) = program.read_two(&mut junction, &mut plan) else {
        return;
    };
    match offsets::shift(junction, plan, offset) {
        Ok(()) => plan_text::tell_plan(program, 4, plan),
        Err(refusal) => program.print_line(refusal),
    }
}

// The offset, where the other arguments are right too.
fn offset_argument(program: Program<'_>) -> Option<usize> {
    if program.has_argument(5)
        || !program.is_name(1)
        || !program.is_name(2)
        || !program.is_name(4)
    {
        return None;
    }
    program.number(3)
}
