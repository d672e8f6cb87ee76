// Judges a plan file for a junction file: two file names as arguments, the junction's first. Prints `accepted`, or `refused`, number and
// place. What fails is told on standard error.
#![tactic(auto)]

use console::{JUNCTION_ROOM, PLAN_ROOM, Program};

fn main(rt: HostRuntime) {
    let program = Program::new(&rt, "judge", "JUNCTION-FILE PLAN-FILE");
    if !program.has_two_names() {
        return;
    }
    let mut junction = [0; JUNCTION_ROOM];
    let mut plan = [0; PLAN_ROOM];
    let Some((junction, plan)) = program.read_two(&mut junction, &mut plan) else {
        return;
    };
    match plan_judge::judge(junction, plan) {
        Ok(()) => program.print_line("accepted"),
        Err(refusal) => program.print_line(refusal),
    }
}
