// The delay of a car stream over a junction file and a plan file (document 02, 2026-05).
#![tactic(auto)]

ghost use Rattle.std.specs.Prelude.{◌≡◌};
ghost use Rattle.junction_file.specs.Taken.{Taken};
ghost use Rattle.delays.specs.Answer.{stream_figures, answer_for, answer};

use fields::{Refusal, ask};
use junction::Junction;
use plan_file::Plan;
use service_level::{DelayFigures, Level, Service};

// What is told of a car stream, and its level of service.
#[derive(Clone, Copy)]
pub struct Told {
    pub service: Service,
    pub level: Level,
}

// The answer to every two sequences of bytes and every number of a stream. The judge's refusal comes first; then 9, place the number asked for,
// where it is not that of an existing car. Neither file is altered.
#[tactic(auto, unfolding(crate::specs::Answer::answer, crate::specs::Answer::answer_for, crate::specs::Answer::delay_verdict, plan_judge::specs::Judgement::judgement, crate::specs::Answer::unless))]
pub fn delay(junction: &[u8], plan: &[u8], stream: usize) -> Result<Told, Refusal>
    ensures { result ≡ answer junction.now plan.now stream }
{
    let j = junction_file::read(junction)?;
    delay_for(j, plan, stream)
}

// That of a junction that is taken.
#[tactic(auto, unfolding(crate::specs::Answer::answer_for, crate::specs::Answer::car_asked, crate::specs::Answer::told, crate::specs::Answer::unless))]
fn delay_for(j: Junction, plan: &[u8], stream: usize) -> Result<Told, Refusal>
    requires { Taken j }
    ensures { result ≡ answer_for j plan.now stream }
{
    plan_judge::judge_plan(j, plan)?;
    ask(junction_questions::count_refers(j, stream), 9, stream)?;
    let figures = stream_figures(j, plan_file::plan_of(plan), stream);
    Ok(Told {
        service: service_level::service_of(figures),
        level: service_level::level_of(figures),
    })
}

// The figures of a car stream with the green that it has in a plan.
#[tactic(auto, unfolding(crate::specs::Answer::stream_figures))]
fn stream_figures(j: Junction, p: Plan, stream: usize) -> DelayFigures
    ensures { result ≡ stream_figures j p stream }
{
    let green = plan_file::green_of(p, stream);
    let flow = junction_figures::stream_flow(j, stream);
    let saturation = junction_figures::stream_saturation(j, stream);
    service_level::figures(green.length, p.cycle, flow, saturation)
}
