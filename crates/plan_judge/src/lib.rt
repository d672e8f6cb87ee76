// Judges a plan file for a junction file (document 01, "Judging a plan").
#![tactic(auto)]

ghost use Rattle.std.specs.Prelude.{◌≡◌};
ghost use Rattle.junction_file.specs.Taken.{Taken};
ghost use Rattle.plan_judge.specs.Judgement.{plan_judgement, judgement};

use fields::Refusal;
use junction::Junction;

// The answer to every two sequences of bytes: nothing where the plan is accepted, else the first refusal with its number and place. The
// junction's questions 1 to 9 come first, then the plan's 11 to 13, then the rules: 15 needed green and 16 capacity, place the stream,
// and 17 conflict zones, place the zone's number. Neither file is altered.
#[tactic(auto, unfolding(crate::specs::Judgement::judgement))]
pub fn judge(junction: &[u8], plan: &[u8]) -> Result<(), Refusal>
    ensures { result ≡ judgement junction.now plan.now }
{
    let j = junction_file::read(junction)?;
    judge_plan(j, plan)
}

// The plan's questions and the rules, of a junction that is taken.
#[tactic(auto, unfolding(crate::specs::Judgement::plan_judgement))]
pub fn judge_plan(j: Junction, plan: &[u8]) -> Result<(), Refusal>
    requires { Taken j }
    ensures { result ≡ plan_judgement j plan.now }
{
    plan_file::verdict(plan, j.held.streams)?;
    plan_rules::verdict(j, plan_file::plan_of(plan))
}
