// A step of a give-up on sound tables (document 02, K3): its opening, or a later one.
#![tactic(auto)]

ghost use Rattle.std.specs.Prelude.{◌≡◌};
ghost use Rattle.rules.specs.Reasons.{answer_of};
ghost use Rattle.rules.specs.Tables.{all_tables};
ghost use Rattle.rules.specs.Handle.{answered_by};
ghost use Rattle.soundness.specs.SoundTables.{SoundTables};
ghost use Rattle.give_up_steps.specs.HandledIn.{HandledIn};
ghost use Rattle.give_up_steps.specs.Terms.{step_of};

use give_up_steps::Terms;
use rules::Step;
use rules::refusals::{Confirmation, Refusal};

pub fn on_sound(
    records: &mut [i64],
    positions: &mut [i64],
    processes: &mut [i64],
    step: Step,
    g: Terms,
) -> Result<Confirmation, Refusal>
    requires { SoundTables (all_tables records.old positions.old processes.old) }
    ensures { HandledIn (all_tables records.old positions.old processes.old) (step_of step g) (answered_by (answer_of result) (all_tables records.new positions.new processes.new)) }
{
    match step {
        Step::Open => opening::on_sound(records, positions, processes, g),
        _ => later_steps::on_sound(records, positions, processes, step, g),
    }
}
