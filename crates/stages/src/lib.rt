// The process of a give-up by value: whose turn it is, what a step makes of it, and when it is complete. Each step matches the stage, and writes the struct anew.
#![tactic(auto, unfolding(rules::proofs::Computed::Computed))]

ghost use Rattle.std.specs.Prelude.{◌≡◌};
ghost use Rattle.rules.specs.ProcessRows.{row_of_process, with_stage, opened_process, stage_number};
ghost use Rattle.rules.specs.GiveUp as GiveUp;
ghost use Rattle.rules.specs.GiveUp.{has_figures, has_turn, is_complete};

use rules::{Process, Stage, Step};

// "While pending, the initiator may cancel and the taker claim or refuse. The giver's clearing member approves any time before the end, the taker's only after the claim."; each of them once.
pub fn has_turn(step: Step, p: Process) -> bool
    ensures { result ≡ has_turn step (row_of_process p) }
{
    match (step, p.stage) {
        (Step::Claim | Step::Cancel | Step::Refuse, Stage::Pending) => true,
        (Step::ApproveGiver, Stage::Pending | Stage::Claimed) => p.giver == 0,
        (Step::ApproveTaker, Stage::Claimed) => p.taker == 0,
        _ => false,
    }
}

// The figures that a step names are the row's.
pub fn has_figures(p: Process, suffix: i64, giving: i64, taking: i64, series: i64) -> bool
    ensures { result ≡ has_figures suffix giving taking series (row_of_process p) }
{
    p.suffix == suffix && p.giving == giving && p.taking == taking && p.series == series
}

// The process with another stage.
fn with_stage(p: Process, stage: Stage) -> Process
    ensures { row_of_process result ≡ with_stage (stage_number stage) (row_of_process p) }
{
    Process { stage, ..p }
}

pub fn opened(process: i64, id: i64, suffix: i64, giving: i64, taking: i64, series: i64) -> Process
    ensures { row_of_process result ≡ opened_process process id suffix giving taking series }
{
    Process {
        process,
        id,
        suffix,
        giving,
        taking,
        series,
        giver: 0,
        taker: 0,
        stage: Stage::Pending,
    }
}

pub fn stepped(step: Step, p: Process) -> Process
    ensures { row_of_process result ≡ GiveUp.stepped step (row_of_process p) }
{
    match step {
        Step::Open => p,
        Step::Claim => with_stage(p, Stage::Claimed),
        Step::Cancel => with_stage(p, Stage::Cancelled),
        Step::Refuse => with_stage(p, Stage::Refused),
        Step::ApproveGiver => Process { giver: 1, ..p },
        Step::ApproveTaker => Process { taker: 1, ..p },
    }
}

// Claimed, with both approvals.
pub fn is_complete(p: Process) -> bool
    ensures { result ≡ is_complete (row_of_process p) }
{
    match p.stage {
        Stage::Claimed => p.giver == 1 && p.taker == 1,
        _ => false,
    }
}

// A process that is complete is done.
pub fn finished(p: Process) -> Process
    ensures { row_of_process result ≡ GiveUp.finished (row_of_process p) }
{
    if is_complete(p) {
        with_stage(p, Stage::Done)
    } else {
        p
    }
}
