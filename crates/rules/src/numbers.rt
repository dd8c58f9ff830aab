// The steps and stages of a give-up, told from their letters and numbers.
ghost use Rattle.rules.specs.Numbers.{StepTold, StageTold};

use crate::codes::{CANCELLED, CLAIMED, DONE, PENDING, REFUSED};
use crate::{Stage, Step};

// A letter that no step has.
#[derive(Clone, Copy, Debug, PartialEq, Eq)]
pub struct NoStep(pub u8);

// A number that no stage has.
#[derive(Clone, Copy, Debug, PartialEq, Eq)]
pub struct NoStage(pub i64);

impl TryFrom<u8> for Step {
    type Error = NoStep;

    ghost try_from_gives = { StepTold };

    #[tactic(auto, unfolding(crate::specs::Reader::step_of_letter))]
    fn try_from(letter: u8) -> Result<Step, NoStep> {
        match letter {
            b'O' => Ok(Step::Open),
            b'C' => Ok(Step::Claim),
            b'X' => Ok(Step::Cancel),
            b'R' => Ok(Step::Refuse),
            b'G' => Ok(Step::ApproveGiver),
            b'T' => Ok(Step::ApproveTaker),
            _ => Err(NoStep(letter)),
        }
    }
}

impl TryFrom<i64> for Stage {
    type Error = NoStage;

    ghost try_from_gives = { StageTold };

    #[tactic(auto, unfolding(crate::specs::ProcessRows::stage_number))]
    fn try_from(number: i64) -> Result<Stage, NoStage> {
        match number {
            PENDING => Ok(Stage::Pending),
            CLAIMED => Ok(Stage::Claimed),
            REFUSED => Ok(Stage::Refused),
            CANCELLED => Ok(Stage::Cancelled),
            DONE => Ok(Stage::Done),
            _ => Err(NoStage(number)),
        }
    }
}
