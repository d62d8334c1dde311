ghost use Rattle.std.specs.Prelude.{IfOk};
ghost use Rattle.survey.specs.Tracks.{Law, fresh};

use crate::call::{Answer, Call};
use crate::survey::Survey;
use operators::operator::Operator;
use std::alloc::{AllocError, Global};

// Opens a survey of the operator, makes the calls one after another, and gives their answers.
pub fn run<O: Operator + Drop>(
    alloc: Global,
    operator: O,
    calls: &[Call],
) -> Result<Vec<Answer>, AllocError>
    ensures law { IfOk result (λ answers. Law (O.Operator.span operator) (O.Operator.means operator) (fresh 0)
        calls.now answers.items) }
{
    let mut survey = Survey::open(operator);
    let mut answers = Vec::new(alloc);
    // A loop: of a chain whose closure changes the survey nothing is known afterwards.
    for call in calls {
        answers.push(survey.answer(*call))?;
    }
    Ok(answers)
}
