ghost use Rattle.std.specs.Prelude.{◌≡◌, ◌^◌, ◌<◌, ◌≤◌};
ghost use Rattle.survey.specs.States.{count_of, sought_from, span_of};
ghost use Rattle.theory.specs.Words.{max_signals};

use crate::state::State;

mod calls;

// A survey of the closed sets of an operator, in the lectic order from a start on.
#[derive(Drop)]
pub struct Survey<O> {
    operator: O,
    width: usize,
    state: State,
    ghost narrow: { width ≤ max_signals },
    ghost spans: { span_of width state ≡ width },
    ghost within: { sought_from state < 2 ^ width },
    ghost counted: { count_of state ≤ sought_from state },
}
