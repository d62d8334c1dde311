ghost use Rattle.std.specs.Prelude.{◌≡◌, suc, ◌≤◌, Ok, Err, IfSome, MatchOption};
ghost use Rattle.sets.specs.declared.faults.SetFault.TheVariants.{Ended as AtEnd};
ghost use Rattle.survey.specs.Calls.{Takes, of_seek, of_step, state_after};
ghost use Rattle.survey.specs.declared.call.Granted.TheVariants.{Listed, Moved};
ghost use Rattle.survey.specs.declared.call.Call.TheVariants.{Step, Seek, Rewind};
ghost use Rattle.survey.specs.States.{FreshAt};
ghost use Rattle.theory.specs.Words.{max_signals};

use super::Survey;
use crate::call::{Answer, Call, Granted};
use crate::next::{first_from, next_after};
use crate::state::State;
use operators::operator::Operator;
use sets::faults::SetFault;
use sets::set::Set;

impl<O: Operator> Survey<O> {
    // A survey of the operator that begins at the empty set.
    pub fn open(operator: O) -> Survey<O>
        ensures operator { result.operator ≡ operator }
        ensures width { result.width ≡ O.Operator.span operator }
        ensures start { FreshAt 0 result.state }
    {
        let width = operator.width();
        let start = empty(width);
        Survey {
            operator,
            width,
            state: State::Fresh { start },
        }
    }

    // Lists the set that was found, or refuses where there is none.
    fn list(&mut self, found: Option<(Set, usize)>, serial: u64) -> Answer
        requires fit { IfSome found (λ f. (f.0.width ≡ self.old.width) × (serial ≤ suc f.0.word)) }
        ensures answer { MatchOption found
            ((result ≡ Err AtEnd) × (self.new.state ≡ self.old.state))
            (λ f. (result ≡ Ok (Listed f.0 serial f.1))
            × (self.new.state ≡ state_after self.old.width f.0 serial)) }
        ensures operator { self.new.operator ≡ self.old.operator }
        ensures width { self.new.width ≡ self.old.width }
    {
        let (set, trials) = found.ok_or(SetFault::Ended)?;
        self.state = if set.word() + 1 == 1 << self.width {
            State::Ended
        } else {
            State::Running { last: set, serial }
        };
        Ok(Granted::Listed {
            set,
            serial,
            trials,
        })
    }

    // Makes one call: lists the next closed set, or begins anew.
    pub fn answer(&mut self, call: Call) -> Answer
        ensures takes { Takes O.Operator.span O.Operator.means call self.old result self.new }
    {
        match (call, &mut self.state) {
            (Call::Step, State::Fresh { start }) => {
                let found = first_from(&self.operator, *start);
                self.list(found, 1)
            }
            (Call::Step, State::Running { last, serial }) => {
                let found = next_after(&self.operator, *last);
                let next = *serial + 1;
                self.list(found, next)
            }
            (Call::Step, State::Ended) => Err(SetFault::Ended),
            (Call::Seek(set), state) => {
                if set.width() != self.width {
                    return Err(SetFault::OtherWidth);
                }
                *state = State::Fresh { start: set };
                Ok(Granted::Moved)
            }
            (Call::Rewind, state) => {
                let start = empty(self.width);
                *state = State::Fresh { start };
                Ok(Granted::Moved)
            }
        }
    }

    // The next closed set, with its number since the start and the number of signals tried; refused at the end.
    pub fn step(&mut self) -> Result<(Set, u64, usize), SetFault>
        ensures takes { Takes O.Operator.span O.Operator.means Step self.old (of_step result) self.new }
    {
        let Granted::Listed {
            set,
            serial,
            trials,
        } = self.answer(Call::Step)?
        else {
            return Err(SetFault::Ended);
        };
        Ok((set, serial, trials))
    }

    // Begins anew from a set; refused for a set of another width.
    pub fn seek(&mut self, set: Set) -> Result<(), SetFault>
        ensures takes { Takes O.Operator.span O.Operator.means (Seek set) self.old (of_seek result) self.new }
    {
        self.answer(Call::Seek(set))?;
        Ok(())
    }

    // Begins anew from the empty set.
    pub fn rewind(&mut self)
        ensures takes { Takes O.Operator.span O.Operator.means Rewind self.old (Ok Moved) self.new }
    {
        let _ = self.answer(Call::Rewind);
    }
}

// The empty set of a width.
fn empty(width: usize) -> Set
    requires { width ≤ max_signals }
    ensures width { result.width ≡ width }
    ensures word { result.word ≡ 0 }
{
    Set::new(width, 0).unwrap()
}
