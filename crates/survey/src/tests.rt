ghost use Rattle.std.specs.Prelude.{refl};
ghost use Rattle.std.proofs.Common.{lit≤};
ghost use Rattle.theory.proofs.Lattice.{sub_refl};

use crate::call::{Call, Granted};
use crate::run::run;
use crate::survey::Survey;
use operators::operator::Operator;
use sets::faults::SetFault;
use sets::set::Set;
use std::test::Fail;

// The operator of two signals for which every set is closed.
// The tests of pages have the same: to share it, a crate would have to hand it out.
#[derive(Clone, Copy)]
struct Every;

impl Operator for Every {
    const LETTER: u8 = b'E';

    ghost letter = { 69 };

    ghost span = { λ _. 2 };

    ghost means = { λ _ x. x };

    ghost closes = { λ _. record {
      narrow = lit≤ tt;
      below = λ x h. h;
      extends = λ x h. sub_refl x;
      grows = λ x y h k p. p;
      settles = λ x h. refl;
    } };

    fn mark(&self) -> u8 {
        Self::LETTER
    }

    fn width(&self) -> usize {
        2
    }

    fn closure(&self, set: Set) -> Set {
        set
    }
}

#[test]
fn lists_every_set_once(rt: HostRuntime) -> Result<(), Fail> {
    let mut survey = Survey::open(Every);
    for word in 0..4 {
        let (set, serial, trials) = survey.step()?;
        assert_eq!(rt; set.word(), word);
        assert_eq!(rt; serial, word + 1);
        assert!(rt; trials <= 2);
    }
    assert_eq!(rt; survey.step(), Err(SetFault::Ended));
    Ok(())
}

#[test]
fn seeks_and_rewinds(rt: HostRuntime) -> Result<(), Fail> {
    let mut survey = Survey::open(Every);
    assert_eq!(rt; survey.seek(Set::new(3, 0)?), Err(SetFault::OtherWidth));
    survey.seek(Set::new(2, 3)?)?;
    assert_eq!(rt; survey.step(), Ok((Set::new(2, 3)?, 1, 0)));
    assert_eq!(rt; survey.step(), Err(SetFault::Ended));
    survey.rewind();
    assert_eq!(rt; survey.step(), Ok((Set::new(2, 0)?, 1, 0)));
    Ok(())
}

#[test]
fn answers_each_call(rt: HostRuntime) -> Result<(), Fail> {
    let calls = [Call::Step, Call::Rewind, Call::Step];
    let answers = run(rt.alloc(), Every, &calls)?;
    let first = Ok(Granted::Listed {
        set: Set::new(2, 0)?,
        serial: 1,
        trials: 0,
    });
    assert_eq!(rt; answers.get(0).copied(), Some(first));
    assert_eq!(rt; answers.get(1).copied(), Some(Ok(Granted::Moved)));
    assert_eq!(rt; answers.get(2).copied(), Some(first));
    Ok(())
}
