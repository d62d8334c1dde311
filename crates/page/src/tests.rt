ghost use Rattle.theory.proofs.Lattice.{sub_refl};
ghost use Rattle.std.proofs.Common.{lit≤};
ghost use Rattle.std.specs.Prelude.{refl};

use crate::faults::PageFault;
use crate::page::Page;
use operators::operator::Operator;
use output::faults::OutputFault;
use sets::faults::SetFault;
use sets::rule::Rule;
use sets::set::Set;
use std::test::Fail;
use table::place::Place;
use view::table_view::TableView;

// The operator of two signals for which every set is closed.
// The tests of surveys have the same: to share it, a crate would have to hand it out.
#[derive(Clone, Copy)]
struct Every;

impl Operator for Every {
    const LETTER: u8 = b'E';

    ghost letter = { 69 };

    ghost span = { λ _. 2 };

    ghost means = { λ _ x. x };

    ghost closes = { λ _. record {
      narrow = lit≤ tt;
      below = λ x h. h;
      extends = λ x h. sub_refl x;
      grows = λ x y h k p. p;
      settles = λ x h. refl;
    } };

    fn mark(&self) -> u8 {
        Self::LETTER
    }

    fn width(&self) -> usize {
        2
    }

    fn closure(&self, set: Set) -> Set {
        set
    }
}

// The places of two signal names of one byte each.
const PLACES: [Place; 2] = [
    Place {
        start: 0,
        length: 1,
    },
    Place {
        start: 1,
        length: 1,
    },
];

#[test]
fn fits_to_the_last_byte(rt: HostRuntime) -> Result<(), Fail> {
    let mut out = [0; 32];
    let view = TableView::new(b"pq", &[], &PLACES);
    let both = Set::new(2, 3)?;
    let mut page = Page::begin_closed(&mut out, 0, &Every, &view)?;
    let line = page.line(&mut out, &view, 1, &both);
    let end = page.foot(&mut out);
    assert_eq!(rt; line, Ok(()));
    assert_eq!(rt; end, Ok(29));
    assert!(rt; out == *b"closed,E,2\nset,1,2,p,q\nend,1\n\0\0\0");
    Ok(())
}

#[test]
fn refuses_a_line_for_one_byte(rt: HostRuntime) -> Result<(), Fail> {
    let mut out = [0; 31];
    let view = TableView::new(b"pq", &[], &PLACES);
    let both = Set::new(2, 3)?;
    let wide = Set::new(3, 3)?;
    let mut page = Page::begin_closed(&mut out, 0, &Every, &view)?;
    let line = page.line(&mut out, &view, 1, &both);
    let other = page.line(&mut out, &view, 1, &wide);
    let end = page.foot(&mut out);
    assert_eq!(rt; line, Err(PageFault::Output(OutputFault::Full)));
    assert_eq!(rt; other, Err(PageFault::Set(SetFault::OtherWidth)));
    assert_eq!(rt; end, Ok(17));
    assert!(rt; out == *b"closed,E,2\nend,0\n\0\0\0\0\0\0\0\0\0\0\0\0\0\0");
    Ok(())
}

#[test]
fn puts_rules_to_the_last_byte(rt: HostRuntime) -> Result<(), Fail> {
    let mut out = [0; 52];
    let view = TableView::new(b"pq", &[], &PLACES);
    let first = Rule::new(Set::new(2, 1)?, Set::new(2, 3)?)?;
    let second = Rule::new(Set::new(2, 0)?, Set::new(2, 2)?)?;
    let third = Rule::new(Set::new(2, 2)?, Set::new(2, 2)?)?;
    let mut page = Page::begin_rules(&mut out, 0, &view)?;
    let one = page.line(&mut out, &view, 0, &first);
    let two = page.line(&mut out, &view, 0, &second);
    let three = page.line(&mut out, &view, 0, &third);
    let end = page.foot(&mut out);
    assert_eq!(rt; one, Ok(()));
    assert_eq!(rt; two, Ok(()));
    assert_eq!(rt; three, Ok(()));
    assert_eq!(rt; end, Ok(49));
    assert!(rt; out == *b"rules,2\nrule,1,q,1,p\nrule,0,1,p\nrule,1,p,0\nend,3\n\0\0\0");
    Ok(())
}

#[test]
fn refuses_a_rule_for_one_byte(rt: HostRuntime) -> Result<(), Fail> {
    let mut out = [0; 29];
    let view = TableView::new(b"pq", &[], &PLACES);
    let rule = Rule::new(Set::new(2, 1)?, Set::new(2, 3)?)?;
    let wide = Rule::new(Set::new(3, 1)?, Set::new(3, 3)?)?;
    let mut page = Page::begin_rules(&mut out, 0, &view)?;
    let line = page.line(&mut out, &view, 0, &rule);
    let other = page.line(&mut out, &view, 0, &wide);
    let end = page.foot(&mut out);
    assert_eq!(rt; line, Err(PageFault::Output(OutputFault::Full)));
    assert_eq!(rt; other, Err(PageFault::Set(SetFault::OtherWidth)));
    assert_eq!(rt; end, Ok(14));
    assert!(rt; out == *b"rules,2\nend,0\n\0\0\0\0\0\0\0\0\0\0\0\0\0\0\0");
    Ok(())
}

#[test]
fn refuses_a_head_for_one_byte(rt: HostRuntime) {
    let mut out = [0; 16];
    let view = TableView::new(b"pq", &[], &PLACES);
    let begun = match Page::begin_rules(&mut out, 0, &view) {
        Ok(page) => page.foot(&mut out),
        Err(refusal) => Err(refusal),
    };
    assert_eq!(rt; begun, Err(OutputFault::Full));
    assert!(rt; out == [0; 16]);
}
