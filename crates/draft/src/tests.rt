use crate::call::Advance;
use crate::draft::Draft;
use crate::faults::DraftFault;
use sets::rule::Rule;
use sets::set::Set;
use std::test::Fail;
use table::place::Place;
use tray::Tray;
use tray::faults::TrayFault;
use view::table_view::TableView;

// The place of every name of the tables below.
const PLACE: Place = Place {
    start: 0,
    length: 1,
};

#[test]
fn advances_to_the_base(rt: HostRuntime) -> Result<(), Fail> {
    let empty = Set::new(0, 0)?;
    let mut memory = [Rule::new(empty, empty)?; 3];
    let words = [0b000, 0b110, 0b111];
    let places = [PLACE; 6];
    let view = TableView::new(b"x", &words, &places);
    let mut draft = Draft::begin(view, Tray::new(&mut memory));
    assert_eq!(rt; draft.try_close(), Err(DraftFault::NotAtEnd));
    assert_eq!(rt; draft.advance(), Ok(Advance::Closed));
    for _ in 0..3 {
        assert_eq!(rt; draft.advance(), Ok(Advance::Rule));
    }
    assert_eq!(rt; draft.advance(), Ok(Advance::Closed));
    assert_eq!(rt; draft.advance(), Ok(Advance::Closed));
    assert_eq!(rt; draft.advance(), Err(DraftFault::AtEnd));
    assert_eq!(rt; draft.try_close(), Ok(()));
    let base = draft.close();
    assert_eq!(rt; base.width(), 3);
    assert_eq!(rt; base.count(), 3);
    Ok(())
}

#[test]
fn refuses_the_rule_without_a_place(rt: HostRuntime) -> Result<(), Fail> {
    let empty = Set::new(0, 0)?;
    let mut memory = [Rule::new(empty, empty)?; 2];
    let words = [0b000, 0b110, 0b111];
    let places = [PLACE; 6];
    let view = TableView::new(b"x", &words, &places);
    let mut draft = Draft::begin(view, Tray::new(&mut memory));
    for _ in 0..3 {
        assert!(rt; draft.advance().is_ok());
    }
    assert_eq!(rt; draft.advance(), Err(DraftFault::Tray(TrayFault::Full)));
    assert_eq!(rt; draft.advance(), Err(DraftFault::Tray(TrayFault::Full)));
    let base = draft.close();
    assert_eq!(rt; base.width(), 0);
    assert_eq!(rt; base.count(), 0);
    Ok(())
}
