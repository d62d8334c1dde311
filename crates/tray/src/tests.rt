use crate::faults::TrayFault;
use crate::{MAX_ENTRIES, Tray};
use sets::edge::Edge;
use sets::rule::Rule;
use sets::set::Set;
use std::test::Fail;

#[test]
fn sets_in_order(rt: HostRuntime) -> Result<(), Fail> {
    let first = Set::new(3, 0b001)?;
    let second = Set::new(3, 0b110)?;
    let mut memory = [first; 4];
    let mut tray = Tray::new(&mut memory);
    tray.put(first)?;
    tray.put(second)?;
    assert_eq!(rt; tray.count(), 2);
    assert_eq!(rt; tray.get(0), Some(first));
    assert_eq!(rt; tray.get(1), Some(second));
    assert_eq!(rt; tray.get(2), None);
    tray.clear();
    assert_eq!(rt; tray.get(0), None);
    Ok(())
}

#[test]
fn rules_refused_when_full(rt: HostRuntime) -> Result<(), Fail> {
    let premise = Set::new(3, 0b100)?;
    let conclusion = Set::new(3, 0b101)?;
    let kept = Rule::new(premise, conclusion)?;
    let late = Rule::new(premise, premise)?;
    let mut memory = [kept];
    let mut tray = Tray::new(&mut memory);
    tray.put(kept)?;
    assert_eq!(rt; tray.put(late), Err(TrayFault::Full));
    assert_eq!(rt; tray.into_slice(), [kept].as_slice());
    Ok(())
}

#[test]
fn edges_up_to_the_limit(rt: HostRuntime) -> Result<(), Fail> {
    let edge = Edge { lower: 0, upper: 1 };
    let mut memory = [edge; 5000];
    let mut tray = Tray::new(&mut memory);
    assert_eq!(rt; tray.capacity(), MAX_ENTRIES);
    tray.put(edge)?;
    assert_eq!(rt; tray.entries(), [edge].as_slice());
    Ok(())
}
