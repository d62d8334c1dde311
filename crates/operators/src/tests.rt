use crate::entails::entails;
use crate::operator::Operator;
use crate::proper_rule_closure::ProperRuleClosure;
use crate::rule_closure::RuleClosure;
use crate::table_closure::TableClosure;
use sets::rule::Rule;
use sets::set::Set;
use std::test::Fail;
use table::place::Place;
use view::table_view::TableView;

#[test]
fn rows_of_a_table(rt: HostRuntime) -> Result<(), Fail> {
    let place = Place {
        start: 0,
        length: 1,
    };
    let words = [0b000, 0b110, 0b111];
    let places = [place; 6];
    let table = TableClosure::new(TableView::new(b"x", &words, &places));
    assert_eq!(rt; table.mark(), b'G');
    assert_eq!(rt; table.closure(Set::new(3, 0b000)?).word(), 0b000);
    assert_eq!(rt; table.closure(Set::new(3, 0b010)?).word(), 0b110);
    assert_eq!(rt; table.closure(Set::new(3, 0b001)?).word(), 0b111);
    assert_eq!(rt; table.closure(Set::new(2, 0b01)?).word(), 0b01);
    Ok(())
}

#[test]
fn few_rows_and_many(rt: HostRuntime) -> Result<(), Fail> {
    let places = [Place {
        start: 0,
        length: 1,
    }; 73];
    let few = TableClosure::new(TableView::new(b"x", &[0b10110], &places[0..6]));
    assert_eq!(rt; few.closure(Set::new(5, 0b00100)?).word(), 0b10110);
    assert_eq!(rt; few.closure(Set::new(5, 0b00001)?).word(), 0b11111);
    let mut words = [0b110; 70];
    words[69] = 0b011;
    let many = TableClosure::new(TableView::new(b"x", &words, &places));
    assert_eq!(rt; many.closure(Set::new(3, 0b000)?).word(), 0b010);
    assert_eq!(rt; many.closure(Set::new(3, 0b001)?).word(), 0b011);
    assert_eq!(rt; many.closure(Set::new(3, 0b101)?).word(), 0b111);
    Ok(())
}

#[test]
fn rules_in_a_chain(rt: HostRuntime) -> Result<(), Fail> {
    let [none, first, second] = [
        Set::new(3, 0b000)?,
        Set::new(3, 0b100)?,
        Set::new(3, 0b110)?,
    ];
    let rules = [Rule::new(first, second)?, Rule::new(none, first)?];
    let all = RuleClosure::new(&rules, none);
    assert_eq!(rt; all.closure(none).word(), 0b110);
    let parts = ProperRuleClosure::new(&rules, none);
    assert_eq!(rt; parts.closure(none).word(), 0b000);
    assert_eq!(rt; parts.closure(first).word(), 0b100);
    assert_eq!(rt; parts.closure(Set::new(3, 0b001)?).word(), 0b111);
    assert!(rt; entails(&rules, none, second));
    assert!(rt; !entails(&rules, none, Set::new(3, 0b001)?));
    Ok(())
}
