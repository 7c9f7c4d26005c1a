use pc_num::compare_fractions;
use std::cmp::Ordering;

#[test]
fn fractions_that_are_not_reduced(rt: HostRuntime) {
    assert!(rt; compare_fractions(1, 2, 2, 4) == Ordering::Equal);
    assert!(rt; compare_fractions(2, 4, 1, 3) == Ordering::Greater);
    assert!(rt; compare_fractions(-2, 4, -1, 3) == Ordering::Less);
    assert!(rt; compare_fractions(0, 9, 0, 4) == Ordering::Equal);
    assert!(rt; compare_fractions(0, 9, -5, 7) == Ordering::Greater);
}

#[test]
fn fractions_of_great_numbers(rt: HostRuntime) {
    let most = i128::MAX;
    assert!(rt; compare_fractions(most, most, 1, 1) == Ordering::Equal);
    assert!(rt; compare_fractions(most - 2, most - 1, most - 1, most) == Ordering::Less);
    assert!(rt; compare_fractions(-most, 1, most, 1) == Ordering::Less);
}
