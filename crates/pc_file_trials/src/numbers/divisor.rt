use pc_num::{gcd, primitive};

static DIVISORS: [(i128, i128, i128); 8] = [
    (0, 0, 0),
    (-12, 18, 6),
    (12, -18, 6),
    (0, -7, 7),
    (7, 0, 7),
    (1, 12, 1),
    (-i128::MAX, i128::MAX, i128::MAX),
    (1 << 126, 1 << 100, 1 << 100),
];

#[test]
fn greatest_common_divisors(rt: HostRuntime) {
    for (a, b, expected) in DIVISORS.iter() {
        assert_eq!(rt; gcd(*a, *b), *expected);
    }
}

#[test]
fn rows(rt: HostRuntime) {
    let mut row = [6, -9, 0];
    primitive(&mut row);
    assert_eq!(rt; row, [2, -3, 0]);
    let mut zeros = [0, 0];
    primitive(&mut zeros);
    assert_eq!(rt; zeros, [0, 0]);
    let mut coprime = [4, 9];
    primitive(&mut coprime);
    assert_eq!(rt; coprime, [4, 9]);
    let mut one = [-i128::MAX];
    primitive(&mut one);
    assert_eq!(rt; one, [-1]);
    let mut empty: [i128; 0] = [];
    primitive(&mut empty);
    assert_eq!(rt; empty.len(), 0);
}
