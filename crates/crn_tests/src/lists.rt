use crn_vec::{
    Kind, Sign, agrees, counts, dot, may_take, may_weigh, opposite, product, rules_out, sign_of,
    support,
};

#[test]
fn signs_by_table(rt: HostRuntime) {
    let signs = [sign_of(0), sign_of(1), sign_of(-1)];
    assert!(rt; signs == [Sign::Zero, Sign::Plus, Sign::Minus]);
    assert!(rt; product(Sign::Minus, opposite(Sign::Plus)) == Sign::Plus);
}

const KINDS: [Kind; 5] = [Kind::Pos, Kind::Neg, Kind::NonNeg, Kind::Zero, Kind::Free];

// Each row: values, and whether each has its kind.
const VALUES: &[([i128; 5], bool)] = &[
    ([1, -1, 0, 0, -5], true),
    ([0, -1, 0, 0, 0], false),
    ([1, 0, 0, 0, 0], false),
    ([1, -1, -1, 0, 0], false),
    ([1, -1, 1, 1, 0], false),
];

#[test]
fn agrees_if_and_only_if_each_value_has_its_kind(rt: HostRuntime) {
    for (values, want) in VALUES {
        assert!(rt; agrees(&KINDS, values) == *want);
    }
    assert!(rt; agrees(&[], &[]));
}

// Each row: weights, and whether they rule out systems of these kinds.
const WEIGHTS: &[([i128; 5], bool)] = &[
    ([1, -1, 1, -5, 0], true),
    ([1, 0, 0, 0, 0], true),
    ([0, -1, 0, 5, 0], true),
    ([0, 0, 1, 1, 0], false),
    ([-1, -1, 0, 0, 0], false),
    ([1, 1, 0, 0, 0], false),
    ([1, 0, -1, 0, 0], false),
    ([1, 0, 0, 0, 1], false),
];

#[test]
fn weights_rule_out_by_table(rt: HostRuntime) {
    for (weights, want) in WEIGHTS {
        assert!(rt; rules_out(&KINDS, weights) == *want);
    }
    assert!(rt; !rules_out(&[], &[]));
}

// Each row: a kind, a sign, whether it may be that of a value, whether it may be that of a weight, and whether it counts there.
const ROWS: &[(Kind, Sign, bool, bool, bool)] = &[
    (Kind::Pos, Sign::Zero, true, true, false),
    (Kind::Pos, Sign::Plus, true, true, true),
    (Kind::Pos, Sign::Minus, false, false, true),
    (Kind::Neg, Sign::Zero, true, true, false),
    (Kind::Neg, Sign::Plus, false, false, true),
    (Kind::Neg, Sign::Minus, true, true, true),
    (Kind::NonNeg, Sign::Zero, true, true, false),
    (Kind::NonNeg, Sign::Plus, true, true, false),
    (Kind::NonNeg, Sign::Minus, false, false, false),
    (Kind::Zero, Sign::Zero, true, true, false),
    (Kind::Zero, Sign::Plus, false, true, false),
    (Kind::Zero, Sign::Minus, false, true, false),
    (Kind::Free, Sign::Zero, true, true, false),
    (Kind::Free, Sign::Plus, true, false, false),
    (Kind::Free, Sign::Minus, true, false, false),
];

#[test]
fn signs_go_with_kinds_by_table(rt: HostRuntime) {
    for &(kind, sign, takes, weighs, count) in ROWS {
        assert!(rt; may_take(kind, sign) == takes);
        assert!(rt; may_weigh(kind, sign) == weighs && counts(kind, sign) == count);
    }
}

#[test]
fn sums_products_place_by_place(rt: HostRuntime) {
    assert!(rt; dot(&[], &[]) == 0 && dot(&[2, -3, 5], &[7, 1, -1]) == 6);
    let large = dot(&[4_722_366_482_869_645_213_695], &[99]);
    assert!(rt; large == 467_514_281_804_094_876_155_805);
}

#[test]
fn marks_what_is_not_zero(rt: HostRuntime) {
    let mut marks = [true, true, false];
    support(&[0, -1, 7], &mut marks);
    assert!(rt; marks == [false, true, true]);
}
