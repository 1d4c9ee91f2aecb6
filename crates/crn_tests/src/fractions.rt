use crn_frac::{Frac, gcd, gcd_of, lcm_below, lcm_of_below};

#[test]
fn greatest_common_divisors_are_never_negative(rt: HostRuntime) {
    let made = [
        gcd(-12, 18),
        gcd(12, -18),
        gcd(0, -5),
        gcd(0, 0),
        gcd(-35, -64),
    ];
    assert!(rt; made == [6, 6, 5, 0, 1]);
    assert!(rt; gcd_of(1_000_000_007, 998_244_353) == 1);
}

#[test]
fn least_common_multiples_stay_below_the_bound(rt: HostRuntime) {
    let made = [
        lcm_below(6, 4, 12),
        lcm_below(6, 4, 13),
        lcm_below(1, 1, 1),
        lcm_below(7, 7, 8),
    ];
    assert!(rt; made == [None, Some(12), None, Some(7)]);
    assert!(rt; lcm_of_below(1 << 61, 3, 1 << 62).is_none());
    assert!(rt; lcm_of_below(1 << 60, 3, 1 << 62) == Some(3 << 60));
}

// Whether a fraction has this numerator and this denominator.
fn is(fraction: Frac, num: i128, den: i128) -> bool {
    fraction.num() == num && fraction.den() == den
}

#[test]
fn fractions_are_reduced_with_a_positive_denominator(rt: HostRuntime) {
    assert!(rt; is(Frac::new(6, -4), -3, 2));
    assert!(rt; is(Frac::new(0, -5), 0, 1));
    let whole = Frac::new(-6, -3);
    let copy = whole;
    assert!(rt; is(copy, 2, 1) && is(whole, 2, 1));
}
