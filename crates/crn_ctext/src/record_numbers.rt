ghost use Rattle.std.specs.Prelude.{◌≡◌, ◌≤◌, ◌<◌, ◌+◌, ◌-◌, ◌*◌, ◌++◌, ◌∷◌, [], ℤ, pos, List, IsTrue, ◌↔◌, length, map, IfSome, MatchBool, MatchOption, min, take};
ghost use Rattle.std.specs.Str.Parse.{AllDigits, digits_value};
ghost use Rattle.crn_vec.specs.declared.limits.TheConstants.{WIDE_SOLUTION};
ghost use Rattle.crn_ctext.specs.Inner.Line.{BeginsWithZero, BeginsWithZeros, HasDigits, HasNatural, HasNoNatural, HasNumber, HasNoNumber, EndsAt, SaysNumbers, capped};

use crate::same::same_eights;
use crn_vec::{Ints, WIDE_SOLUTION};

// From here on digits are read eight at a time.
const SHORT: u64 = 100_000;

// From here on a value is held in 128 bits.
const LONG: u64 = 1_000_000_000_000_000_000;

// Four zeros, each after a space.
const ZEROS: [u8; 8] = *b" 0 0 0 0";

// The digits at the start, of which this many were read already, with this value.
fn long_digits(bytes: &[u8], read: usize, start: u128) -> (u128, usize)
    requires within { read ≤ length bytes.now }
    requires digits { AllDigits 10 (take read bytes.now) }
    requires start { start ≡ min (digits_value 10 (take read bytes.now)) WIDE_SOLUTION }
    ensures { HasDigits bytes.now result.0 result.1 }
{
    let mut value = start;
    for i in read..bytes.len() {
        let byte = bytes[i];
        if byte < b'0' || b'9' < byte {
            return (value, i);
        }
        value = (value * 10 + u128::from(byte - b'0')).min(WIDE_SOLUTION);
    }
    (value, bytes.len())
}

// Whether a byte is a decimal digit.
fn is_digit(byte: u8) -> bool
    ensures { IsTrue result ↔ (48 ≤ byte) × (byte ≤ 57) }
{
    b'0' <= byte && byte <= b'9'
}

// The value of digits that have this value, and of one after them.
fn with_digit(value: u64, byte: u8) -> u64
    requires short { value < 10000000 }
    requires digit { (48 ≤ byte) × (byte ≤ 57) }
    ensures value { result ≡ value * 10 + (byte - 48) }
    ensures digit { (48 ≤ byte) × (byte ≤ 57) }
{
    value * 10 + u64::from(byte - b'0')
}

// The value of the first eight bytes, if all of them are digits.
fn eight_digits(bytes: &[u8]) -> Option<u64>
    ensures within { IfSome result (λ _. 8 ≤ length bytes.now) }
    ensures digits { IfSome result (λ _. AllDigits 10 (take 8 bytes.now)) }
    ensures value { IfSome result (λ value. value ≡ digits_value 10 (take 8 bytes.now)) }
    ensures short { IfSome result (λ value. value < 100000000) }
{
    match bytes {
        [a, b, c, d, e, f, g, h, ..] => {
            let first = is_digit(*a) & is_digit(*b) & is_digit(*c) & is_digit(*d);
            let last = is_digit(*e) & is_digit(*f) & is_digit(*g) & is_digit(*h);
            if !(first & last) {
                return None;
            }
            let one = with_digit(0, *a);
            let two = with_digit(one, *b);
            let three = with_digit(two, *c);
            let four = with_digit(three, *d);
            let five = with_digit(four, *e);
            let six = with_digit(five, *f);
            let seven = with_digit(six, *g);
            Some(with_digit(seven, *h))
        }
        _ => None,
    }
}

// The digits at the start, of which this many were read already, with this value.
fn middle_digits(bytes: &[u8], read: usize, start: u64) -> (u128, usize)
    requires within { read ≤ length bytes.now }
    requires digits { AllDigits 10 (take read bytes.now) }
    requires start { start ≡ digits_value 10 (take read bytes.now) }
    ensures { HasDigits bytes.now result.0 result.1 }
{
    let mut value = start;
    for i in read..bytes.len() {
        let byte = bytes[i];
        if byte < b'0' || b'9' < byte {
            return (u128::from(value), i);
        }
        if LONG <= value {
            return long_digits(bytes, i, u128::from(value));
        }
        value = value * 10 + u64::from(byte - b'0');
    }
    (u128::from(value), bytes.len())
}

// The same, eight at a time while there are this many.
#[inline(never)]
fn more_digits(bytes: &[u8], read: usize, start: u64) -> (u128, usize)
    requires within { read ≤ length bytes.now }
    requires digits { AllDigits 10 (take read bytes.now) }
    requires start { start ≡ digits_value 10 (take read bytes.now) }
    requires short { start < 1000000 }
    ensures { HasDigits bytes.now result.0 result.1 }
{
    let (_, rest) = bytes.split_at(read);
    match eight_digits(rest) {
        None => middle_digits(bytes, read, start),
        Some(more) => {
            let value = start * 100_000_000 + more;
            let (_, rest) = rest.split_at(8);
            match eight_digits(rest) {
                None => middle_digits(bytes, read + 8, value),
                Some(more) => {
                    let value = u128::from(value) * 100_000_000 + u128::from(more);
                    long_digits(bytes, read + 16, value.min(WIDE_SOLUTION))
                }
            }
        }
    }
}

// The digits at the start: their value, and how many they are.
fn digits(bytes: &[u8]) -> (u128, usize)
    ensures { HasDigits bytes.now result.0 result.1 }
{
    let mut value: u64 = 0;
    for (i, byte) in bytes.iter().enumerate() {
        if *byte < b'0' || b'9' < *byte {
            return (u128::from(value), i);
        }
        if SHORT <= value {
            return more_digits(bytes, i, value);
        }
        value = value * 10 + u64::from(*byte - b'0');
    }
    (u128::from(value), bytes.len())
}

// Whether a space or nothing is after this many bytes.
fn ends_at(bytes: &[u8], count: usize) -> bool
    requires { count ≤ length bytes.now }
    ensures { IsTrue result ↔ EndsAt bytes.now count }
{
    count == bytes.len() || bytes[count] == b' '
}

// The natural number above 0 before the first space, and how many bytes it has.
#[inline(always)]
fn natural(bytes: &[u8]) -> Option<(u128, usize)>
    ensures { MatchOption result (HasNoNatural bytes.now) (λ r. HasNatural bytes.now r.0 r.1) }
{
    let (value, count) = digits(bytes);
    if count == 0 {
        return None;
    }
    if bytes[0] == b'0' {
        return None;
    }
    if !ends_at(bytes, count) {
        return None;
    }
    Some((value, count))
}

// The number before the first space, and how many bytes it has.
fn number(bytes: &[u8]) -> Option<(i128, usize)>
    ensures { MatchOption result (HasNoNumber bytes.now) (λ r. HasNumber bytes.now r.0 r.1) }
{
    if bytes.is_empty() {
        return None;
    }
    let first = bytes[0];
    if first == b'0' {
        if !ends_at(bytes, 1) {
            return None;
        }
        return Some((0, 1));
    }
    if first == b'-' {
        let (_, rest) = bytes.split_at(1);
        return match natural(rest) {
            None => None,
            Some((size, count)) => Some((-(size as i128), count + 1)),
        };
    }
    match natural(bytes) {
        None => None,
        Some((size, count)) => Some((size as i128, count)),
    }
}

// Adds a number for which there is room.
pub(crate) fn add(into: &mut Ints, value: i128)
    requires { 0 < into.old.spare }
    ensures list { into.new.list ≡ into.old.list ++ value ∷ [] }
    ensures spare { into.new.spare + 1 ≡ into.old.spare }
{
    match into.push(value) {
        Ok(()) => {}
        Err(_) => unreachable!(),
    }
}

// What follows a 0 and the space before it, if the bytes begin with that number, as most do.
fn after_zero(bytes: &[u8]) -> Option<&[u8]>
    ensures { IfSome result (λ after. BeginsWithZero bytes.now after.now) }
{
    match bytes {
        [b' ', b'0', after @ ..] => match after {
            [] => Some(after),
            [b' ', ..] => Some(after),
            _ => None,
        },
        _ => None,
    }
}

// What follows four zeros and the spaces before them, if the bytes begin with these numbers and there is room for as many.
fn after_zeros(bytes: &[u8], room: usize) -> Option<&[u8]>
    ensures room { IfSome result (λ _. 4 ≤ room) }
    ensures begins { IfSome result (λ after. BeginsWithZeros bytes.now after.now) }
{
    if room < 4 {
        return None;
    }
    match bytes {
        [a, b, c, d, e, f, g, h, after @ ..] => {
            if !same_eights([*a, *b, *c, *d, *e, *f, *g, *h], ZEROS) {
                return None;
            }
            match after {
                [] => Some(after),
                [b' ', ..] => Some(after),
                _ => None,
            }
        }
        _ => None,
    }
}

// Adds four zeros for which there is room.
fn add_zeros(into: &mut Ints)
    requires { 4 ≤ into.old.spare }
    ensures list { into.new.list ≡ into.old.list ++ pos 0 ∷ pos 0 ∷ pos 0 ∷ pos 0 ∷ [] }
    ensures spare { into.new.spare + 4 ≡ into.old.spare }
{
    add(into, 0);
    add(into, 0);
    add(into, 0);
    add(into, 0);
}

/// Adds the numbers of a line, each after a space, if they are at most this many. Zeros are often together.
pub(crate) fn numbers(line: &[u8], most: usize, into: &mut Ints) -> bool
    requires { most ≤ into.old.spare }
    ensures numbers { MatchBool result
        ((zs : List ℤ) × SaysNumbers line.now zs × (into.new.list ≡ into.old.list ++ map capped zs))
        ((zs : List ℤ) → SaysNumbers line.now zs → length zs ≤ most → ⊥) }
    ensures spare { into.new.spare + length into.new.list ≡ into.old.spare + length into.old.list }
{
    let mut left = line;
    let mut count: usize = 0;
    while !left.is_empty() {
        if count == most {
            return false;
        }
        if let Some(after) = after_zero(left) {
            add(into, 0);
            count += 1;
            left = after;
            if let Some(after) = after_zeros(left, most - count) {
                add_zeros(into);
                count += 4;
                left = after;
            }
            continue;
        }
        if left[0] != b' ' {
            return false;
        }
        let (_, field) = left.split_at(1);
        match number(field) {
            None => return false,
            Some((value, width)) => {
                add(into, value);
                count += 1;
                let (_, after) = field.split_at(width);
                left = after;
            }
        }
    }
    true
}
