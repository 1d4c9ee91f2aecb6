ghost use Rattle.std.specs.Prelude.{◌≡◌, ◌≤◌, ◌==◌, not, length, take};
ghost use Rattle.std.specs.List.{prefix_len};
ghost use Rattle.crn_text.specs.Inner.Pieces.{SplitsAt};

use memchr::memchr;
use std::simd::prelude::*;

// How many bytes are tested at once.
const NEAR: usize = 64;

// The number of bytes before the first byte that equals this one, of which the first 64 are looked at.
#[inline(always)]
fn near_bytes_before(text: &[u8], byte: u8) -> usize
    requires { NEAR ≤ length text.now }
    ensures { result ≡ prefix_len (λ b. not (b == byte)) (take NEAR text.now) }
{
    let marks = u8x64::from_slice(text)
        .simd_eq(u8x64::splat(byte))
        .to_bitmask();
    marks.trailing_zeros() as usize
}

// The number of bytes before the first byte that equals this one, which may be far.
#[inline(always)]
fn far_bytes_before(text: &[u8], byte: u8) -> usize
    ensures { result ≡ prefix_len (λ b. not (b == byte)) text.now }
{
    match memchr(byte, text) {
        Some(place) => place,
        None => text.len(),
    }
}

// The number of bytes before the first byte that equals this one.
#[inline(always)]
fn bytes_before(text: &[u8], byte: u8) -> usize
    ensures { result ≡ prefix_len (λ b. not (b == byte)) text.now }
{
    // Many lines are empty, and most others are short.
    if !text.is_empty() && text[0] == byte {
        return 0;
    }
    if text.len() < NEAR {
        return far_bytes_before(text, byte);
    }
    let near = near_bytes_before(text, byte);
    if near < NEAR {
        return near;
    }
    let (_, far) = text.split_at(NEAR);
    NEAR + far_bytes_before(far, byte)
}

/// The bytes before the first byte that equals this one, and those after it; `None` if there is no such byte.
#[inline(always)]
pub(crate) fn split_at_byte(text: &[u8], byte: u8) -> (&[u8], Option<&[u8]>)
    ensures { SplitsAt byte text.now result.0.now result.1 }
{
    let (prefix, rest) = text.split_at(bytes_before(text, byte));
    match rest.split_first() {
        None => (prefix, None),
        Some((_byte, after)) => (prefix, Some(after)),
    }
}
