ghost use Rattle.std.specs.Prelude.{◌≡◌, ◌≤◌, true, length, take};
ghost use Rattle.std.specs.List.{prefix_len, list_all};
ghost use Rattle.crn_vec.specs.Network.{is_letter, is_name_byte};
ghost use Rattle.crn_text.specs.Tokens.{is_blank, is_digit};
ghost use Rattle.crn_text.specs.Inner.Pieces.{is_unmarked};

use crn_vec::MAX_NAME;

// How many bytes are tested at a time.
const BLOCK: usize = 64;

// For each byte an `a` if it is a letter or an underscore, a `0` if it is a digit, and else a dot.
static KINDS: [u8; 256] = *b"\
    ................................\
    ................0000000000......\
    .aaaaaaaaaaaaaaaaaaaaaaaaaa....a\
    .aaaaaaaaaaaaaaaaaaaaaaaaaa.....\
    ................................\
    ................................\
    ................................\
    ................................";

pub(crate) fn is_digit_byte(byte: u8) -> bool
    ensures { result ≡ is_digit byte }
{
    matches!(byte, b'0'..=b'9')
}

/// Whether a byte is a letter or an underscore.
#[inline(always)]
pub(crate) fn is_letter_byte(byte: u8) -> bool
    ensures { result ≡ is_letter byte }
{
    KINDS[usize::from(byte)] == b'a'
}

// The same by comparisons, which serve many bytes at a time.
fn is_compared_letter(byte: u8) -> bool
    ensures { result ≡ is_letter byte }
{
    matches!(byte, b'a'..=b'z' | b'A'..=b'Z' | b'_')
}

// Whether a byte may be of a name, by comparisons.
fn is_byte_of_name(byte: u8) -> bool
    ensures { result ≡ is_name_byte byte }
{
    is_compared_letter(byte) || is_digit_byte(byte)
}

// The same by the table, which is faster for one byte after another.
#[inline(always)]
fn is_near_byte_of_name(byte: u8) -> bool
    ensures { result ≡ is_name_byte byte }
{
    KINDS[usize::from(byte)] != b'.'
}

pub(crate) fn is_blank_byte(byte: u8) -> bool
    ensures { result ≡ is_blank byte }
{
    byte == b' ' || byte == b'\t'
}

// Whether a byte is a blank, a plus sign, or of a name or a number.
fn is_unmarked_byte(byte: u8) -> bool
    ensures { result ≡ is_unmarked byte }
{
    is_byte_of_name(byte) || is_blank_byte(byte) || byte == b'+'
}

/// The number of blanks at the start.
pub(crate) fn blanks(text: &[u8]) -> usize
    ensures { result ≡ prefix_len is_blank text.now }
{
    text.iter().take_while(|b| is_blank_byte(**b)).count()
}

/// The number of digits at the start.
pub(crate) fn digits(bytes: &[u8]) -> usize
    ensures { result ≡ prefix_len is_digit bytes.now }
{
    bytes.iter().take_while(|b| is_digit_byte(**b)).count()
}

// Whether all bytes may be of a name. All are looked at, even after one that is not, so that many are tested at a time.
fn are_of_name(bytes: &[u8]) -> bool
    ensures { result ≡ list_all is_name_byte bytes.now }
{
    let mut all = true;
    for byte in bytes {
        all &= is_byte_of_name(*byte);
    }
    all
}

// The number of bytes of a name at the start, one after another.
fn near_name_bytes(bytes: &[u8]) -> usize
    ensures { result ≡ prefix_len is_name_byte bytes.now }
{
    bytes
        .iter()
        .take_while(|b| is_near_byte_of_name(**b))
        .count()
}

/// The number of bytes of a name at the start, or one more than the limit of a name if there are more.
#[inline(always)]
pub(crate) fn short_name_bytes(bytes: &[u8]) -> usize
    ensures inside { result ≤ length bytes.now }
    ensures named { list_all is_name_byte (take result bytes.now) ≡ true }
{
    let (near, _) = bytes.split_at(bytes.len().min(MAX_NAME + 1));
    near_name_bytes(near)
}

/// The number of bytes of a name at the start.
pub(crate) fn name_bytes(bytes: &[u8]) -> usize
    ensures { result ≡ prefix_len is_name_byte bytes.now }
{
    let mut left = bytes;
    'blocks: while left.len() >= BLOCK {
        let (block, rest) = left.split_at(BLOCK);
        if !are_of_name(block) {
            break;
        }
        left = rest;
    }
    bytes.len() - (left.len() - near_name_bytes(left))
}

// Whether all bytes belong to no arrow and are no stray marks. All are looked at, as above.
fn are_unmarked(bytes: &[u8]) -> bool
    ensures { result ≡ list_all is_unmarked bytes.now }
{
    let mut all = true;
    for byte in bytes {
        all &= is_unmarked_byte(*byte);
    }
    all
}

// The number of bytes at the start that belong to no arrow and are no stray marks, one after another.
fn near_unmarked_bytes(text: &[u8]) -> usize
    ensures { result ≡ prefix_len is_unmarked text.now }
{
    text.iter().take_while(|b| is_unmarked_byte(**b)).count()
}

/// The number of bytes at the start that belong to no arrow and are no stray marks.
pub(crate) fn unmarked_bytes(text: &[u8]) -> usize
    ensures { result ≡ prefix_len is_unmarked text.now }
{
    let mut left = text;
    'blocks: while left.len() >= BLOCK {
        let (block, rest) = left.split_at(BLOCK);
        if !are_unmarked(block) {
            break;
        }
        left = rest;
    }
    text.len() - (left.len() - near_unmarked_bytes(left))
}
