ghost use Rattle.std.specs.Prelude.{◌≡◌, ◌↔◌, ◌≤◌, ◌<◌, ◌+◌, ◌*◌, ◌++◌, [], ◌∷◌, pos, ◌<ℤ◌, ◌≤ℤ◌, codes, decimal, length, take, List, ℕ, IsTrue, IfSome};
ghost use Rattle.crn_io.specs.Joined.{with_separator};
ghost use Rattle.crn_text.specs.Canonical.{term, complex_text};
ghost use Rattle.crn_text.specs.Inner.Noughts.{AreNoughts, HasNoughts};

use crn_net::Network;
use crn_vec::{MAX_AMOUNT, MAX_NAME, MAX_SPECIES, is_nought};
use std::marker::Model;

// The most bytes of a term: a plus sign between blanks, two digits and a name.
const TERM: usize = 5 + MAX_NAME;

// The most bytes of a complex.
const ROOM: usize = MAX_SPECIES * TERM;

/// The text of a complex, which contracts see as its bytes: a buffer for one complex after another.
#[derive(Drop)]
pub struct SideText {
    bytes: [u8; ROOM],
    size: usize,
}

impl Model for SideText {
    ghost use Rattle.std.specs.Prelude.{ℕ, List, ◌≤◌, length, take};

    ghost Value = { List ℕ };

    ghost view = { λ t. take t.size t.bytes };

    ghost invariant = { λ t. t.size ≤ length t.bytes };
}

impl SideText {
    /// No bytes.
    pub fn new() -> SideText
        ensures { result ≡ [] }
    {
        SideText {
            bytes: [0; ROOM],
            size: 0,
        }
    }

    /// The bytes of the text.
    pub fn as_slice(&self) -> &[u8]
        ensures { result.now ≡ self.now }
    {
        let (used, _) = self.bytes.split_at(self.size);
        used
    }

    /// Becomes the text of complex c, counted from 0.
    pub fn set(&mut self, net: &Network, c: usize)
        requires { c < length net.now.complexes }
        ensures { self.new ≡ complex_text net.now c }
    {
        self.size = put_complex(&mut self.bytes, net, c);
    }
}

// The calls below put bytes at a place of a buffer, and answer the place after them. That is a number of its own, as a
// field beside the bytes would not stay in a register.

// Puts a byte.
#[inline(always)]
fn push(bytes: &mut [u8], at: usize, byte: u8) -> usize
    requires { at < length bytes.old }
    ensures text { take result bytes.new ≡ take at bytes.old ++ byte ∷ [] }
    ensures end { result ≡ at + 1 }
{
    bytes[at] = byte;
    at + 1
}

// Puts a piece.
#[inline(always)]
fn put(bytes: &mut [u8], at: usize, piece: &[u8]) -> usize
    requires { at + length piece.now ≤ length bytes.old }
    ensures text { take result bytes.new ≡ take at bytes.old ++ piece.now }
    ensures end { result ≡ at + length piece.now }
{
    let mut end = at;
    for byte in piece {
        end = push(bytes, end, *byte);
    }
    end
}

// Puts the digits of an amount.
#[inline(always)]
fn put_number(bytes: &mut [u8], at: usize, number: u8) -> usize
    requires room { at + 2 ≤ length bytes.old }
    requires number { number ≤ MAX_AMOUNT }
    ensures text { take result bytes.new ≡ take at bytes.old ++ decimal number }
    ensures short { result ≤ at + 2 }
{
    if number < 10 {
        return push(bytes, at, b'0' + number);
    }
    let next = push(bytes, at, b'0' + number / 10);
    push(bytes, next, b'0' + number % 10)
}

// Puts the first bytes of a block. All of it is copied, since a copy of one length takes no loop: the bytes from the answer
// on have no meaning.
#[inline(always)]
fn put_block(bytes: &mut [u8], at: usize, block: &[u8], size: usize) -> usize
    requires room { at + MAX_NAME ≤ length bytes.old }
    requires long { length block.now ≡ MAX_NAME }
    requires size { size ≤ MAX_NAME }
    ensures text { take result bytes.new ≡ take at bytes.old ++ take size block.now }
    ensures end { result ≡ at + size }
{
    let (_, rest) = bytes.split_at_mut(at);
    let (here, _) = rest.split_at_mut(MAX_NAME);
    here.copy_from_slice(block);
    at + size
}

// Puts what comes before the name of a species: a plus sign, if there are terms before, and its amount, unless that is 1.
#[inline(always)]
fn put_amount(bytes: &mut [u8], at: usize, before: usize, amount: i128) -> usize
    requires room { at + 5 ≤ length bytes.old }
    requires some { pos 0 <ℤ amount }
    requires most { amount ≤ℤ pos MAX_AMOUNT }
    ensures text { (name : List ℕ) → take result bytes.new ++ name
        ≡ take at bytes.old ++ with_separator (codes " + ") before (term amount name) }
    ensures short { result ≤ at + 5 }
{
    let mut end = at;
    if before > 0 {
        end = put(bytes, end, b" + ");
    }
    if amount != 1 {
        end = put_number(bytes, end, amount as u8);
    }
    end
}

// Whether both hold, by one test.
fn both(left: bool, right: bool) -> bool
    ensures { IsTrue result ↔ (IsTrue left × IsTrue right) }
{
    left & right
}

// The amounts after the first four, if these are 0.
fn after_four(amounts: &[i128]) -> Option<&[i128]>
    ensures { IfSome result (λ rest. HasNoughts 4 amounts.now rest.now) }
{
    match amounts {
        [a, b, c, d, rest @ ..] => {
            let ab = both(is_nought(a), is_nought(b));
            let cd = both(is_nought(c), is_nought(d));
            if both(ab, cd) {
                return Some(rest);
            }
            None
        }
        _ => None,
    }
}

// How many amounts at the start are 0, one by one.
fn last_noughts(amounts: &[i128]) -> usize
    ensures { AreNoughts result amounts.now }
{
    match amounts {
        [amount, rest @ ..] => {
            if !is_nought(amount) {
                return 0;
            }
            1 + last_noughts(rest)
        }
        [] => 0,
    }
}

// How many amounts at the start are 0, four at a time while there are as many.
fn noughts(amounts: &[i128]) -> usize
    ensures { AreNoughts result amounts.now }
{
    match after_four(amounts) {
        Some(rest) => 4 + noughts(rest),
        None => last_noughts(amounts),
    }
}

// Puts the text of complex c, counted from 0, at the start of a buffer that has room for any. After a species of which
// there is none come mostly others.
fn put_complex(bytes: &mut [u8], net: &Network, c: usize) -> usize
    requires complex { c < length net.now.complexes }
    requires room { ROOM ≤ length bytes.old }
    ensures text { take result bytes.new ≡ complex_text net.now c }
    ensures inside { result ≤ length bytes.new }
{
    let vector = net.vector(c);
    let species = net.species();
    let mut shown = 0usize;
    let mut end = 0usize;
    let mut s = 0usize;
    while s < species {
        if vector[s] == 0 {
            let (_, rest) = vector.split_at(s + 1);
            s += 1 + noughts(rest);
            continue;
        }
        let next = put_amount(bytes, end, shown, vector[s]);
        let (block, size) = net.padded_name(s);
        end = put_block(bytes, next, block, size);
        shown += 1;
        s += 1;
    }
    if shown == 0 {
        return push(bytes, 0, b'0');
    }
    end
}
