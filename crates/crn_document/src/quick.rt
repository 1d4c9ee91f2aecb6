ghost use Rattle.std.specs.Prelude.{◌≡◌, ◌↔◌, ◌≤◌, ◌+◌, ◌++◌, [], None, ◌∷◌, IsTrue, length, codes, decimal, pos, IfSome, IfOk, IfErr};
ghost use Rattle.crn_io.specs.declared.lines.TheConstants.{MAX_NUMBERS};
ghost use Rattle.crn_ctext.specs.Expect.{IsExpectable, IsReadAs, IsRefusedBy, code_of};
ghost use Rattle.crn_document.specs.Inner.Trees.{HasNodeDue, NamesTo};

use crn_ctext::{DocCode, Due, Expect, Word, read_record};
use crn_vec::Ints;

// The longest line that names a list of those that a document may share.
const MAX_NAMING: usize = 9;

// Whether these digits spell the number. The last digit comes first.
fn spells(digits: &[u8], number: u32) -> bool
    ensures { IsTrue result ↔ (digits.now ≡ decimal number) }
{
    match digits {
        [] => false,
        [digits @ .., last] => {
            if *last != b'0' + (number % 10) as u8 {
                return false;
            }
            if number < 10 {
                return digits.is_empty();
            }
            spells(digits, number / 10)
        }
    }
}

// Whether the line is that of a split.
fn is_split(line: &[u8]) -> bool
    ensures { IsTrue result ↔ (line.now ≡ codes "split") }
{
    match line {
        [b's', b'p', b'l', b'i', b't'] => true,
        _ => false,
    }
}

// Whether the line names this list for a cut of part A.
fn names_a(line: &[u8], place: u32) -> bool
    ensures { IsTrue result ↔ (line.now ≡ codes "refa " ++ decimal place) }
{
    match line {
        [b'r', b'e', b'f', b'a', b' ', digits @ ..] => spells(digits, place),
        _ => false,
    }
}

// Whether the line names this list for a cut of part B.
fn names_b(line: &[u8], place: u32) -> bool
    ensures { IsTrue result ↔ (line.now ≡ codes "refb " ++ decimal place) }
{
    match line {
        [b'r', b'e', b'f', b'b', b' ', digits @ ..] => spells(digits, place),
        _ => false,
    }
}

// What the digits of a line spell, if they are one short number. Whether they do is for the callers to see.
fn guess(line: &[u8]) -> u32 {
    let mut value: u32 = 0;
    for byte in line {
        if b'0' <= *byte && *byte <= b'9' {
            value = value.wrapping_mul(10).wrapping_add(u32::from(*byte - b'0'));
        }
    }
    value
}

// Adds a number for which there is room.
fn add(into: &mut Ints, value: u32)
    requires { 1 ≤ into.old.spare }
    ensures list { into.new.list ≡ into.old.list ++ pos value ∷ [] }
    ensures spare { into.new.spare + 1 ≡ into.old.spare }
{
    match into.push(i128::from(value)) {
        Ok(()) => {}
        Err(_) => unreachable!(),
    }
}

// The word of a line that names a shared list, whose place is put into the list; none for other lines.
fn read_naming(expect: &Expect, shared: u32, line: &[u8], into: &mut Ints) -> Option<Word>
    requires node { NamesTo expect.now shared }
    requires empty { into.old.list ≡ [] }
    requires room { MAX_NUMBERS ≤ into.old.spare }
    ensures some { IfSome result (λ word. IsReadAs expect.now line.now word into.new.list) }
    ensures none { result ≡ None → into.new ≡ into.old }
    ensures spare { into.new.spare + length into.new.list ≡ into.old.spare }
{
    if MAX_NAMING < line.len() {
        return None;
    }
    let place = guess(line);
    if place < 1 {
        return None;
    }
    if shared < place {
        return None;
    }
    if names_b(line, place) {
        add(into, place);
        return Some(Word::RefB);
    }
    if names_a(line, place) {
        add(into, place);
        return Some(Word::RefA);
    }
    None
}

// Reads a line as a node that is due, as `read_record` does.
fn read_due(expect: &Expect, shared: u32, line: &[u8], into: &mut Ints) -> Result<Word, DocCode>
    requires due { IsExpectable expect.now }
    requires node { HasNodeDue expect.now shared }
    requires empty { into.old.list ≡ [] }
    requires room { MAX_NUMBERS ≤ into.old.spare }
    ensures ok { IfOk result (λ word. IsReadAs expect.now line.now word into.new.list) }
    ensures spare { into.new.spare + length into.new.list ≡ into.old.spare }
    ensures err { IfErr result
        (λ code. IsRefusedBy expect.now line.now (code_of code) × (into.new ≡ into.old)) }
{
    if is_split(line) {
        return Ok(Word::Split);
    }
    if expect.version != 2 {
        return read_record(expect, line, into);
    }
    match read_naming(expect, shared, line, into) {
        Some(word) => Ok(word),
        None => read_record(expect, line, into),
    }
}

/// Reads a line as `read_record` does, and splits and lines that name shared lists, as most of a tree are, by fewer steps.
pub(crate) fn read_node(expect: &Expect, line: &[u8], into: &mut Ints) -> Result<Word, DocCode>
    requires due { IsExpectable expect.now }
    requires empty { into.old.list ≡ [] }
    requires room { MAX_NUMBERS ≤ into.old.spare }
    ensures ok { IfOk result (λ word. IsReadAs expect.now line.now word into.new.list) }
    ensures spare { into.new.spare + length into.new.list ≡ into.old.spare }
    ensures err { IfErr result
        (λ code. IsRefusedBy expect.now line.now (code_of code) × (into.new ≡ into.old)) }
{
    match expect.due {
        Due::Node { shared, .. } => read_due(expect, shared, line, into),
        _ => read_record(expect, line, into),
    }
}
