ghost use Rattle.std.specs.Prelude.{◌≡◌, ◌<◌, ◌≤◌, ◌+◌, ◌*◌, ◌++◌, ◌∷◌, [], List, ℕ, pos, map, length, decimal, unsigned_abs, codes, IsTrue, IfOk, OnOk, OnErr};
ghost use Rattle.arrayvec.specs.ArrayVec.{array_vec_len};
ghost use Rattle.crn_io.specs.Write.{Wrote, WrotePrefix};
ghost use Rattle.crn_ctext.specs.Records.{number_text, numbers_text};
ghost use Rattle.crn_ctext.specs.Inner.Written.{Gathered, Gathers};

use arrayvec::ArrayVec;
use crn_io::{Sink, WriteFault, put_all};
use itoa::Buffer;

// Bytes that are gathered and then written together.
pub(crate) type Piece = ArrayVec<u8, 512>;

// The number below 0 that is there most often.
const MINUS_ONE: i128 = -1;

// A number after a space and the end of the line after it have no more bytes than this.
const LONGEST: usize = 43;

// Four numbers, each after a space, and the end of the line after them have no more bytes than this.
const LONGEST_FOUR: usize = 169;

// Adds bytes for which there is room.
#[inline(always)]
pub(crate) fn add_bytes(piece: &mut Piece, bytes: &[u8])
    requires { array_vec_len piece.old + length bytes.now ≤ 512 }
    ensures text { piece.new.items ≡ piece.old.items ++ bytes.now }
    ensures len { array_vec_len piece.new ≡ array_vec_len piece.old + length bytes.now }
{
    match piece.try_extend_from_slice(bytes) {
        Ok(()) => {}
        Err(_) => unreachable!(),
    }
}

// Adds the digits of a natural number. It is apart from its caller, which seldom calls it.
#[inline(never)]
fn add_long(piece: &mut Piece, number: u128)
    requires { array_vec_len piece.old + 40 ≤ 512 }
    ensures text { piece.new.items ≡ piece.old.items ++ decimal number }
    ensures len { array_vec_len piece.new ≤ array_vec_len piece.old + 40 }
{
    let mut buffer = Buffer::new();
    add_bytes(piece, buffer.format(number).as_bytes())
}

// Adds the digits of a natural number. Most numbers have one.
#[inline(always)]
pub(crate) fn add_digits(piece: &mut Piece, number: u128)
    requires { array_vec_len piece.old + 40 ≤ 512 }
    ensures text { piece.new.items ≡ piece.old.items ++ decimal number }
    ensures len { array_vec_len piece.new ≤ array_vec_len piece.old + 40 }
{
    if number < 10 {
        return piece.push(b'0' + number as u8);
    }
    add_long(piece, number)
}

// Adds a space, and the sign of a negative number.
fn add_sign(piece: &mut Piece, number: &i128)
    requires { array_vec_len piece.old + 43 ≤ 512 }
    ensures text { piece.new.items ++ decimal (unsigned_abs number.now)
        ≡ piece.old.items ++ number_text number.now }
    ensures len { array_vec_len piece.new ≤ array_vec_len piece.old + 2 }
{
    piece.push(b' ');
    if *number < 0 {
        piece.push(b'-');
    }
}

// Adds a number after a space. It is apart from its caller, which seldom calls it.
#[inline(never)]
fn add_any(piece: &mut Piece, number: &i128)
    requires { array_vec_len piece.old + 43 ≤ 512 }
    ensures text { piece.new.items ≡ piece.old.items ++ number_text number.now }
    ensures len { array_vec_len piece.new ≤ array_vec_len piece.old + 42 }
{
    add_sign(piece, number);
    add_digits(piece, number.unsigned_abs());
}

// Adds a number below 0 after a space. Most of these are -1.
#[inline(always)]
fn add_negative(piece: &mut Piece, number: &i128)
    requires { array_vec_len piece.old + 43 ≤ 512 }
    ensures text { piece.new.items ≡ piece.old.items ++ number_text number.now }
    ensures len { array_vec_len piece.new ≤ array_vec_len piece.old + 42 }
{
    if *number == MINUS_ONE {
        piece.push(b' ');
        piece.push(b'-');
        return piece.push(b'1');
    }
    add_any(piece, number);
}

// Adds a number after a space. Most numbers have one digit.
#[inline(always)]
fn add_int(piece: &mut Piece, number: &i128)
    requires { array_vec_len piece.old + 43 ≤ 512 }
    ensures text { piece.new.items ≡ piece.old.items ++ number_text number.now }
    ensures len { array_vec_len piece.new ≤ array_vec_len piece.old + 42 }
{
    if *number < 0 {
        return add_negative(piece, number);
    }
    piece.push(b' ');
    add_digits(piece, number.unsigned_abs());
}

// Adds numbers for which there is room, each after a space.
#[inline(always)]
fn add_ints(piece: &mut Piece, numbers: &[i128])
    requires { array_vec_len piece.old + 42 * length numbers.now + 1 ≤ 512 }
    ensures text { piece.new.items ≡ piece.old.items ++ numbers_text numbers.now }
    ensures len { array_vec_len piece.new ≤ array_vec_len piece.old + 42 * length numbers.now }
{
    for number in numbers {
        add_int(piece, number);
    }
}

// Whether four numbers are all 0, by one test.
#[inline(always)]
fn are_zero(four: &[i128]) -> bool
    requires { length four.now ≡ 4 }
    ensures { IsTrue result → four.now ≡ pos 0 ∷ pos 0 ∷ pos 0 ∷ pos 0 ∷ [] }
{
    (four[0] == 0) & (four[1] == 0) & (four[2] == 0) & (four[3] == 0)
}

// Adds four numbers for which there is room, each after a space, if there are four and all are 0. It gives those after them.
#[inline(always)]
fn add_zeros<'a>(piece: &mut Piece, numbers: &'a [i128]) -> &'a [i128]
    requires { array_vec_len piece.old + 8 ≤ 512 }
    ensures added { (done : List ℕ) × (numbers_text numbers.now ≡ done ++ numbers_text result.now)
        × (piece.new.items ≡ piece.old.items ++ done) }
    ensures few { length result.now ≤ length numbers.now }
{
    if numbers.len() < 4 {
        return numbers;
    }
    let (four, later) = numbers.split_at(4);
    if are_zero(four) {
        add_bytes(piece, b" 0 0 0 0");
        return later;
    }
    numbers
}

// Adds a natural number after a space.
fn add_num(piece: &mut Piece, number: u32)
    requires { array_vec_len piece.old + 43 ≤ 512 }
    ensures text { piece.new.items ≡ piece.old.items ++ number_text (pos number) }
    ensures room { array_vec_len piece.new < 512 }
{
    piece.push(b' ');
    add_digits(piece, u128::from(number));
}

// Writes what is held. It is apart from its callers, which seldom call it.
#[inline(never)]
fn put_piece<K: Sink>(sink: &mut K, held: &[u8]) -> Result<(), WriteFault>
    ensures { Wrote held.now (K.seen sink.old) (K.seen sink.new) result }
{
    put_all(sink, held)
}

// Writes and empties the piece, unless it has room for this many bytes.
#[inline(always)]
pub(crate) fn make_room<K: Sink>(
    sink: &mut K,
    piece: &mut Piece,
    bytes: usize,
) -> Result<(), WriteFault>
    requires { bytes ≤ 512 }
    ensures room { OnOk result (array_vec_len piece.new + bytes ≤ 512) }
    ensures gathers { Gathers piece.old.items piece.new.items
        (K.seen sink.old) (K.seen sink.new) result }
{
    if piece.remaining_capacity() >= bytes {
        return Ok(());
    }
    put_piece(sink, piece.as_slice())?;
    piece.clear();
    Ok(())
}

// Adds a text that is no longer than a piece.
#[inline(always)]
pub(crate) fn gather_text<K: Sink>(
    sink: &mut K,
    piece: &mut Piece,
    text: &[u8],
) -> Result<(), WriteFault>
    requires { length text.now ≤ 512 }
    ensures { Gathers (piece.old.items ++ text.now) piece.new.items
        (K.seen sink.old) (K.seen sink.new) result }
{
    make_room(sink, piece, text.len())?;
    add_bytes(piece, text);
    Ok(())
}

// Adds four numbers, each after a space, and four more if all eight are 0. It gives those after them.
#[inline(always)]
fn gather_first<'a, K: Sink>(
    sink: &mut K,
    piece: &mut Piece,
    numbers: &'a [i128],
) -> Result<&'a [i128], WriteFault>
    requires { 4 ≤ length numbers.now }
    ensures first { IfOk result (λ rest. (done : List ℕ)
        × (numbers_text numbers.now ≡ done ++ numbers_text rest.now)
        × Gathered (piece.old.items ++ done) piece.new.items (K.seen sink.old) (K.seen sink.new)) }
    ensures fewer { IfOk result (λ rest. length rest.now < length numbers.now) }
    ensures prefix { OnErr result (WrotePrefix (piece.old.items ++ numbers_text numbers.now)
        (K.seen sink.old) (K.seen sink.new)) }
{
    let (four, later) = numbers.split_at(4);
    if are_zero(four) {
        make_room(sink, piece, 16)?;
        add_bytes(piece, b" 0 0 0 0");
        return Ok(add_zeros(piece, later));
    }
    make_room(sink, piece, LONGEST_FOUR)?;
    add_ints(piece, four);
    Ok(later)
}

// Adds numbers, each after a space.
pub(crate) fn gather_ints<K: Sink>(
    sink: &mut K,
    piece: &mut Piece,
    numbers: &[i128],
) -> Result<(), WriteFault>
    ensures room { OnOk result (array_vec_len piece.new < 512) }
    ensures gathers { Gathers (piece.old.items ++ numbers_text numbers.now) piece.new.items
        (K.seen sink.old) (K.seen sink.new) result }
{
    let mut left = numbers;
    'parts: while left.len() >= 4 {
        left = gather_first(sink, piece, left)?;
    }
    make_room(sink, piece, LONGEST_FOUR)?;
    add_ints(piece, left);
    Ok(())
}

// Adds natural numbers, each after a space.
pub(crate) fn gather_nums<K: Sink>(
    sink: &mut K,
    piece: &mut Piece,
    numbers: &[u32],
) -> Result<(), WriteFault>
    requires { array_vec_len piece.old < 512 }
    ensures room { OnOk result (array_vec_len piece.new < 512) }
    ensures gathers { Gathers (piece.old.items ++ numbers_text (map pos numbers.now))
        piece.new.items (K.seen sink.old) (K.seen sink.new) result }
{
    for number in numbers {
        make_room(sink, piece, LONGEST)?;
        add_num(piece, *number);
    }
    Ok(())
}

// Begins with this text, which is written at once if it is long.
pub(crate) fn begin<K: Sink>(sink: &mut K, piece: &mut Piece, text: &[u8]) -> Result<(), WriteFault>
    requires { piece.old.items ≡ [] }
    ensures room { OnOk result (array_vec_len piece.new < 512) }
    ensures gathers { Gathers text.now piece.new.items (K.seen sink.old) (K.seen sink.new) result }
{
    if text.len() < 512 {
        add_bytes(piece, text);
        return Ok(());
    }
    put_all(sink, text)?;
    Ok(())
}

// Ends the line and writes what is held.
pub(crate) fn end_line<K: Sink>(sink: &mut K, piece: &mut Piece) -> Result<(), WriteFault>
    requires { array_vec_len piece.old < 512 }
    ensures { Wrote (piece.old.items ++ codes "\n") (K.seen sink.old) (K.seen sink.new) result }
{
    piece.push(b'\n');
    put_all(sink, piece.as_slice())
}
