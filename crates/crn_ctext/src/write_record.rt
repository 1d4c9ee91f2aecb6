ghost use Rattle.std.specs.Prelude.{◌≡◌, ◌++◌, ◌∷◌, [], pos, map, codes};
ghost use Rattle.std.specs.List.{flat_map};
ghost use Rattle.crn_io.specs.Write.{Wrote};
ghost use Rattle.crn_ctext.specs.Records.{number_text, numbers_text, line};

use crate::write_piece::{Piece, begin, end_line, gather_ints, gather_nums};
use crn_cert::Rows;
use crn_io::{Sink, WriteFault, put_all, put_parts};
use itoa::Buffer;

// A number after a space.
pub(crate) fn put_int<K: Sink>(sink: &mut K, number: &i128) -> Result<(), WriteFault>
    ensures { Wrote (number_text number.now) (K.seen sink.old) (K.seen sink.new) result }
{
    let mut buffer = Buffer::new();
    put_parts(sink, &[b" ", buffer.format(*number).as_bytes()])
}

// A natural number after a space.
pub(crate) fn put_num<K: Sink>(sink: &mut K, number: u32) -> Result<(), WriteFault>
    ensures { Wrote (number_text (pos number)) (K.seen sink.old) (K.seen sink.new) result }
{
    let mut buffer = Buffer::new();
    put_parts(sink, &[b" ", buffer.format(number).as_bytes()])
}

// Numbers, each after a space.
pub(crate) fn put_ints<K: Sink>(sink: &mut K, numbers: &[i128]) -> Result<(), WriteFault>
    ensures { Wrote (numbers_text numbers.now) (K.seen sink.old) (K.seen sink.new) result }
{
    let mut piece = Piece::new();
    gather_ints(sink, &mut piece, numbers)?;
    put_all(sink, piece.as_slice())
}

/// Natural numbers, each after a space.
pub fn put_nums<K: Sink>(sink: &mut K, numbers: &[u32]) -> Result<(), WriteFault>
    ensures { Wrote (numbers_text (map pos numbers.now))
        (K.seen sink.old) (K.seen sink.new) result }
{
    let mut piece = Piece::new();
    gather_nums(sink, &mut piece, numbers)?;
    put_all(sink, piece.as_slice())
}

// A natural number and then more of them, each after a space.
pub(crate) fn put_first<K: Sink>(sink: &mut K, first: u32, more: &[u32]) -> Result<(), WriteFault>
    ensures { Wrote (numbers_text (map pos (first ∷ more.now)))
        (K.seen sink.old) (K.seen sink.new) result }
{
    put_num(sink, first)?;
    put_nums(sink, more)
}

/// The line of a record with these numbers.
pub fn put_free<K: Sink>(sink: &mut K, text: &[u8], numbers: &[i128]) -> Result<(), WriteFault>
    ensures { Wrote (line text.now numbers.now) (K.seen sink.old) (K.seen sink.new) result }
{
    let mut piece = Piece::new();
    begin(sink, &mut piece, text)?;
    gather_ints(sink, &mut piece, numbers)?;
    end_line(sink, &mut piece)
}

// The line of a record with this number.
pub(crate) fn put_one<K: Sink>(sink: &mut K, text: &[u8], number: &i128) -> Result<(), WriteFault>
    ensures { Wrote (line text.now (number.now ∷ [])) (K.seen sink.old) (K.seen sink.new) result }
{
    put_all(sink, text)?;
    put_int(sink, number)?;
    put_all(sink, b"\n")
}

/// The line of a record with these natural numbers.
pub fn put_small<K: Sink>(sink: &mut K, text: &[u8], numbers: &[u32]) -> Result<(), WriteFault>
    ensures { Wrote (line text.now (map pos numbers.now))
        (K.seen sink.old) (K.seen sink.new) result }
{
    let mut piece = Piece::new();
    begin(sink, &mut piece, text)?;
    gather_nums(sink, &mut piece, numbers)?;
    end_line(sink, &mut piece)
}

// A line of this word for each row.
pub(crate) fn put_rows<K: Sink>(sink: &mut K, text: &[u8], rows: &Rows) -> Result<(), WriteFault>
    ensures { Wrote (flat_map (line text.now) rows.now) (K.seen sink.old) (K.seen sink.new) result }
{
    for i in 0..rows.len() {
        put_free(sink, text, rows.row(i))?;
    }
    Ok(())
}
