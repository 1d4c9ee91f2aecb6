ghost use Rattle.std.specs.Prelude.{◌≡◌, ◌<◌, ◌≤◌, ◌++◌, ◌+◌, ◌-◌, [], codes, decimal, length, slice_index_or};
ghost use Rattle.std.specs.Fmt.{signed_decimal};
ghost use Rattle.std.specs.List.{AllByRecursion};
ghost use Rattle.crn_cert.specs.Ranges.{IsFrom};
ghost use Rattle.crn_io.specs.Joined.{joined, with_separator};
ghost use Rattle.crn_io.specs.Write.{Wrote};
ghost use Rattle.crn_text.specs.Canonical.{complex_text};
ghost use Rattle.crn_render.specs.Words.{numbers_text};
ghost use Rattle.crn_render.specs.Details.{vector_text, shelf, shelves_text, complex_texts, walk_text, arrow_text, reaction_text};

use crn_io::{Sink, WriteFault, put_all, put_between, put_parts};
use crn_net::Network;
use crn_text::SideText;
use itoa::Buffer;

// A number between two texts.
pub(crate) fn put_number<K: Sink>(
    sink: &mut K,
    before: &[u8],
    number: usize,
    after: &[u8],
) -> Result<(), WriteFault>
    ensures { Wrote (before.now ++ decimal number ++ after.now)
        (K.seen sink.old) (K.seen sink.new) result }
{
    let mut buffer = Buffer::new();
    put_parts(sink, &[before, buffer.format(number).as_bytes(), after])
}

// The start of an indented line that has a title.
pub(crate) fn put_title<K: Sink>(sink: &mut K, title: &[u8]) -> Result<(), WriteFault>
    ensures { Wrote (codes "  " ++ title.now ++ codes ": ")
        (K.seen sink.old) (K.seen sink.new) result }
{
    put_parts(sink, &[b"  ", title, b": "])
}

// A number after a text.
pub(crate) fn put_number_after<K: Sink>(
    sink: &mut K,
    before: &[u8],
    number: u32,
) -> Result<(), WriteFault>
    ensures { Wrote (before.now ++ decimal number) (K.seen sink.old) (K.seen sink.new) result }
{
    let mut buffer = Buffer::new();
    put_parts(sink, &[before, buffer.format(number).as_bytes()])
}

// A number.
pub(crate) fn put_digits<K: Sink>(sink: &mut K, number: u32) -> Result<(), WriteFault>
    ensures { Wrote (decimal number) (K.seen sink.old) (K.seen sink.new) result }
{
    let mut buffer = Buffer::new();
    put_all(sink, buffer.format(number).as_bytes())
}

// A number of a list, after a space unless it is the first.
fn put_item<K: Sink>(sink: &mut K, before: usize, number: u32) -> Result<(), WriteFault>
    ensures { Wrote (with_separator (codes " ") before (decimal number))
        (K.seen sink.old) (K.seen sink.new) result }
{
    let mut buffer = Buffer::new();
    put_between(sink, b" ", before, buffer.format(number).as_bytes())
}

// All numbers of a list.
pub(crate) fn put_numbers<K: Sink>(sink: &mut K, numbers: &[u32]) -> Result<(), WriteFault>
    ensures { Wrote (numbers_text numbers.now) (K.seen sink.old) (K.seen sink.new) result }
{
    for i in 0..numbers.len() {
        put_item(sink, i, numbers[i])?;
    }
    Ok(())
}

// A whole number of a list, after a space unless it is the first.
pub(crate) fn put_entry<K: Sink>(
    sink: &mut K,
    before: usize,
    value: &i128,
) -> Result<(), WriteFault>
    ensures { Wrote (with_separator (codes " ") before (signed_decimal value.now))
        (K.seen sink.old) (K.seen sink.new) result }
{
    let mut buffer = Buffer::new();
    put_between(sink, b" ", before, buffer.format(*value).as_bytes())
}

// All whole numbers of a list.
pub(crate) fn put_vector<K: Sink>(sink: &mut K, values: &[i128]) -> Result<(), WriteFault>
    ensures { Wrote (vector_text values.now) (K.seen sink.old) (K.seen sink.new) result }
{
    for i in 0..values.len() {
        put_entry(sink, i, &values[i])?;
    }
    Ok(())
}

// A shelf by its number.
fn shelf_name(value: &i128) -> &'static [u8]
    ensures { result.now ≡ shelf value.now }
{
    if *value == 0 {
        b"middle"
    } else if *value > 0 {
        b"upper"
    } else {
        b"lower"
    }
}

// All shelves.
pub(crate) fn put_shelves<K: Sink>(sink: &mut K, shelves: &[i128]) -> Result<(), WriteFault>
    ensures { Wrote (shelves_text shelves.now) (K.seen sink.old) (K.seen sink.new) result }
{
    for i in 0..shelves.len() {
        put_between(sink, b" ", i, shelf_name(&shelves[i]))?;
    }
    Ok(())
}

// Complex c, counted from 0, after a semicolon unless it is the first that is written. The text is a buffer.
pub(crate) fn put_complex<K: Sink>(
    sink: &mut K,
    before: usize,
    net: &Network,
    c: usize,
    text: &mut SideText,
) -> Result<(), WriteFault>
    requires { c < length net.now.complexes }
    ensures { Wrote (with_separator (codes "; ") before (complex_text net.now c))
        (K.seen sink.old) (K.seen sink.new) result }
{
    text.set(net, c);
    put_between(sink, b"; ", before, text.as_slice())
}

// All complexes. The text is a buffer.
pub(crate) fn put_complexes<K: Sink>(
    sink: &mut K,
    net: &Network,
    text: &mut SideText,
) -> Result<(), WriteFault>
    ensures { Wrote (joined (codes "; ") (complex_texts net.now))
        (K.seen sink.old) (K.seen sink.new) result }
{
    for c in 0..net.complexes() {
        put_complex(sink, c, net, c, text)?;
    }
    Ok(())
}

// The complexes of a walk, which counts them from 1. The text is a buffer.
pub(crate) fn put_walk<K: Sink>(
    sink: &mut K,
    net: &Network,
    walk: &[u32],
    text: &mut SideText,
) -> Result<(), WriteFault>
    requires { AllByRecursion (IsFrom 1 (length net.now.complexes)) walk.now }
    ensures { Wrote (walk_text net.now walk.now) (K.seen sink.old) (K.seen sink.new) result }
{
    for i in 0..walk.len() {
        put_complex(sink, i, net, walk[i] as usize - 1, text)?;
    }
    Ok(())
}

// Complex c, counted from 0. The text is a buffer.
fn put_side<K: Sink>(
    sink: &mut K,
    net: &Network,
    c: usize,
    text: &mut SideText,
) -> Result<(), WriteFault>
    requires { c < length net.now.complexes }
    ensures { Wrote (complex_text net.now c) (K.seen sink.old) (K.seen sink.new) result }
{
    text.set(net, c);
    put_all(sink, text.as_slice())
}

// The reaction from complex y to complex z. The text is a buffer.
fn put_arrow<K: Sink>(
    sink: &mut K,
    net: &Network,
    y: usize,
    z: usize,
    text: &mut SideText,
) -> Result<(), WriteFault>
    requires reactant { y < length net.now.complexes }
    requires product { z < length net.now.complexes }
    ensures { Wrote (arrow_text net.now (y, z)) (K.seen sink.old) (K.seen sink.new) result }
{
    put_side(sink, net, y, text)?;
    put_all(sink, b" -> ")?;
    put_side(sink, net, z, text)
}

// Reaction r, counted from 1. The text is a buffer.
pub(crate) fn put_reaction<K: Sink>(
    sink: &mut K,
    net: &Network,
    r: u32,
    text: &mut SideText,
) -> Result<(), WriteFault>
    requires { IsFrom 1 (length net.now.reactions) r }
    ensures { Wrote (reaction_text net.now r) (K.seen sink.old) (K.seen sink.new) result }
{
    let place = r as usize - 1;
    put_arrow(sink, net, net.reactant(place), net.product(place), text)
}
