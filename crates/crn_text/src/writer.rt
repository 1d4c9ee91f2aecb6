ghost use Rattle.std.specs.Prelude.{◌≡◌, ◌<◌, pos, ◌<ℤ◌, codes, length, slice_index_or};
ghost use Rattle.crn_io.specs.Write.{Wrote};
ghost use Rattle.crn_io.specs.Joined.{with_separator};
ghost use Rattle.crn_text.specs.Canonical.{term, complex_text, reaction_line, canonical};

use crate::side_text::SideText;
use crn_io::{Sink, WriteFault, put_all};
use crn_net::Network;

/// Writes complex c, counted from 0, as it is in the canonical text. Takes no memory.
pub fn write_side<K: Sink>(net: &Network, c: usize, sink: &mut K) -> Result<(), WriteFault>
    requires { c < length net.now.complexes }
    ensures { Wrote (complex_text net.now c) (K.seen sink.old) (K.seen sink.new) result }
{
    put_side(net, c, &mut SideText::new(), sink)
}

// Writes complex c. The text is a buffer.
fn put_side<K: Sink>(
    net: &Network,
    c: usize,
    text: &mut SideText,
    sink: &mut K,
) -> Result<(), WriteFault>
    requires { c < length net.now.complexes }
    ensures { Wrote (complex_text net.now c) (K.seen sink.old) (K.seen sink.new) result }
{
    text.set(net, c);
    put_all(sink, text.as_slice())
}

// The line of a reaction from complex y to complex z.
fn put_line<K: Sink>(
    net: &Network,
    y: usize,
    z: usize,
    text: &mut SideText,
    sink: &mut K,
) -> Result<(), WriteFault>
    requires reactant { y < length net.now.complexes }
    requires product { z < length net.now.complexes }
    ensures { Wrote (reaction_line net.now (y, z)) (K.seen sink.old) (K.seen sink.new) result }
{
    put_side(net, y, text, sink)?;
    put_all(sink, b" -> ")?;
    put_side(net, z, text, sink)?;
    put_all(sink, b"\n")
}

// The line of reaction r, counted from 0.
fn put_reaction<K: Sink>(
    net: &Network,
    r: usize,
    text: &mut SideText,
    sink: &mut K,
) -> Result<(), WriteFault>
    requires { r < length net.now.reactions }
    ensures { Wrote (reaction_line net.now (slice_index_or net.now.reactions r (0, 0)))
        (K.seen sink.old) (K.seen sink.new) result }
{
    put_line(net, net.reactant(r), net.product(r), text, sink)
}

/// Writes the canonical text: a line for each reaction, in order. Takes no memory.
pub fn write<K: Sink>(net: &Network, sink: &mut K) -> Result<(), WriteFault>
    ensures { Wrote (canonical net.now) (K.seen sink.old) (K.seen sink.new) result }
{
    let mut text = SideText::new();
    for r in 0..net.reactions() {
        put_reaction(net, r, &mut text, sink)?;
    }
    Ok(())
}
