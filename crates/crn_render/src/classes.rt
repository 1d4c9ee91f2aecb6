ghost use Rattle.std.specs.Prelude.{◌≡◌, ◌≢◌, ◌↔◌, ◌<◌, ◌≤◌, ◌++◌, ◌-◌, codes, length, slice_index, IsTrue, IfSome};
ghost use Rattle.crn_io.specs.Write.{Wrote};
ghost use Rattle.crn_render.specs.Details.{members_text, class_line, strong_line, terminal_text, lines_from};
ghost use Rattle.crn_render.specs.Inner.Members.{AreOthers, IsFirst};

use crate::parts::{put_complex, put_number};
use crn_io::{Sink, WriteFault, put_all};
use crn_net::Network;
use crn_text::SideText;

// Whether a label is not that of a class.
fn is_other(label: u32, class: u32) -> bool
    ensures { IsTrue result ↔ (label ≢ class) }
{
    label != class
}

// Whether both hold, by one test.
fn both(left: bool, right: bool) -> bool
    ensures { IsTrue result ↔ (IsTrue left × IsTrue right) }
{
    left & right
}

// The labels after the first eight, if none of these is that of a class.
fn after_eight(labels: &[u32], class: u32) -> Option<&[u32]>
    ensures { IfSome result (λ rest. AreOthers 8 class labels.now rest.now) }
{
    match labels {
        [a, b, c, d, e, f, g, h, rest @ ..] => {
            let ab = both(is_other(*a, class), is_other(*b, class));
            let cd = both(is_other(*c, class), is_other(*d, class));
            let ef = both(is_other(*e, class), is_other(*f, class));
            let gh = both(is_other(*g, class), is_other(*h, class));
            if both(both(ab, cd), both(ef, gh)) {
                return Some(rest);
            }
            None
        }
        _ => None,
    }
}

// How many labels come before the first one of a class.
fn others(labels: &[u32], class: u32) -> usize
    ensures { IsFirst class labels.now result }
{
    if let Some(rest) = after_eight(labels, class) {
        return 8 + others(rest, class);
    }
    match labels {
        [label, rest @ ..] => {
            if *label == class {
                return 0;
            }
            1 + others(rest, class)
        }
        [] => 0,
    }
}

// The complexes of a class. The text is a buffer.
fn put_members<K: Sink>(
    sink: &mut K,
    net: &Network,
    labels: &[u32],
    class: u32,
    text: &mut SideText,
) -> Result<(), WriteFault>
    requires { length labels.now ≡ length net.now.complexes }
    ensures { Wrote (members_text net.now labels.now class)
        (K.seen sink.old) (K.seen sink.new) result }
{
    let mut shown = 0usize;
    let mut c = others(labels, class);
    while c < labels.len() {
        put_complex(sink, shown, net, c, text)?;
        shown += 1;
        let (_, rest) = labels.split_at(c + 1);
        c += 1 + others(rest, class);
    }
    Ok(())
}

// The line of a linkage class. The text is a buffer.
fn put_class<K: Sink>(
    sink: &mut K,
    net: &Network,
    labels: &[u32],
    class: u32,
    text: &mut SideText,
) -> Result<(), WriteFault>
    requires { length labels.now ≡ length net.now.complexes }
    ensures { Wrote (class_line net.now labels.now class)
        (K.seen sink.old) (K.seen sink.new) result }
{
    put_number(sink, b"  class ", class as usize, b": ")?;
    put_members(sink, net, labels, class, text)?;
    put_all(sink, b"\n")
}

// The lines of all linkage classes. The text is a buffer.
pub(crate) fn put_classes<K: Sink>(
    sink: &mut K,
    net: &Network,
    labels: &[u32],
    count: u32,
    text: &mut SideText,
) -> Result<(), WriteFault>
    requires { length labels.now ≡ length net.now.complexes }
    ensures { Wrote (lines_from (class_line net.now labels.now) 1 count)
        (K.seen sink.old) (K.seen sink.new) result }
{
    for k in 0..count {
        put_class(sink, net, labels, k + 1, text)?;
    }
    Ok(())
}

// What ends the line of a strong class, by its exit.
fn terminal_mark(exit: u32) -> &'static [u8]
    ensures { result.now ≡ terminal_text exit }
{
    match exit {
        0 => b" (terminal)",
        _ => b"",
    }
}

// The complexes of a strong class, and whether it is terminal. The text is a buffer.
fn put_strong_members<K: Sink>(
    sink: &mut K,
    net: &Network,
    labels: &[u32],
    class: u32,
    exit: u32,
    text: &mut SideText,
) -> Result<(), WriteFault>
    requires { length labels.now ≡ length net.now.complexes }
    ensures { Wrote (members_text net.now labels.now class ++ terminal_text exit)
        (K.seen sink.old) (K.seen sink.new) result }
{
    put_members(sink, net, labels, class, text)?;
    put_all(sink, terminal_mark(exit))
}

// The line of a strong class, counted from 1. The text is a buffer.
fn put_strong_class<K: Sink>(
    sink: &mut K,
    net: &Network,
    labels: &[u32],
    exits: &[u32],
    class: u32,
    text: &mut SideText,
) -> Result<(), WriteFault>
    requires labels { length labels.now ≡ length net.now.complexes }
    requires some { 1 ≤ class }
    requires exits { class ≤ length exits.now }
    ensures { Wrote (strong_line net.now labels.now exits.now class)
        (K.seen sink.old) (K.seen sink.new) result }
{
    put_number(sink, b"  strong ", class as usize, b": ")?;
    let exit = exits[class as usize - 1];
    put_strong_members(sink, net, labels, class, exit, text)?;
    put_all(sink, b"\n")
}

// The lines of all strong classes. The text is a buffer.
pub(crate) fn put_strong_classes<K: Sink>(
    sink: &mut K,
    net: &Network,
    labels: &[u32],
    exits: &[u32],
    count: u32,
    text: &mut SideText,
) -> Result<(), WriteFault>
    requires labels { length labels.now ≡ length net.now.complexes }
    requires exits { count ≤ length exits.now }
    ensures { Wrote (lines_from (strong_line net.now labels.now exits.now) 1 count)
        (K.seen sink.old) (K.seen sink.new) result }
{
    for k in 0..count {
        put_strong_class(sink, net, labels, exits, k + 1, text)?;
    }
    Ok(())
}
