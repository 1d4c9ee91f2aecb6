ghost use Rattle.std.specs.Prelude.{◌≡◌, ◌<◌, ◌≤◌, ◌++◌, codes, decimal, length};
ghost use Rattle.std.specs.Fmt.{signed_decimal};
ghost use Rattle.std.specs.List.{AllByRecursion};
ghost use Rattle.crn_cert.specs.Ranges.{IsFrom, AreFree};
ghost use Rattle.crn_io.specs.Write.{Wrote};
ghost use Rattle.crn_render.specs.Words.{numbers_text};
ghost use Rattle.crn_render.specs.Details.{titled_line, vector_text, vector_title as vector_text_title, reaction_text, walk_text, shelves_text, class_text, system_line, index_line, gap_details, signal_details, sigma, details};
ghost use Rattle.crn_render.specs.Inner.Reading.{question_at, IsReadable};

use crate::classes::{put_classes, put_strong_classes};
use crate::parts::{
    put_number, put_number_after, put_numbers, put_reaction, put_shelves, put_title, put_vector,
    put_walk,
};
use crate::sigma::put_sigma_line;
use crn_cert::{Gap, Verdict};
use crn_io::{Sink, WriteFault, put_all, put_parts};
use crn_net::Network;
use crn_text::SideText;
use itoa::Buffer;

// The line of a list of numbers.
fn put_numbers_entry<K: Sink>(sink: &mut K, title: &[u8], numbers: &[u32]) -> Result<(), WriteFault>
    ensures { Wrote (titled_line title.now (numbers_text numbers.now))
        (K.seen sink.old) (K.seen sink.new) result }
{
    put_title(sink, title)?;
    put_numbers(sink, numbers)?;
    put_all(sink, b"\n")
}

// The line of a vector.
fn put_vector_entry<K: Sink>(sink: &mut K, title: &[u8], vector: &[i128]) -> Result<(), WriteFault>
    ensures { Wrote (titled_line title.now (vector_text vector.now))
        (K.seen sink.old) (K.seen sink.new) result }
{
    put_title(sink, title)?;
    put_vector(sink, vector)?;
    put_all(sink, b"\n")
}

// The lines of two vectors with one title.
fn put_two_vectors<K: Sink>(
    sink: &mut K,
    title: &[u8],
    one: &[i128],
    two: &[i128],
) -> Result<(), WriteFault>
    ensures { Wrote (titled_line title.now (vector_text one.now)
        ++ titled_line title.now (vector_text two.now))
        (K.seen sink.old) (K.seen sink.new) result }
{
    put_vector_entry(sink, title, one)?;
    put_vector_entry(sink, title, two)
}

// The line of a reaction. The text is a buffer.
fn put_reaction_entry<K: Sink>(
    sink: &mut K,
    net: &Network,
    r: u32,
    text: &mut SideText,
) -> Result<(), WriteFault>
    requires { IsFrom 1 (length net.now.reactions) r }
    ensures { Wrote (titled_line (codes "reaction " ++ decimal r) (reaction_text net.now r))
        (K.seen sink.old) (K.seen sink.new) result }
{
    put_number(sink, b"  reaction ", r as usize, b": ")?;
    put_reaction(sink, net, r, text)?;
    put_all(sink, b"\n")
}

// The start of the line of a reaction and a walk.
fn put_walk_title<K: Sink>(sink: &mut K, r: u32) -> Result<(), WriteFault>
    ensures { Wrote (codes "  " ++ (codes "reaction " ++ decimal r ++ codes ", walk") ++ codes ": ")
        (K.seen sink.old) (K.seen sink.new) result }
{
    let mut buffer = Buffer::new();
    put_parts(
        sink,
        &[
            b"  reaction ",
            buffer.format(r).as_bytes(),
            b", walk",
            b": ",
        ],
    )
}

// The line of a reaction and a walk. The text is a buffer.
fn put_walk_entry<K: Sink>(
    sink: &mut K,
    net: &Network,
    r: u32,
    walk: &[u32],
    text: &mut SideText,
) -> Result<(), WriteFault>
    requires { AllByRecursion (IsFrom 1 (length net.now.complexes)) walk.now }
    ensures { Wrote (titled_line (codes "reaction " ++ decimal r ++ codes ", walk")
        (walk_text net.now walk.now)) (K.seen sink.old) (K.seen sink.new) result }
{
    put_walk_title(sink, r)?;
    put_walk(sink, net, walk, text)?;
    put_all(sink, b"\n")
}

// What the vector of a yes is.
fn vector_title(place: usize) -> &'static [u8]
    requires { place < 15 }
    ensures { result.now ≡ vector_text_title (question_at place) }
{
    match place {
        6 => b"positive combination",
        7 => b"positive law",
        _ => b"vector",
    }
}

// The line of a whole number.
fn put_value_entry<K: Sink>(sink: &mut K, title: &[u8], value: &i128) -> Result<(), WriteFault>
    ensures { Wrote (titled_line title.now (signed_decimal value.now))
        (K.seen sink.old) (K.seen sink.new) result }
{
    let mut buffer = Buffer::new();
    put_parts(
        sink,
        &[b"  ", title, b": ", buffer.format(*value).as_bytes(), b"\n"],
    )
}

// The line of the shelves, after its title.
fn put_shelves_entry<K: Sink>(
    sink: &mut K,
    title: &[u8],
    shelves: &[i128],
) -> Result<(), WriteFault>
    ensures { Wrote (titled_line title.now (shelves_text shelves.now))
        (K.seen sink.old) (K.seen sink.new) result }
{
    put_title(sink, title)?;
    put_shelves(sink, shelves)?;
    put_all(sink, b"\n")
}

// The line of a sign.
fn put_turn_entry<K: Sink>(sink: &mut K, title: &[u8], turn: &i32) -> Result<(), WriteFault>
    ensures { Wrote (titled_line title.now (signed_decimal turn.now))
        (K.seen sink.old) (K.seen sink.new) result }
{
    let mut buffer = Buffer::new();
    put_parts(
        sink,
        &[b"  ", title, b": ", buffer.format(*turn).as_bytes(), b"\n"],
    )
}

// The lines of a signal.
fn put_signal<K: Sink>(
    sink: &mut K,
    turn: &i32,
    shelves: &[i128],
    mu: &[i128],
    m: &i128,
) -> Result<(), WriteFault>
    ensures { Wrote (signal_details turn.now shelves.now mu.now m.now)
        (K.seen sink.old) (K.seen sink.new) result }
{
    put_turn_entry(sink, b"turn", turn)?;
    put_shelves_entry(sink, b"shelves", shelves)?;
    put_vector_entry(sink, b"mu", mu)?;
    put_value_entry(sink, b"m", m)
}

// The class of a system, if it is that of a class.
fn put_system_class<K: Sink>(sink: &mut K, class: u32) -> Result<(), WriteFault>
    ensures { Wrote (class_text class) (K.seen sink.old) (K.seen sink.new) result }
{
    if class == 0 {
        return Ok(());
    }
    let mut buffer = Buffer::new();
    put_parts(sink, &[b" class ", buffer.format(class).as_bytes()])
}

// The system of an open question, and its class.
fn put_system_line<K: Sink>(sink: &mut K, system: u32, class: u32) -> Result<(), WriteFault>
    ensures { Wrote (system_line system class) (K.seen sink.old) (K.seen sink.new) result }
{
    put_number_after(sink, b"  system ", system)?;
    put_system_class(sink, class)?;
    put_all(sink, b"\n")
}

// The index of an open question.
#[tactic(auto, unfolding(crate::specs::Details::index_line))]
fn put_index_line<K: Sink>(sink: &mut K, index: u32) -> Result<(), WriteFault>
    ensures { Wrote (index_line index) (K.seen sink.old) (K.seen sink.new) result }
{
    put_number(sink, b"  index ", index as usize, b"\n")
}

// The lines of a question that a wide vector leaves open.
fn put_wide<K: Sink>(
    sink: &mut K,
    system: u32,
    class: u32,
    index: u32,
    basis: &[u32],
) -> Result<(), WriteFault>
    ensures { Wrote (system_line system class ++ index_line index
        ++ titled_line (codes "basis") (numbers_text basis.now))
        (K.seen sink.old) (K.seen sink.new) result }
{
    put_system_line(sink, system, class)?;
    put_index_line(sink, index)?;
    put_numbers_entry(sink, b"basis", basis)
}

// The lines of an open question.
fn put_gap_details<K: Sink>(sink: &mut K, gap: &Gap) -> Result<(), WriteFault>
    ensures { Wrote (gap_details gap.now) (K.seen sink.old) (K.seen sink.new) result }
{
    match gap {
        Gap::Wide {
            system,
            class,
            index,
            basis,
        } => put_wide(sink, *system, *class, *index, basis.as_slice()),
        Gap::Budget { .. } => Ok(()),
        Gap::Rests { .. } => Ok(()),
    }
}

// The lines of the two lists that show a network not concordant.
fn put_table_pair<K: Sink>(
    sink: &mut K,
    net: &Network,
    alpha: &[i128],
    weights: &[i128],
) -> Result<(), WriteFault>
    requires { AreFree (length net.now.reactions) weights.now }
    ensures { Wrote (titled_line (codes "sigma") (vector_text (sigma net.now weights.now))
        ++ titled_line (codes "alpha") (vector_text alpha.now))
        (K.seen sink.old) (K.seen sink.new) result }
{
    put_sigma_line(sink, b"sigma", net, weights)?;
    put_vector_entry(sink, b"alpha", alpha)
}

// The lines below the line of the question at a place, counted from 0. The text is a buffer.
pub(crate) fn put_details<K: Sink>(
    sink: &mut K,
    net: &Network,
    place: usize,
    verdict: &Verdict,
    text: &mut SideText,
) -> Result<(), WriteFault>
    requires place { place < 15 }
    requires inside { IsReadable net.now verdict.now }
    ensures { Wrote (details net.now (question_at place) verdict.now)
        (K.seen sink.old) (K.seen sink.new) result }
{
    match verdict {
        Verdict::Classes { count, label } => put_classes(sink, net, label.as_slice(), *count, text),
        Verdict::Strong {
            count,
            label,
            exit,
            ..
        } => put_strong_classes(sink, net, label.as_slice(), exit.as_slice(), *count, text),
        Verdict::Rank { base, .. } => {
            put_numbers_entry(sink, b"independent reactions", base.as_slice())
        }
        Verdict::YesVec { vector } => {
            put_vector_entry(sink, vector_title(place), vector.as_slice())
        }
        Verdict::YesSignal {
            turn,
            shelves,
            mu,
            m,
            ..
        } => put_signal(sink, turn, shelves.as_slice(), mu.as_slice(), m),
        Verdict::NoReaction { reaction } => put_reaction_entry(sink, net, *reaction, text),
        Verdict::NoVec { multipliers } => {
            put_vector_entry(sink, b"multipliers", multipliers.as_slice())
        }
        Verdict::NoCycle { reaction, walk } => {
            put_walk_entry(sink, net, *reaction, walk.as_slice(), text)
        }
        Verdict::NoPair { alpha, weights } => {
            put_table_pair(sink, net, alpha.as_slice(), weights.as_slice())
        }
        Verdict::Plane { one, two, .. } => {
            put_two_vectors(sink, b"vector", one.as_slice(), two.as_slice())
        }
        Verdict::Unknown(gap) => put_gap_details(sink, gap),
        _ => Ok(()),
    }
}
