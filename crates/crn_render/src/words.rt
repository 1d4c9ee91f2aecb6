ghost use Rattle.std.specs.Prelude.{◌≡◌, ◌<◌, ◌++◌, codes, decimal};
ghost use Rattle.crn_io.specs.Write.{Wrote};
ghost use Rattle.crn_render.specs.Words.{title as title_text, numbers_text, gap_words, yes_words as yes_text, weak_words as weak_text, no_words as no_text, verdict_words, question_line};
ghost use Rattle.crn_render.specs.Inner.Reading.{question_at};

use crate::parts::{put_digits, put_number, put_number_after, put_numbers};
use crn_cert::{Gap, Verdict};
use crn_io::{Sink, WriteFault, put_all, put_parts};
use itoa::Buffer;

// The title of the question at a place, counted from 0.
fn title(place: usize) -> &'static [u8]
    requires { place < 15 }
    ensures { result.now ≡ title_text (question_at place) }
{
    match place {
        0 => b"Q1 linkage classes",
        1 => b"Q2 strong classes",
        2 => b"Q3 reversible",
        3 => b"Q4 weakly reversible",
        4 => b"Q5 rank",
        5 => b"Q6 deficiency",
        6 => b"Q7 positively dependent",
        7 => b"Q8 conservative",
        8 => b"Q9 deficiency zero theorem",
        9 => b"Q10 deficiency one theorem",
        10 => b"Q11 regular",
        11 => b"Q12 confluence vector",
        12 => b"Q13 signal",
        13 => b"Q14 concordant",
        _ => b"Q15 strongly concordant",
    }
}

// A plain yes.
fn yes_words(place: usize) -> &'static [u8]
    requires { place < 15 }
    ensures { result.now ≡ yes_text (question_at place) }
{
    match place {
        9 => b"hypotheses hold",
        _ => b"yes",
    }
}

// The case of the Deficiency Zero Theorem.
fn weak_words(weak: bool) -> &'static [u8]
    ensures { result.now ≡ weak_text weak }
{
    match weak {
        true => b"hypotheses hold, weakly reversible",
        false => b"hypotheses hold, not weakly reversible",
    }
}

// What goes before the reason of a no.
fn no_words(place: usize) -> &'static [u8]
    requires { place < 15 }
    ensures { result.now ≡ no_text (question_at place) }
{
    match place {
        10 => b"no, ",
        _ => b"hypotheses fail, ",
    }
}

// Why a question is open.
fn put_gap_words<K: Sink>(sink: &mut K, gap: &Gap) -> Result<(), WriteFault>
    ensures { Wrote (gap_words gap.now) (K.seen sink.old) (K.seen sink.new) result }
{
    match gap {
        Gap::Wide { .. } => put_all(sink, b"open, wide"),
        Gap::Budget { nodes } => put_number_after(sink, b"open, budget ", *nodes),
        Gap::Rests { question } => put_number_after(sink, b"open, rests on Q", *question),
    }
}

// Two numbers with a text between them.
fn put_pair<K: Sink>(
    sink: &mut K,
    first: u32,
    between: &[u8],
    second: u32,
) -> Result<(), WriteFault>
    ensures { Wrote (decimal first ++ between.now ++ decimal second)
        (K.seen sink.old) (K.seen sink.new) result }
{
    let mut one = Buffer::new();
    let mut two = Buffer::new();
    let first_digits = one.format(first).as_bytes();
    let second_digits = two.format(second).as_bytes();
    put_parts(sink, &[first_digits, between, second_digits])
}

// The deficiency of the network and those of its linkage classes.
fn put_deficiencies<K: Sink>(sink: &mut K, total: u32, classes: &[u32]) -> Result<(), WriteFault>
    ensures { Wrote (decimal total ++ codes ", classes " ++ numbers_text classes.now)
        (K.seen sink.old) (K.seen sink.new) result }
{
    put_digits(sink, total)?;
    put_all(sink, b", classes ")?;
    put_numbers(sink, classes)
}

// A class with several terminal classes, after what goes before the reason of a no.
fn put_split_class<K: Sink>(
    sink: &mut K,
    before: &[u8],
    class: u32,
    count: u32,
) -> Result<(), WriteFault>
    ensures { Wrote (before.now ++ codes "class " ++ decimal class ++ codes " has "
        ++ decimal count ++ codes " terminal classes") (K.seen sink.old) (K.seen sink.new) result }
{
    let mut one = Buffer::new();
    let mut two = Buffer::new();
    let class_digits = one.format(class).as_bytes();
    let digits = two.format(count).as_bytes();
    put_parts(
        sink,
        &[
            before,
            b"class ",
            class_digits,
            b" has ",
            digits,
            b" terminal classes",
        ],
    )
}

// A class of large deficiency, after what goes before the reason of a no.
fn put_large_class<K: Sink>(
    sink: &mut K,
    before: &[u8],
    class: u32,
    number: u32,
) -> Result<(), WriteFault>
    ensures { Wrote (before.now ++ codes "class " ++ decimal class ++ codes " has deficiency "
        ++ decimal number) (K.seen sink.old) (K.seen sink.new) result }
{
    let mut one = Buffer::new();
    let mut two = Buffer::new();
    let class_digits = one.format(class).as_bytes();
    let digits = two.format(number).as_bytes();
    put_parts(
        sink,
        &[before, b"class ", class_digits, b" has deficiency ", digits],
    )
}

// The sum of the class deficiencies, after what goes before the reason of a no.
fn put_sum<K: Sink>(sink: &mut K, before: &[u8], sum: u32) -> Result<(), WriteFault>
    ensures { Wrote (before.now ++ codes "class deficiencies sum to " ++ decimal sum)
        (K.seen sink.old) (K.seen sink.new) result }
{
    let mut buffer = Buffer::new();
    let digits = buffer.format(sum).as_bytes();
    put_parts(sink, &[before, b"class deficiencies sum to ", digits])
}

// The words of a verdict on the question at a place.
fn put_words<K: Sink>(sink: &mut K, place: usize, verdict: &Verdict) -> Result<(), WriteFault>
    requires { place < 15 }
    ensures { Wrote (verdict_words (question_at place) verdict.now)
        (K.seen sink.old) (K.seen sink.new) result }
{
    let no = no_words(place);
    match verdict {
        Verdict::Classes { count, .. } => put_digits(sink, *count),
        Verdict::Strong {
            count,
            terminal,
            ..
        } => put_pair(sink, *count, b", terminal ", *terminal),
        Verdict::Rank { rank, .. } => put_digits(sink, *rank),
        Verdict::Deficiency { total, classes } => {
            put_deficiencies(sink, *total, classes.as_slice())
        }
        Verdict::Yes => put_all(sink, yes_words(place)),
        Verdict::YesWeak { weak } => put_all(sink, weak_words(*weak)),
        Verdict::YesVec { .. } => put_all(sink, b"yes"),
        Verdict::YesSignal { .. } => put_all(sink, b"yes"),
        Verdict::No => put_all(sink, b"no"),
        Verdict::NoReaction { .. } => put_all(sink, b"no"),
        Verdict::NoVec { .. } => put_all(sink, b"no"),
        Verdict::NoNumber { number } => {
            put_number_after(sink, b"hypotheses fail, deficiency ", *number)
        }
        Verdict::NoTerminal { class, count } => put_split_class(sink, no, *class, *count),
        Verdict::NoClass { class, number } => put_large_class(sink, no, *class, *number),
        Verdict::NoSum { sum } => put_sum(sink, no, *sum),
        Verdict::NoDependence => put_parts(sink, &[no, b"not positively dependent"]),
        Verdict::NoCycle { .. } => put_parts(sink, &[no, b"a cycle in a terminal class"]),
        Verdict::NoPair { .. } => put_all(sink, b"no"),
        Verdict::NotRegular => put_all(sink, b"not applicable, not regular"),
        Verdict::OnlyZero => put_all(sink, b"not applicable, no vector but zero"),
        Verdict::Plane { .. } => put_all(sink, b"not applicable, two independent vectors"),
        Verdict::NotApplicable => put_all(sink, b"not applicable"),
        Verdict::Unknown(gap) => put_gap_words(sink, gap),
    }
}

// The line of the question at a place, counted from 0, with its verdict.
pub(crate) fn put_question_line<K: Sink>(
    sink: &mut K,
    place: usize,
    verdict: &Verdict,
) -> Result<(), WriteFault>
    requires { place < 15 }
    ensures { Wrote (question_line (question_at place) verdict.now)
        (K.seen sink.old) (K.seen sink.new) result }
{
    put_parts(sink, &[title(place), b": "])?;
    put_words(sink, place, verdict)?;
    put_all(sink, b"\n")
}
