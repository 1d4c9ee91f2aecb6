ghost use Rattle.std.specs.Prelude.{◌≡◌, ◌≤◌, ◌∷◌, [], ◌++◌, map};
ghost use Rattle.crn_io.specs.Write.{Wrote};
ghost use Rattle.crn_ctext.specs.Answers.{head_of};
ghost use Rattle.crn_ctext.specs.Documents.{record_lines, section};
ghost use Rattle.crn_ctext.specs.Questions.{opens};
ghost use Rattle.crn_ctext.specs.Records.{numbers_text};
ghost use Rattle.crn_ctext.specs.Inner.Written.{words_text, question_at, head_words, head_numbers, gap_words, gap_numbers};

use crate::write_record::{put_first, put_int, put_num, put_nums};
use crn_cert::{Gap, Verdict};
use crn_io::{Sink, WriteFault, put_all, put_parts};
use itoa::Buffer;

// The words of an open answer's head, each after a space.
fn gap_text(gap: &Gap) -> &'static [u8]
    ensures { result.now ≡ words_text (gap_words gap.now) }
{
    match gap {
        Gap::Wide { .. } => b" open wide",
        Gap::Budget { .. } => b" open budget",
        Gap::Rests { .. } => b" open rests",
    }
}

// The words of a head after its question's, each after a space.
fn head_text(verdict: &Verdict) -> &'static [u8]
    ensures { result.now ≡ words_text (head_words verdict.now) }
{
    match verdict {
        Verdict::Yes
        | Verdict::YesWeak { .. }
        | Verdict::YesVec { .. }
        | Verdict::YesSignal { .. } => b" yes",
        Verdict::No
        | Verdict::NoReaction { .. }
        | Verdict::NoVec { .. }
        | Verdict::NoNumber { .. }
        | Verdict::NoPair { .. } => b" no",
        Verdict::NoTerminal { .. } => b" no terminal",
        Verdict::NoClass { .. } => b" no class",
        Verdict::NoSum { .. } => b" no sum",
        Verdict::NoDependence => b" no dependence",
        Verdict::NoCycle { .. } => b" no cycle",
        Verdict::NotRegular => b" none regular",
        Verdict::OnlyZero => b" none zero",
        Verdict::Plane { .. } => b" none plane",
        Verdict::NotApplicable => b" none",
        Verdict::Unknown(gap) => gap_text(gap),
        Verdict::Classes { .. }
        | Verdict::Strong { .. }
        | Verdict::Rank { .. }
        | Verdict::Deficiency { .. } => b"",
    }
}

// The numbers of an open answer's head, each after a space.
fn put_gap<K: Sink>(sink: &mut K, gap: &Gap) -> Result<(), WriteFault>
    ensures { Wrote (numbers_text (gap_numbers gap.now))
        (K.seen sink.old) (K.seen sink.new) result }
{
    match gap {
        Gap::Wide {
            system,
            class,
            index,
            basis,
        } => {
            put_nums(sink, &[*system, *class])?;
            put_first(sink, *index, basis.as_slice())
        }
        Gap::Budget { nodes } => put_num(sink, *nodes),
        Gap::Rests { question } => put_num(sink, *question),
    }
}

// The numbers of a head, each after a space.
fn put_head_numbers<K: Sink>(sink: &mut K, verdict: &Verdict) -> Result<(), WriteFault>
    ensures { Wrote (numbers_text (head_numbers verdict.now))
        (K.seen sink.old) (K.seen sink.new) result }
{
    match verdict {
        Verdict::Classes { count, .. } => put_num(sink, *count),
        Verdict::Strong {
            count,
            terminal,
            ..
        } => put_first(sink, *count, &[*terminal]),
        Verdict::Rank { rank, .. } => put_num(sink, *rank),
        Verdict::Deficiency { total, classes } => put_first(sink, *total, classes.as_slice()),
        Verdict::YesWeak { weak } => put_num(sink, u32::from(*weak)),
        Verdict::YesSignal { turn, .. } => put_int(sink, &i128::from(*turn)),
        Verdict::NoReaction { reaction } => put_num(sink, *reaction),
        Verdict::NoNumber { number } => put_num(sink, *number),
        Verdict::NoTerminal { class, count } => put_first(sink, *class, &[*count]),
        Verdict::NoClass { class, number } => put_first(sink, *class, &[*number]),
        Verdict::NoSum { sum } => put_num(sink, *sum),
        Verdict::NoCycle { reaction, .. } => put_num(sink, *reaction),
        Verdict::Plane { first, second, .. } => put_first(sink, *first, &[*second]),
        Verdict::Unknown(gap) => put_gap(sink, gap),
        _ => Ok(()),
    }
}

// The head of an answer to this question.
pub(crate) fn put_head<K: Sink>(
    sink: &mut K,
    question: usize,
    verdict: &Verdict,
) -> Result<(), WriteFault>
    requires some { 1 ≤ question }
    requires few { question ≤ 15 }
    ensures { Wrote (record_lines (head_of (question_at question) verdict.now ∷ []))
        (K.seen sink.old) (K.seen sink.new) result }
{
    let mut buffer = Buffer::new();
    let digits = buffer.format(question).as_bytes();
    put_parts(sink, &[b"q", digits, head_text(verdict)])?;
    put_head_numbers(sink, verdict)?;
    put_all(sink, b"\n")
}

// The line that opens a section before this question, if one opens there.
pub(crate) fn put_section<K: Sink>(sink: &mut K, question: usize) -> Result<(), WriteFault>
    requires some { 1 ≤ question }
    requires few { question ≤ 15 }
    ensures { Wrote (record_lines (map section (opens (question_at question))))
        (K.seen sink.old) (K.seen sink.new) result }
{
    match question {
        1 => put_all(sink, b"section graph\n"),
        5 => put_all(sink, b"section rank\n"),
        7 => put_all(sink, b"section dependence\n"),
        9 => put_all(sink, b"section theorems\n"),
        11 => put_all(sink, b"section confluence\n"),
        14 => put_all(sink, b"section concordance\n"),
        _ => Ok(()),
    }
}
