ghost use Rattle.std.specs.Prelude.{◌≡◌, ◌++◌, codes, decimal};
ghost use Rattle.crn_io.specs.Write.{Wrote};
ghost use Rattle.crn_render.specs.Summary.{brief, sample_line, briefs, verdicts_line, accepted_line, summary};

use crate::parts::put_digits;
use crn_cert::{Verdict, Verdicts};
use crn_io::{Sink, WriteFault, put_all, put_parts};
use crn_net::Network;
use itoa::Buffer;

// The number of the sample, and the sizes of its network.
#[tactic(auto, unfolding(crate::specs::Summary::sample_line))]
fn put_sample_line<K: Sink>(sink: &mut K, number: u32, net: &Network) -> Result<(), WriteFault>
    ensures { Wrote (sample_line number net.now) (K.seen sink.old) (K.seen sink.new) result }
{
    let mut first = Buffer::new();
    let mut second = Buffer::new();
    let mut third = Buffer::new();
    let mut fourth = Buffer::new();
    let digits = first.format(number).as_bytes();
    let species = second.format(net.species()).as_bytes();
    let complexes = third.format(net.complexes()).as_bytes();
    let reactions = fourth.format(net.reactions()).as_bytes();
    put_parts(
        sink,
        &[
            b"sample ",
            digits,
            b": ",
            species,
            b" species, ",
            complexes,
            b" complexes, ",
            reactions,
            b" reactions\n",
        ],
    )
}

// The word of a verdict.
fn put_brief<K: Sink>(sink: &mut K, verdict: &Verdict) -> Result<(), WriteFault>
    ensures { Wrote (brief verdict.now) (K.seen sink.old) (K.seen sink.new) result }
{
    match verdict {
        Verdict::Classes { count, .. } => put_digits(sink, *count),
        Verdict::Strong { count, .. } => put_digits(sink, *count),
        Verdict::Rank { rank, .. } => put_digits(sink, *rank),
        Verdict::Deficiency { total, .. } => put_digits(sink, *total),
        Verdict::Yes
        | Verdict::YesWeak { .. }
        | Verdict::YesVec { .. }
        | Verdict::YesSignal { .. } => put_all(sink, b"yes"),
        Verdict::No
        | Verdict::NoReaction { .. }
        | Verdict::NoVec { .. }
        | Verdict::NoNumber { .. }
        | Verdict::NoTerminal { .. }
        | Verdict::NoClass { .. }
        | Verdict::NoSum { .. }
        | Verdict::NoDependence
        | Verdict::NoCycle { .. }
        | Verdict::NoPair { .. } => put_all(sink, b"no"),
        Verdict::NotRegular | Verdict::OnlyZero | Verdict::Plane { .. } | Verdict::NotApplicable =>
            put_all(sink, b"none"),
        Verdict::Unknown(_) => put_all(sink, b"open"),
    }
}

// The word of a verdict after a space.
fn put_next_brief<K: Sink>(sink: &mut K, verdict: &Verdict) -> Result<(), WriteFault>
    ensures { Wrote (codes " " ++ brief verdict.now) (K.seen sink.old) (K.seen sink.new) result }
{
    put_all(sink, b" ")?;
    put_brief(sink, verdict)
}

// The words of all verdicts.
fn put_briefs<K: Sink>(sink: &mut K, verdicts: &Verdicts) -> Result<(), WriteFault>
    ensures { Wrote (briefs verdicts.now) (K.seen sink.old) (K.seen sink.new) result }
{
    for place in 0..verdicts.len() {
        put_next_brief(sink, verdicts.get(place + 1))?;
    }
    Ok(())
}

fn put_verdicts_line<K: Sink>(sink: &mut K, verdicts: &Verdicts) -> Result<(), WriteFault>
    ensures { Wrote (verdicts_line verdicts.now) (K.seen sink.old) (K.seen sink.new) result }
{
    put_all(sink, b"verdicts:")?;
    put_briefs(sink, verdicts)?;
    put_all(sink, b"\n")
}

#[tactic(auto, unfolding(crate::specs::Summary::accepted_line))]
fn put_accepted_line<K: Sink>(sink: &mut K) -> Result<(), WriteFault>
    ensures { Wrote accepted_line (K.seen sink.old) (K.seen sink.new) result }
{
    put_all(sink, b"check: accepted\n")
}

/// Writes the summary of the sample network of this number: its sizes, a word for each verdict, and that the document
/// of its answers was accepted. Takes no memory.
pub fn write_summary<K: Sink>(
    net: &Network,
    verdicts: &Verdicts,
    number: u32,
    sink: &mut K,
) -> Result<(), WriteFault>
    ensures { Wrote (summary number net.now verdicts.now)
        (K.seen sink.old) (K.seen sink.new) result }
{
    put_sample_line(sink, number, net)?;
    put_verdicts_line(sink, verdicts)?;
    put_accepted_line(sink)
}
