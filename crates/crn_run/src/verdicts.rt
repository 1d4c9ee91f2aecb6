ghost use Rattle.std.specs.Prelude.{◌≡◌, ◌++◌, decimal, List, ℕ};
ghost use Rattle.crn_io.specs.Device.{SinkSeen};
ghost use Rattle.crn_robust_text.specs.Document.{AreInside};
ghost use Rattle.crn_io.specs.Write.{Wrote};
ghost use Rattle.crn_run.specs.Parts.{endo_verdict, parts_verdict, persist_verdict, ranks_line, robust_verdict};
ghost use Rattle.crn_run.specs.Inner.Steps.{LineGives};
ghost use Rattle.crn_run.specs.declared.status.Status.TheVariants.{Done};

use crate::status::Status;
use crn_ctext::put_nums;
use crn_endo_text::EndoSeen;
use crn_indep_text::PartsSeen;
use crn_io::{Sink, WriteFault, put_all, put_parts};
use crn_net::Network;
use crn_robust::Robust;
use crn_siphon_check::Outcome;
use itoa::Buffer;

// The line of a verdict on persistence.
fn persist_line(outcome: Outcome) -> &'static [u8]
    ensures { result.now ≡ persist_verdict outcome }
{
    match outcome {
        Outcome::Yes => b"persist: yes\n",
        Outcome::No => b"persist: no\n",
        Outcome::Undecided => b"persist: open\n",
    }
}

// A number between two texts.
fn put_number<K: Sink>(
    before: &[u8],
    number: usize,
    after: &[u8],
    sink: &mut K,
) -> Result<(), WriteFault>
    ensures { Wrote (before.now ++ decimal number ++ after.now)
        (K.seen sink.old) (K.seen sink.new) result }
{
    let mut buffer = Buffer::new();
    put_parts(sink, &[before, buffer.format(number).as_bytes(), after])
}

// The line of how many parts a decomposition has, and of their ranks.
fn put_ranks<K: Sink>(ranks: &[u32], sink: &mut K) -> Result<(), WriteFault>
    ensures { Wrote (ranks_line ranks.now) (K.seen sink.old) (K.seen sink.new) result }
{
    put_number(b"parts: ", ranks.len(), b", ranks", sink)?;
    put_nums(sink, ranks)?;
    put_all(sink, b"\n")
}

// The status of a run that wrote a verdict, or was to.
fn status_written(wrote: Result<(), WriteFault>) -> Status
    ensures { (out : List ℕ) (old new : SinkSeen) → Wrote out old new wrote →
        LineGives Done result out old new }
{
    match wrote {
        Ok(()) => Status::Done,
        Err(_) => Status::WriteFault,
    }
}

/// Writes the verdict on persistence that was read. Takes no memory.
pub(crate) fn write_persistence<K: Sink>(outcome: Outcome, sink: &mut K) -> Status
    ensures { LineGives Done result (persist_verdict outcome)
        (K.seen sink.old) (K.seen sink.new) }
{
    status_written(put_all(sink, persist_line(outcome)))
}

/// Writes the verdict on the finest independent decomposition that was read. Takes no memory.
pub(crate) fn write_decomposition<K: Sink>(seen: &PartsSeen, sink: &mut K) -> Status
    ensures { LineGives Done result
        (parts_verdict (record { undecided = seen.now.undecided; ranks = seen.now.ranks.list }))
        (K.seen sink.old) (K.seen sink.new) }
{
    if seen.undecided {
        return status_written(put_all(sink, b"parts: open\n"));
    }
    status_written(put_ranks(seen.ranks.as_slice(), sink))
}

/// Writes the verdict on endotactic networks that was read. Takes no memory.
pub(crate) fn write_endotactic<K: Sink>(seen: &EndoSeen, sink: &mut K) -> Status
    ensures { LineGives Done result (endo_verdict seen.now) (K.seen sink.old) (K.seen sink.new) }
{
    match seen {
        EndoSeen::Yes => status_written(put_all(sink, b"endo: yes\n")),
        EndoSeen::No { reaction } => status_written(put_number(
            b"endo: no, reaction ",
            *reaction as usize,
            b"\n",
            sink,
        )),
        EndoSeen::Undecided => status_written(put_all(sink, b"endo: open\n")),
    }
}

// A text between two others.
fn put_between_two<K: Sink>(
    before: &[u8],
    text: &[u8],
    after: &[u8],
    sink: &mut K,
) -> Result<(), WriteFault>
    ensures { Wrote (before.now ++ text.now ++ after.now)
        (K.seen sink.old) (K.seen sink.new) result }
{
    put_parts(sink, &[before, text, after])
}

/// Writes the verdict on robustness that was read of a network. Takes no memory.
pub(crate) fn write_robustness<K: Sink>(net: &Network, robust: &Robust, sink: &mut K) -> Status
    requires { AreInside net.now robust.now }
    ensures { LineGives Done result (robust_verdict net.now robust.now)
        (K.seen sink.old) (K.seen sink.new) }
{
    match robust {
        Robust::Yes { species, .. } => status_written(put_between_two(
            b"robust: hypotheses hold, species ",
            net.name(*species as usize - 1),
            b"\nconfluence space: a line\n",
            sink,
        )),
        Robust::Number(deficiency) => status_written(put_number(
            b"robust: hypotheses fail, deficiency ",
            *deficiency as usize,
            b"\nconfluence space: no line\n",
            sink,
        )),
        Robust::None => status_written(put_all(
            sink,
            b"robust: hypotheses fail, no pair\nconfluence space: a line\n",
        )),
        Robust::Rests => status_written(put_all(sink, b"robust: open\n")),
    }
}
