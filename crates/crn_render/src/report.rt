ghost use Rattle.std.specs.Prelude.{◌≡◌, ◌<◌, ◌≤◌, ◌++◌, [], codes, length, slice_index_or};
ghost use Rattle.std.specs.List.{AllByRecursion};
ghost use Rattle.crn_io.specs.Joined.{joined};
ghost use Rattle.crn_io.specs.Write.{Wrote};
ghost use Rattle.crn_cert.specs.Built.{built};
ghost use Rattle.crn_cert.specs.FormedVerdicts.{AreFormedVerdicts};
ghost use Rattle.crn_render.specs.Report.{first_line, species_line, complexes_line, reactions_line, head, question_lines, all_lines, one_if_open, open_count, open_line, render};
ghost use Rattle.crn_render.specs.Inner.Reading.{question_at, IsReadable};

use crate::details::put_details;
use crate::parts::{put_complexes, put_number};
use crate::words::put_question_line;
use crn_cert::{Verdict, Verdicts, question_number};
use crn_io::{Sink, WriteFault, put_all, put_between};
use crn_net::Network;
use crn_text::SideText;

// The names of all species.
fn put_names<K: Sink>(sink: &mut K, net: &Network) -> Result<(), WriteFault>
    ensures { Wrote (joined (codes " ") net.now.names) (K.seen sink.old) (K.seen sink.new) result }
{
    for s in 0..net.species() {
        put_between(sink, b" ", s, net.name(s))?;
    }
    Ok(())
}

#[tactic(auto, unfolding(crate::specs::Report::first_line))]
fn put_first_line<K: Sink>(sink: &mut K) -> Result<(), WriteFault>
    ensures { Wrote first_line (K.seen sink.old) (K.seen sink.new) result }
{
    put_all(sink, b"crn report 1\n")
}

fn put_species_line<K: Sink>(sink: &mut K, net: &Network) -> Result<(), WriteFault>
    ensures { Wrote (species_line net.now) (K.seen sink.old) (K.seen sink.new) result }
{
    put_number(sink, b"species ", net.species(), b": ")?;
    put_names(sink, net)?;
    put_all(sink, b"\n")
}

// The text is a buffer.
fn put_complexes_line<K: Sink>(
    sink: &mut K,
    net: &Network,
    text: &mut SideText,
) -> Result<(), WriteFault>
    ensures { Wrote (complexes_line net.now) (K.seen sink.old) (K.seen sink.new) result }
{
    put_number(sink, b"complexes ", net.complexes(), b": ")?;
    put_complexes(sink, net, text)?;
    put_all(sink, b"\n")
}

#[tactic(auto, unfolding(crate::specs::Report::reactions_line))]
fn put_reactions_line<K: Sink>(sink: &mut K, net: &Network) -> Result<(), WriteFault>
    ensures { Wrote (reactions_line net.now) (K.seen sink.old) (K.seen sink.new) result }
{
    put_number(sink, b"reactions ", net.reactions(), b"\n")
}

// The text is a buffer.
fn put_head<K: Sink>(sink: &mut K, net: &Network, text: &mut SideText) -> Result<(), WriteFault>
    ensures { Wrote (head net.now) (K.seen sink.old) (K.seen sink.new) result }
{
    put_first_line(sink)?;
    put_species_line(sink, net)?;
    put_complexes_line(sink, net, text)?;
    put_reactions_line(sink, net)
}

// The lines of the question at a place, counted from 0. The text is a buffer.
fn put_question<K: Sink>(
    sink: &mut K,
    net: &Network,
    place: usize,
    verdict: &Verdict,
    text: &mut SideText,
) -> Result<(), WriteFault>
    requires place { place < 15 }
    requires inside { IsReadable net.now verdict.now }
    ensures { Wrote (question_lines net.now (question_at place, verdict.now))
        (K.seen sink.old) (K.seen sink.new) result }
{
    put_question_line(sink, place, verdict)?;
    put_details(sink, net, place, verdict, text)
}

// The lines of all questions. The text is a buffer.
fn put_questions<K: Sink>(
    sink: &mut K,
    net: &Network,
    verdicts: &Verdicts,
    text: &mut SideText,
) -> Result<(), WriteFault>
    requires { AreFormedVerdicts net.now [] built verdicts.now }
    ensures { Wrote (all_lines net.now built verdicts.now)
        (K.seen sink.old) (K.seen sink.new) result }
{
    for place in 0..verdicts.len() {
        let asked = question_number(place + 1) - 1;
        put_question(sink, net, asked, verdicts.get(place + 1), text)?;
    }
    Ok(())
}

// 1 for an open question.
fn open_one(verdict: &Verdict) -> usize
    ensures { result ≡ one_if_open verdict.now }
{
    match verdict {
        Verdict::Unknown(_) => 1,
        _ => 0,
    }
}

// How many questions are open.
fn open_questions(verdicts: &Verdicts) -> usize
    ensures { result ≡ open_count verdicts.now }
{
    let mut count = 0usize;
    for place in 0..verdicts.len() {
        count += open_one(verdicts.get(place + 1));
    }
    count
}

#[tactic(auto, unfolding(crate::specs::Report::open_line))]
fn put_open_line<K: Sink>(sink: &mut K, count: usize) -> Result<(), WriteFault>
    ensures { Wrote (open_line count) (K.seen sink.old) (K.seen sink.new) result }
{
    put_number(sink, b"open: ", count, b"\n")
}

/// Writes the report of a network with these verdicts on the built questions. Takes no memory.
pub fn write_report<K: Sink>(
    net: &Network,
    verdicts: &Verdicts,
    sink: &mut K,
) -> Result<(), WriteFault>
    requires { AreFormedVerdicts net.now [] built verdicts.now }
    ensures { Wrote (render built net.now verdicts.now)
        (K.seen sink.old) (K.seen sink.new) result }
{
    let mut text = SideText::new();
    put_head(sink, net, &mut text)?;
    put_questions(sink, net, verdicts, &mut text)?;
    put_open_line(sink, open_questions(verdicts))
}
