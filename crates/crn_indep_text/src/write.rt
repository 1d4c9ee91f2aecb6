ghost use Rattle.std.specs.Prelude.{◌∷◌, codes, map, pos};
ghost use Rattle.crn_io.specs.Write.{Wrote};
ghost use Rattle.crn_ctext.specs.Documents.{record_lines};
ghost use Rattle.crn_ctext.specs.Records.{line};
ghost use Rattle.crn_ctext.specs.Parts.{part_document};
ghost use Rattle.crn_indep_check.specs.Parts.{IsFormedParts};
ghost use Rattle.crn_indep_text.specs.Document.{link_records, records};

use crn_ctext::{put_nums, put_part_opening, put_rank, put_small};
use crn_indep_check::Parts;
use crn_io::{Sink, WriteFault, put_all};
use crn_net::Network;

// The lines of the labels and of the links.
fn put_links<K: Sink>(
    sink: &mut K,
    label: &[u32],
    up: &[u32],
    depth: &[u32],
) -> Result<(), WriteFault>
    ensures { Wrote (record_lines (link_records label.now up.now depth.now))
        (K.seen sink.old) (K.seen sink.new) result }
{
    put_small(sink, b"label", label)?;
    put_small(sink, b"up", up)?;
    put_small(sink, b"depth", depth)
}

// The line of an answer that is open by a wide vector.
fn put_wide<K: Sink>(sink: &mut K, index: u32, basis: &[u32]) -> Result<(), WriteFault>
    ensures { Wrote (line (codes "wide") (map pos (index ∷ basis.now)))
        (K.seen sink.old) (K.seen sink.new) result }
{
    put_all(sink, b"wide")?;
    put_nums(sink, &[index])?;
    put_nums(sink, basis)?;
    put_all(sink, b"\n")
}

// The lines of an answer.
fn put_answer<K: Sink>(sink: &mut K, net: &Network, answer: &Parts) -> Result<(), WriteFault>
    requires { IsFormedParts net.now answer.now }
    ensures { Wrote (record_lines (records answer.now)) (K.seen sink.old) (K.seen sink.new) result }
{
    net.meets_definition();
    match answer {
        Parts::Split {
            rank,
            label,
            up,
            depth,
        } => {
            put_small(sink, b"rank", &[rank.base.as_slice().len() as u32])?;
            put_rank(sink, rank)?;
            put_links(sink, label.as_slice(), up.as_slice(), depth.as_slice())
        }
        Parts::Wide { index, basis } => put_wide(sink, *index, basis.as_slice()),
    }
}

/// Writes the document of a network and of its finest independent decomposition. Takes no memory.
pub fn write_parts<K: Sink>(net: &Network, answer: &Parts, sink: &mut K) -> Result<(), WriteFault>
    requires { IsFormedParts net.now answer.now }
    ensures { Wrote (part_document (codes "parts") net.now (records answer.now))
        (K.seen sink.old) (K.seen sink.new) result }
{
    put_part_opening(sink, b"parts", net)?;
    put_answer(sink, net, answer)?;
    put_all(sink, b"end\n")
}
