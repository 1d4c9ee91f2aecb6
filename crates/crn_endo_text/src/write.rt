ghost use Rattle.std.specs.Prelude.{◌∷◌, [], codes, map, pos};
ghost use Rattle.std.specs.List.{flat_map};
ghost use Rattle.crn_io.specs.Write.{Wrote};
ghost use Rattle.crn_ctext.specs.Answers.{nodes as node_records};
ghost use Rattle.crn_ctext.specs.Documents.{record_lines};
ghost use Rattle.crn_ctext.specs.Records.{line};
ghost use Rattle.crn_ctext.specs.Parts.{part_document};
ghost use Rattle.crn_endo_check.specs.Endo.{IsFormedEndo};
ghost use Rattle.crn_endo_text.specs.Document.{records};

use crn_ctext::{put_free, put_nodes, put_nums, put_part_opening, put_small};
use crn_endo_check::{Endo, EndoTrees};
use crn_io::{Sink, WriteFault, put_all};
use crn_net::Network;

// The trees of the reactions.
fn put_trees<K: Sink>(sink: &mut K, trees: &EndoTrees) -> Result<(), WriteFault>
    ensures { Wrote (record_lines (flat_map node_records trees.now))
        (K.seen sink.old) (K.seen sink.new) result }
{
    for r in 0..trees.len() {
        put_nodes(sink, trees.tree(r))?;
    }
    Ok(())
}

// The line of an answer that is open by a wide vector.
fn put_wide<K: Sink>(
    sink: &mut K,
    reaction: u32,
    index: u32,
    basis: &[u32],
) -> Result<(), WriteFault>
    ensures { Wrote (line (codes "wide") (map pos (reaction ∷ index ∷ basis.now)))
        (K.seen sink.old) (K.seen sink.new) result }
{
    put_all(sink, b"wide")?;
    put_nums(sink, &[reaction, index])?;
    put_nums(sink, basis)?;
    put_all(sink, b"\n")
}

// The lines of an answer.
fn put_answer<K: Sink>(sink: &mut K, answer: &Endo) -> Result<(), WriteFault>
    ensures { Wrote (record_lines (records answer.now)) (K.seen sink.old) (K.seen sink.new) result }
{
    match answer {
        Endo::Yes(trees) => {
            put_free(sink, b"yes", &[])?;
            put_trees(sink, trees)
        }
        Endo::No { reaction, slope } => {
            put_small(sink, b"no", &[*reaction])?;
            put_free(sink, b"slope", slope.as_slice())
        }
        Endo::Wide {
            reaction,
            index,
            basis,
        } => put_wide(sink, *reaction, *index, basis.as_slice()),
        Endo::Spent { reaction, nodes } => put_small(sink, b"spent", &[*reaction, *nodes]),
        Endo::Large => put_free(sink, b"large", &[]),
    }
}

/// Writes the document of a network and of an answer on endotactic networks. Takes no memory.
pub fn write_endo<K: Sink>(net: &Network, answer: &Endo, sink: &mut K) -> Result<(), WriteFault>
    requires { IsFormedEndo net.now answer.now }
    ensures { Wrote (part_document (codes "endo") net.now (records answer.now))
        (K.seen sink.old) (K.seen sink.new) result }
{
    put_part_opening(sink, b"endo", net)?;
    put_answer(sink, answer)?;
    put_all(sink, b"end\n")
}
