ghost use Rattle.std.specs.Prelude.{◌≡◌, [], ◌∷◌, codes, map, pos, slice_index_or};
ghost use Rattle.crn_io.specs.Write.{Wrote};
ghost use Rattle.crn_ctext.specs.Documents.{record_lines};
ghost use Rattle.crn_ctext.specs.Records.{line};
ghost use Rattle.crn_ctext.specs.Parts.{part_document};
ghost use Rattle.crn_siphon_check.specs.Answers.{IsFormed, said_of};
ghost use Rattle.crn_siphon_text.specs.Document.{records, tree_records};
ghost use Rattle.crn_siphon_check.specs.Preorder.{listed, weights_of};
ghost use Rattle.crn_siphon_text.specs.Inner.Written.{record_of};

use crn_ctext::{put_free, put_nums, put_part_opening, put_small};
use crn_io::{Sink, WriteFault, put_all};
use crn_net::Network;
use crn_siphon_check::{Persist, SiphonNode, SiphonTree};
use crn_vec::Ints;

// The weights of the law at a place, and none if there is none.
fn weights_at(laws: &[Ints], k: usize) -> &[i128]
    ensures { result.now ≡ slice_index_or (weights_of laws.now) k [] }
{
    match laws.get(k) {
        Some(weights) => weights.as_slice(),
        None => &[],
    }
}

// The line of a node.
fn put_node<K: Sink>(sink: &mut K, laws: &[Ints], node: &SiphonNode) -> Result<(), WriteFault>
    ensures { Wrote (record_lines (record_of (listed (weights_of laws.now) node.now) ∷ []))
        (K.seen sink.old) (K.seen sink.new) result }
{
    match node {
        SiphonNode::Fork => put_free(sink, b"fork", &[]),
        SiphonNode::Bad(reaction) => put_small(sink, b"bad", &[*reaction]),
        SiphonNode::Law(k) => put_free(sink, b"law", weights_at(laws, *k)),
        SiphonNode::Void => put_free(sink, b"void", &[]),
    }
}

// The nodes of a tree, in preorder.
fn put_tree<K: Sink>(sink: &mut K, tree: &SiphonTree) -> Result<(), WriteFault>
    ensures { Wrote (record_lines (tree_records tree.now))
        (K.seen sink.old) (K.seen sink.new) result }
{
    let (nodes, laws) = tree.parts();
    for node in nodes {
        put_node(sink, laws, node)?;
    }
    Ok(())
}

// The line of an answer that is open by a wide vector.
fn put_wide<K: Sink>(sink: &mut K, system: u32, index: u32, basis: &[u32]) -> Result<(), WriteFault>
    ensures { Wrote (line (codes "wide") (map pos (system ∷ index ∷ basis.now)))
        (K.seen sink.old) (K.seen sink.new) result }
{
    put_all(sink, b"wide")?;
    put_nums(sink, &[system, index])?;
    put_nums(sink, basis)?;
    put_all(sink, b"\n")
}

// The lines of an answer.
fn put_answer<K: Sink>(sink: &mut K, answer: &Persist) -> Result<(), WriteFault>
    ensures { Wrote (record_lines (records (said_of answer.now)))
        (K.seen sink.old) (K.seen sink.new) result }
{
    match answer {
        Persist::Yes { law, tree } => {
            put_free(sink, b"yes", &[])?;
            put_free(sink, b"vec", law.as_slice())?;
            put_tree(sink, tree)
        }
        Persist::NoLaw { cut } => {
            put_free(sink, b"no", &[])?;
            put_free(sink, b"cut", cut.as_slice())
        }
        Persist::NoSiphon { marks, cover } => {
            put_free(sink, b"no", &[])?;
            put_free(sink, b"siphon", marks.as_slice())?;
            put_free(sink, b"mult", cover.as_slice())
        }
        Persist::Wide {
            system,
            index,
            basis,
        } => put_wide(sink, *system, *index, basis.as_slice()),
        Persist::Spent { nodes } => put_small(sink, b"spent", &[*nodes]),
    }
}

/// Writes the document of a network and of an answer on persistence. Takes no memory.
pub fn write_persist<K: Sink>(
    net: &Network,
    answer: &Persist,
    sink: &mut K,
) -> Result<(), WriteFault>
    requires { IsFormed net.now (said_of answer.now) }
    ensures { Wrote (part_document (codes "persist") net.now (records (said_of answer.now)))
        (K.seen sink.old) (K.seen sink.new) result }
{
    put_part_opening(sink, b"persist", net)?;
    put_answer(sink, answer)?;
    put_all(sink, b"end\n")
}
