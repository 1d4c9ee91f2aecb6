ghost use Rattle.std.specs.Prelude.{◌≡◌, ◌≤◌, ◌+◌, [], ◌∷◌, ◌++◌, codes, decimal, if◌then◌else◌, ◌==◌, IfOk};
ghost use Rattle.arrayvec.specs.ArrayVec.{array_vec_len};
ghost use Rattle.crn_io.specs.Write.{Wrote};
ghost use Rattle.crn_ctext.specs.Answers.{nodes, proof_nodes};
ghost use Rattle.crn_ctext.specs.Documents.{record_lines, written, first_leaf, later_leaves};
ghost use Rattle.crn_cert.specs.Preorder.{listed};
ghost use Rattle.crn_ctext.specs.Records.{line};
ghost use Rattle.crn_ctext.specs.Inner.Written.{Gathers, leaves_after, node_record};

use crate::write_piece::{Piece, add_bytes, add_digits, gather_ints, gather_text, make_room};
use crn_cert::{Proof, Tree, TreeNode};
use crn_io::{Sink, WriteFault, put_all};

// A line that names a list has no more bytes than this.
const LONGEST_NAME: usize = 46;

// The number of the next leaf, 0 if there is none, and those after it.
fn next_leaf(leaf: &[u32]) -> (u32, &[u32])
    ensures first { result.0 ≡ first_leaf leaf.now }
    ensures later { result.1.now ≡ later_leaves leaf.now }
{
    match leaf.split_first() {
        Some((number, rest)) => (*number, rest),
        None => (0, leaf),
    }
}

// Adds the line that names a list for this part, by the number of the list. A short one is one text.
fn add_name(piece: &mut Piece, part: u8, number: u32)
    requires { array_vec_len piece.old + 46 ≤ 512 }
    ensures { piece.new.items
        ≡ piece.old.items ++ (codes "ref" ++ part ∷ 32 ∷ decimal number ++ codes "\n") }
{
    if number < 10 {
        let units = b'0' + number as u8;
        return add_bytes(piece, &[b'r', b'e', b'f', part, b' ', units, b'\n']);
    }
    if number < 100 {
        let tens = b'0' + (number / 10) as u8;
        let units = b'0' + (number % 10) as u8;
        return add_bytes(piece, &[b'r', b'e', b'f', part, b' ', tens, units, b'\n']);
    }
    add_bytes(piece, &[b'r', b'e', b'f', part, b' ']);
    add_digits(piece, u128::from(number));
    piece.push(b'\n');
}

// The line that names a list for this part, by the number of the list.
fn gather_name<K: Sink>(
    sink: &mut K,
    piece: &mut Piece,
    part: u8,
    number: u32,
) -> Result<(), WriteFault>
    ensures { Gathers
        (piece.old.items ++ (codes "ref" ++ part ∷ 32 ∷ decimal number ++ codes "\n"))
        piece.new.items (K.seen sink.old) (K.seen sink.new) result }
{
    make_room(sink, piece, LONGEST_NAME)?;
    add_name(piece, part, number);
    Ok(())
}

// The line of a cut of this part: its word and its numbers.
fn gather_line<K: Sink>(
    sink: &mut K,
    piece: &mut Piece,
    part: u8,
    numbers: &[i128],
) -> Result<(), WriteFault>
    ensures { Gathers (piece.old.items ++ line (codes "cut" ++ part ∷ []) numbers.now)
        piece.new.items (K.seen sink.old) (K.seen sink.new) result }
{
    gather_text(sink, piece, &[b'c', b'u', b't', part])?;
    gather_ints(sink, piece, numbers)?;
    piece.push(b'\n');
    Ok(())
}

// A cut of this part: its word and its numbers, or the line that names its list.
fn gather_cut<K: Sink>(
    sink: &mut K,
    piece: &mut Piece,
    part: u8,
    numbers: &[i128],
    number: u32,
) -> Result<(), WriteFault>
    ensures { Gathers (piece.old.items
        ++ (if number == 0 then line (codes "cut" ++ part ∷ []) numbers.now
        else (codes "ref" ++ part ∷ 32 ∷ decimal number ++ codes "\n")))
        piece.new.items (K.seen sink.old) (K.seen sink.new) result }
{
    if number == 0 {
        return gather_line(sink, piece, part, numbers);
    }
    gather_name(sink, piece, part, number)
}

// A node of a tree, and the numbers of the leaves after it.
#[inline(always)]
fn gather_node<'a, K: Sink>(
    sink: &mut K,
    piece: &mut Piece,
    node: &TreeNode,
    leaf: &'a [u32],
) -> Result<&'a [u32], WriteFault>
    ensures gathers { Gathers
        (piece.old.items ++ record_lines (written leaf.now (node_record (listed node.now) ∷ [])))
        piece.new.items (K.seen sink.old) (K.seen sink.new) result }
    ensures rest { IfOk result
        (λ rest. rest.now ≡ leaves_after (node_record (listed node.now) ∷ []) leaf.now) }
{
    match node {
        TreeNode::CutA(list) => {
            let (number, rest) = next_leaf(leaf);
            gather_cut(sink, piece, b'a', list.as_slice(), number)?;
            Ok(rest)
        }
        TreeNode::CutB(list) => {
            let (number, rest) = next_leaf(leaf);
            gather_cut(sink, piece, b'b', list.as_slice(), number)?;
            Ok(rest)
        }
        TreeNode::Flat => {
            gather_text(sink, piece, b"flat\n")?;
            Ok(leaf)
        }
        TreeNode::SplitTwo | TreeNode::SplitThree => {
            gather_text(sink, piece, b"split\n")?;
            Ok(leaf)
        }
    }
}

// The nodes of a tree, and the numbers of the leaves after it.
fn put_tree<'a, K: Sink>(
    sink: &mut K,
    tree: &Tree,
    leaf: &'a [u32],
) -> Result<&'a [u32], WriteFault>
    ensures wrote { Wrote (record_lines (written leaf.now (nodes tree.now)))
        (K.seen sink.old) (K.seen sink.new) result }
    ensures rest { IfOk result (λ rest. rest.now ≡ leaves_after (nodes tree.now) leaf.now) }
{
    let mut piece = Piece::new();
    let mut rest = leaf;
    for node in tree.nodes() {
        rest = gather_node(sink, &mut piece, node, rest)?;
    }
    put_all(sink, piece.as_slice())?;
    Ok(rest)
}

/// The lines of the nodes of a tree, each before those of its children.
pub fn put_nodes<K: Sink>(sink: &mut K, tree: &Tree) -> Result<(), WriteFault>
    ensures { Wrote (record_lines (nodes tree.now)) (K.seen sink.old) (K.seen sink.new) result }
{
    put_tree(sink, tree, &[])?;
    Ok(())
}

// The trees of a proof, and the numbers of the leaves after them.
pub(crate) fn put_trees<'a, K: Sink>(
    sink: &mut K,
    proof: &Proof,
    leaf: &'a [u32],
) -> Result<&'a [u32], WriteFault>
    ensures wrote { Wrote (record_lines (written leaf.now (proof_nodes proof.now)))
        (K.seen sink.old) (K.seen sink.new) result }
    ensures rest { IfOk result (λ rest. rest.now ≡ leaves_after (proof_nodes proof.now) leaf.now) }
{
    match proof {
        Proof::One(tree) => put_tree(sink, tree, leaf),
        Proof::Two(tree, other) => {
            let leaf = put_tree(sink, tree, leaf)?;
            put_tree(sink, other, leaf)
        }
        _ => Ok(leaf),
    }
}
