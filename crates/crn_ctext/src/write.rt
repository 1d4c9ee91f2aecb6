ghost use Rattle.std.specs.Prelude.{◌≡◌, ◌≤◌, [], IfOk, length};
ghost use Rattle.crn_cert.specs.Built.{built};
ghost use Rattle.crn_cert.specs.Formed.{AreFormed};
ghost use Rattle.crn_cert.specs.Questions.{Question, number};
ghost use Rattle.crn_io.specs.Write.{Wrote};
ghost use Rattle.crn_ctext.specs.Answers.{records};
ghost use Rattle.crn_ctext.specs.Questions.{Shapes};
ghost use Rattle.crn_ctext.specs.Documents.{document, document2, opening, record_lines, table_records, written, Share as Said};
ghost use Rattle.crn_ctext.specs.Linked.{records_of};
ghost use Rattle.crn_ctext.specs.PartBlocks.{HoldsNoSides};
ghost use Rattle.crn_ctext.specs.Parts.{part_head};
ghost use Rattle.crn_ctext.specs.Inner.Written.{question_at, headings, shapes_with, blocks, block, leaves_after};

use crate::write_head::{put_head, put_section};
use crate::write_pairs::find_pairs;
use crate::write_record::put_rows;
use crate::write_rows::{put_exits, put_proof, put_verdict};
use crate::write_tree::put_trees;
use crn_cert::{Answer, Answers, Rows, Share, question_number};
use crn_io::{Sink, WriteFault, put_all, put_parts};
use crn_net::Network;
use crn_vec::MAX_REACTIONS;
use itoa::Buffer;

// The title, the number of the network's lines, and these lines.
fn put_opening<K: Sink>(sink: &mut K, version: u32, net: &Network) -> Result<(), WriteFault>
    ensures { Wrote (opening version net.now) (K.seen sink.old) (K.seen sink.new) result }
{
    let mut version_buffer = Buffer::new();
    let mut count_buffer = Buffer::new();
    let version_digits = version_buffer.format(version).as_bytes();
    let count_digits = count_buffer.format(net.reactions()).as_bytes();
    put_parts(
        sink,
        &[
            b"crn certificate ",
            version_digits,
            b"\nnetwork ",
            count_digits,
            b"\n",
        ],
    )?;
    crn_text::write(net, sink)
}

/// The title of a part's document, the number of the network's lines, and these lines.
pub fn put_part_opening<K: Sink>(sink: &mut K, part: &[u8], net: &Network) -> Result<(), WriteFault>
    ensures { Wrote (part_head part.now net.now) (K.seen sink.old) (K.seen sink.new) result }
{
    let mut buffer = Buffer::new();
    let digits = buffer.format(net.reactions()).as_bytes();
    put_parts(sink, &[b"crn part ", part, b" 1\nnetwork ", digits, b"\n"])?;
    crn_text::write(net, sink)
}

// How many lists are shared, and each.
fn put_table<K: Sink>(sink: &mut K, table: &Rows) -> Result<(), WriteFault>
    ensures { Wrote (record_lines (table_records table.now))
        (K.seen sink.old) (K.seen sink.new) result }
{
    let mut buffer = Buffer::new();
    let digits = buffer.format(table.len()).as_bytes();
    put_parts(sink, &[b"vectors ", digits, b"\n"])?;
    put_rows(sink, b"vector", table)
}

// The records of an answer to this question, and the numbers of the leaves after it.
pub(crate) fn put_answer<'a, K: Sink>(
    sink: &mut K,
    question: usize,
    pairs: &[u32],
    answer: &Answer,
    leaf: &'a [u32],
) -> Result<&'a [u32], WriteFault>
    requires some { 1 ≤ question }
    requires few { question ≤ 15 }
    ensures wrote { let rs = records (question_at question) (shapes_with pairs.now) answer.now in
        Wrote (record_lines (written leaf.now rs)) (K.seen sink.old) (K.seen sink.new) result }
    ensures rest { let rs = records (question_at question) (shapes_with pairs.now) answer.now in
        IfOk result (λ rest. rest.now ≡ leaves_after rs leaf.now) }
{
    put_head(sink, question, &answer.verdict)?;
    put_verdict(sink, &answer.verdict)?;
    put_proof(sink, pairs, &answer.proof)?;
    put_exits(sink, &answer.verdict)?;
    put_trees(sink, &answer.proof, leaf)
}

/// Writes the records of an answer to this question that has no sides of pairs. Takes no memory.
pub fn put_alone<K: Sink>(sink: &mut K, question: usize, answer: &Answer) -> Result<(), WriteFault>
    requires some { 1 ≤ question }
    requires few { question ≤ 15 }
    requires sides { HoldsNoSides answer.now.proof }
    ensures { (q : Question) (shapes : Shapes) → number q ≡ question
        → Wrote (record_lines (records q shapes answer.now))
        (K.seen sink.old) (K.seen sink.new) result }
{
    put_answer(sink, question, &[], answer, &[])?;
    Ok(())
}

// The line that opens a section before this question, if there are sections and one opens there.
fn put_heading<K: Sink>(sink: &mut K, sections: bool, question: usize) -> Result<(), WriteFault>
    requires some { 1 ≤ question }
    requires few { question ≤ 15 }
    ensures { Wrote (record_lines (headings sections (question_at question)))
        (K.seen sink.old) (K.seen sink.new) result }
{
    if sections {
        return put_section(sink, question);
    }
    Ok(())
}

// The block of an answer to this question, and the numbers of the leaves after it.
fn put_block<'a, K: Sink>(
    sink: &mut K,
    sections: bool,
    question: usize,
    pairs: &[u32],
    answer: &Answer,
    leaf: &'a [u32],
) -> Result<&'a [u32], WriteFault>
    requires some { 1 ≤ question }
    requires few { question ≤ 15 }
    ensures wrote { let rs = block sections pairs.now (question_at question) answer.now in
        Wrote (record_lines (written leaf.now rs)) (K.seen sink.old) (K.seen sink.new) result }
    ensures rest { let rs = block sections pairs.now (question_at question) answer.now in
        IfOk result (λ rest. rest.now ≡ leaves_after rs leaf.now) }
{
    put_heading(sink, sections, question)?;
    put_answer(sink, question, pairs, answer, leaf)
}

// The blocks of answers to the built questions, in their order. `pairs` has the least reactions of the pairs whose sides they may hold.
fn put_answers<K: Sink>(
    sink: &mut K,
    sections: bool,
    pairs: &[u32],
    answers: &Answers,
    leaf: &[u32],
) -> Result<(), WriteFault>
    requires { length answers.now ≤ length built }
    ensures { let rs = blocks sections pairs.now built answers.now in
        Wrote (record_lines (written leaf.now rs)) (K.seen sink.old) (K.seen sink.new) result }
{
    let mut rest = leaf;
    for k in 0..answers.len() {
        let question = question_number(k + 1);
        rest = put_block(sink, sections, question, pairs, answers.get(k + 1), rest)?;
    }
    Ok(())
}

/// Writes the document of a network and of answers to all questions that are built, in version 1. Takes no memory.
pub fn write_document<K: Sink>(
    net: &Network,
    answers: &Answers,
    sink: &mut K,
) -> Result<(), WriteFault>
    requires formed { AreFormed net.now [] built answers.now }
    ensures { Wrote (document net.now (records_of net.now answers.now))
        (K.seen sink.old) (K.seen sink.new) result }
{
    let mut pairs = [0; MAX_REACTIONS];
    let count = find_pairs(net, answers, &mut pairs);
    put_opening(sink, 1, net)?;
    put_answers(sink, false, &pairs[..count], answers, &[])?;
    put_all(sink, b"end\n")
}

/// Writes the same document in version 2, with this share. Takes no memory.
///
/// Cut leaves after the last number of the share are written with their numbers.
pub fn write_document2<K: Sink>(
    net: &Network,
    answers: &Answers,
    share: &Share,
    sink: &mut K,
) -> Result<(), WriteFault>
    requires formed { AreFormed net.now [] built answers.now }
    ensures { let said : Said = record { table = share.now.table; leaf = share.now.leaf.list } in
        Wrote (document2 built net.now (records_of net.now answers.now) said)
        (K.seen sink.old) (K.seen sink.new) result }
{
    let mut pairs = [0; MAX_REACTIONS];
    let count = find_pairs(net, answers, &mut pairs);
    put_opening(sink, 2, net)?;
    put_table(sink, &share.table)?;
    put_answers(sink, true, &pairs[..count], answers, share.leaf.as_slice())?;
    put_all(sink, b"end\n")
}
