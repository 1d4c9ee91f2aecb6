ghost use Rattle.std.specs.Prelude.{◌≡◌, ◌≤◌, ◌+◌, ◌-◌, ◌++◌, drop, length, map, take, IfOk, OnOk};
ghost use Rattle.crn_ctext.specs.Meaning.{proof_by, rank_proof, row};
ghost use Rattle.crn_ctext.specs.Questions.{later_numbers};
ghost use Rattle.crn_check.specs.Check.{IsBuilt};
ghost use Rattle.crn_check.specs.Facts.{asked};
ghost use Rattle.crn_document.specs.Inner.Answer.{AreSmall};
ghost use Rattle.crn_document.specs.Inner.Answers.{FitProof, part_proofs};
ghost use Rattle.crn_document.specs.Inner.Parts.{FitParts};

use crate::lists::Lists;
use crate::numbers::{later_numbers, number_of, nums_at};
use crate::parts::Part;
use crn_cert::{HeadKind, Proof, RankList, RankProof, Rows};
use crn_vec::{Ints, NoMemory};
use std::alloc::Global;

// Adds the records from record i on and before record end, counted from 0.
fn push_rows(
    alloc: Global,
    rows: &Lists,
    i: usize,
    end: usize,
    into: &mut Rows,
) -> Result<(), NoMemory>
    requires order { i ≤ end }
    requires inside { end ≤ length rows.now }
    ensures { OnOk result (into.new ≡ into.old ++ take (end - i) (drop i rows.now)) }
{
    if i == end {
        return Ok(());
    }
    into.push(Ints::from_slice(alloc, rows.row(i))?)?;
    push_rows(alloc, rows, i + 1, end, into)
}

// The records from record i on and before record end, counted from 0.
fn some_rows(alloc: Global, rows: &Lists, i: usize, end: usize) -> Result<Rows, NoMemory>
    requires order { i ≤ end }
    requires inside { end ≤ length rows.now }
    ensures { IfOk result (λ made. made ≡ take (end - i) (drop i rows.now)) }
{
    let mut made = Rows::new(alloc)?;
    push_rows(alloc, rows, i, end, &mut made)?;
    Ok(made)
}

// The proof of a rank by a base, which is record i, and the records after it and before record end, counted from 0.
fn rank_proof(
    alloc: Global,
    rows: &Lists,
    i: usize,
    rank: u32,
    end: usize,
) -> Result<RankProof, NoMemory>
    requires rank { i + 1 + rank ≤ end }
    requires inside { end ≤ length rows.now }
    requires small { AreSmall (row rows.now i) }
    ensures { IfOk result
        (λ made. made ≡ rank_proof rank (take (end - i) (drop i rows.now))) }
{
    let middle = i + 1 + rank as usize;
    Ok(RankProof {
        base: nums_at(alloc, rows, i)?,
        duals: some_rows(alloc, rows, i + 1, middle)?,
        combs: some_rows(alloc, rows, middle, end)?,
    })
}

// Adds the proofs of these ranks by the last records, `last` in number.
fn push_proofs(
    alloc: Global,
    rows: &Lists,
    last: usize,
    parts: &[Part],
    into: &mut RankList,
) -> Result<(), NoMemory>
    requires inside { last ≤ length rows.now }
    requires rows { FitParts parts.now (drop (length rows.now - last) rows.now) }
    ensures { OnOk result (into.new
        ≡ into.old ++ part_proofs parts.now (drop (length rows.now - last) rows.now)) }
{
    match parts.split_first() {
        None => Ok(()),
        Some((part, rest)) => {
            let later = last - 1 - part.count as usize;
            let i = rows.len() - last;
            into.push(rank_proof(alloc, rows, i, part.rank, rows.len() - later)?)?;
            push_proofs(alloc, rows, later, rest, into)
        }
    }
}

// The proofs of these ranks by all records.
fn rank_proofs(alloc: Global, parts: &[Part], rows: &Lists) -> Result<RankList, NoMemory>
    requires { FitParts parts.now rows.now }
    ensures { IfOk result (λ made. made ≡ part_proofs parts.now rows.now) }
{
    let mut made = RankList::new(alloc)?;
    push_proofs(alloc, rows, rows.len(), parts, &mut made)?;
    Ok(made)
}

// Adds the marks of the sides from record i on, counted from 0.
fn push_marks(alloc: Global, rows: &Lists, i: usize, into: &mut Rows) -> Result<(), NoMemory>
    requires { i ≤ length rows.now }
    ensures { OnOk result (into.new ≡ into.old ++ map later_numbers (drop i rows.now)) }
{
    if i == rows.len() {
        return Ok(());
    }
    into.push(Ints::from_slice(alloc, later_numbers(rows.row(i)))?)?;
    push_marks(alloc, rows, i + 1, into)
}

// The marks of all sides.
fn marks_of(alloc: Global, rows: &Lists) -> Result<Rows, NoMemory>
    ensures { IfOk result (λ made. made ≡ map later_numbers rows.now) }
{
    let mut made = Rows::new(alloc)?;
    push_marks(alloc, rows, 0, &mut made)?;
    Ok(made)
}

// The records without the first `count`.
fn rows_after(alloc: Global, rows: &Lists, count: usize) -> Result<Rows, NoMemory>
    ensures { IfOk result (λ made. made ≡ drop count rows.now) }
{
    if count < rows.len() {
        return some_rows(alloc, rows, count, rows.len());
    }
    Rows::new(alloc)
}

/// The proof below a head of this kind with these numbers, but for trees.
pub(crate) fn proof_of(
    alloc: Global,
    kind: HeadKind,
    question: u32,
    parts: &[Part],
    head: &[i128],
    rows: &Lists,
) -> Result<Proof, NoMemory>
    requires built { IsBuilt question }
    requires small { AreSmall head.now }
    requires fit { FitProof kind (asked question) parts.now head.now rows.now }
    ensures { IfOk result (λ p. p ≡ proof_by kind (asked question)
        (part_proofs parts.now rows.now) head.now rows.now) }
{
    match kind {
        HeadKind::Classes => Ok(Proof::Forest {
            up: nums_at(alloc, rows, 1)?,
            depth: nums_at(alloc, rows, 2)?,
        }),
        HeadKind::Strong => Ok(Proof::Strong {
            from: nums_at(alloc, rows, 1)?,
            from_depth: nums_at(alloc, rows, 2)?,
            to: nums_at(alloc, rows, 3)?,
            to_depth: nums_at(alloc, rows, 4)?,
            level: nums_at(alloc, rows, 5)?,
        }),
        HeadKind::Rank => Ok(Proof::Rank(rank_proof(
            alloc,
            rows,
            0,
            number_of(head, 0),
            rows.len(),
        )?)),
        HeadKind::Deficiency => Ok(Proof::Ranks(rank_proofs(alloc, parts, rows)?)),
        HeadKind::Yes => match question {
            3 => Ok(Proof::Back(nums_at(alloc, rows, 0)?)),
            11 => Ok(Proof::Sides(marks_of(alloc, rows)?)),
            _ => Ok(Proof::Nothing),
        },
        HeadKind::YesVec => match question {
            12 => Ok(Proof::Ties(rows_after(alloc, rows, 1)?)),
            _ => Ok(Proof::Nothing),
        },
        HeadKind::OnlyZero => Ok(Proof::Ties(rows_after(alloc, rows, 0)?)),
        _ => Ok(Proof::Nothing),
    }
}
