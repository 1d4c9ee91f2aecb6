ghost use Rattle.std.specs.Prelude.{◌≡◌, ℤ, List, pos, slice_index_or, IfOk};
ghost use Rattle.crn_ctext.specs.Meaning.{turn_of, verdict_by};
ghost use Rattle.crn_document.specs.Inner.Answer.{AreSmall, AreSmallAt, HasInts, HasNums, IsOpen, kept};

use crate::lists::Lists;
use crate::numbers::{
    after, entry_of, ints_at, later_numbers, number_of, nums_at, nums_of, row_at,
};
use crn_cert::{Gap, HeadKind, Verdict};
use crn_vec::NoMemory;
use std::alloc::Global;

// The verdict of a head of a kind with lists of naturals, and of the records below it.
fn nums_verdict(
    alloc: Global,
    kind: HeadKind,
    head: &[i128],
    rows: &Lists,
) -> Result<Verdict, NoMemory>
    requires kind { HasNums kind }
    requires small { AreSmall head.now }
    requires kept { AreSmallAt (kept kind) rows.now }
    ensures { IfOk result (λ v. v ≡ verdict_by kind head.now rows.now) }
{
    let number = number_of(head, 0);
    match kind {
        HeadKind::Classes => Ok(Verdict::Classes {
            count: number,
            label: nums_at(alloc, rows, 0)?,
        }),
        HeadKind::Strong => Ok(Verdict::Strong {
            count: number,
            terminal: number_of(head, 1),
            label: nums_at(alloc, rows, 0)?,
            exit: nums_at(alloc, rows, 6)?,
        }),
        HeadKind::Rank => Ok(Verdict::Rank {
            rank: number,
            base: nums_at(alloc, rows, 0)?,
        }),
        HeadKind::NoCycle => Ok(Verdict::NoCycle {
            reaction: number,
            walk: nums_at(alloc, rows, 0)?,
        }),
        _ => Ok(Verdict::Deficiency {
            total: number,
            classes: nums_of(alloc, later_numbers(head))?,
        }),
    }
}

// The turn that a head says: -1, or else 1.
fn turn_of(head: &[i128]) -> i32
    ensures { result ≡ turn_of (slice_index_or head.now 0 (pos 0)) }
{
    let turn = entry_of(head, 0);
    if turn == -1 {
        return -1;
    }
    1
}

// The verdict of a head of a kind with lists of integers, and of the records below it.
fn ints_verdict(
    alloc: Global,
    kind: HeadKind,
    head: &[i128],
    rows: &Lists,
) -> Result<Verdict, NoMemory>
    requires kind { HasInts kind }
    requires small { AreSmall head.now }
    ensures { IfOk result (λ v. v ≡ verdict_by kind head.now rows.now) }
{
    let first = ints_at(alloc, rows, 0)?;
    match kind {
        HeadKind::YesVec => Ok(Verdict::YesVec { vector: first }),
        HeadKind::NoVec => Ok(Verdict::NoVec { multipliers: first }),
        HeadKind::YesSignal => Ok(Verdict::YesSignal {
            turn: turn_of(head),
            shelves: first,
            mu: ints_at(alloc, rows, 1)?,
            m: entry_of(row_at(rows, 2), 0),
            weights: ints_at(alloc, rows, 3)?,
        }),
        HeadKind::NoPair => Ok(Verdict::NoPair {
            alpha: first,
            weights: ints_at(alloc, rows, 1)?,
        }),
        _ => Ok(Verdict::Plane {
            first: number_of(head, 0),
            second: number_of(head, 1),
            one: first,
            two: ints_at(alloc, rows, 1)?,
        }),
    }
}

// The verdict of an open head.
fn open_verdict(alloc: Global, kind: HeadKind, head: &[i128]) -> Result<Verdict, NoMemory>
    requires kind { IsOpen kind }
    requires small { AreSmall head.now }
    ensures { (rows : List (List ℤ)) → IfOk result (λ v. v ≡ verdict_by kind head.now rows) }
{
    let number = number_of(head, 0);
    Ok(Verdict::Unknown(match kind {
        HeadKind::Wide => Gap::Wide {
            system: number,
            class: number_of(head, 1),
            index: number_of(head, 2),
            basis: nums_of(alloc, after(head, 3))?,
        },
        HeadKind::Budget => Gap::Budget { nodes: number },
        _ => Gap::Rests { question: number },
    }))
}

/// The verdict of a head of this kind with these numbers, and of the records below it; without records, that of the
/// head.
pub(crate) fn verdict_of(
    alloc: Global,
    kind: HeadKind,
    head: &[i128],
    rows: &Lists,
) -> Result<Verdict, NoMemory>
    requires small { AreSmall head.now }
    requires kept { AreSmallAt (kept kind) rows.now }
    ensures { IfOk result (λ v. v ≡ verdict_by kind head.now rows.now) }
{
    let number = number_of(head, 0);
    let second = number_of(head, 1);
    match kind {
        HeadKind::Yes => Ok(Verdict::Yes),
        HeadKind::YesWeak => Ok(Verdict::YesWeak { weak: number == 1 }),
        HeadKind::No => Ok(Verdict::No),
        HeadKind::NoReaction => Ok(Verdict::NoReaction { reaction: number }),
        HeadKind::NoNumber => Ok(Verdict::NoNumber { number }),
        HeadKind::NoTerminal => Ok(Verdict::NoTerminal {
            class: number,
            count: second,
        }),
        HeadKind::NoClass => Ok(Verdict::NoClass {
            class: number,
            number: second,
        }),
        HeadKind::NoSum => Ok(Verdict::NoSum { sum: number }),
        HeadKind::NoDependence => Ok(Verdict::NoDependence),
        HeadKind::NotRegular => Ok(Verdict::NotRegular),
        HeadKind::OnlyZero => Ok(Verdict::OnlyZero),
        HeadKind::NotApplicable => Ok(Verdict::NotApplicable),
        HeadKind::Wide | HeadKind::Budget | HeadKind::Rests => open_verdict(alloc, kind, head),
        HeadKind::YesVec
        | HeadKind::YesSignal
        | HeadKind::NoVec
        | HeadKind::NoPair
        | HeadKind::Plane => { ints_verdict(alloc, kind, head, rows) }
        HeadKind::Classes
        | HeadKind::Strong
        | HeadKind::Rank
        | HeadKind::Deficiency
        | HeadKind::NoCycle => { nums_verdict(alloc, kind, head, rows) }
    }
}
