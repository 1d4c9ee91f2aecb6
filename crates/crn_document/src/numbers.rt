ghost use Rattle.std.specs.Prelude.{◌≡◌, ◌≤◌, nat_abs, drop, length, pos, slice_index_or, IfOk};
ghost use Rattle.crn_ctext.specs.Meaning.{number, nums, ints, row};
ghost use Rattle.crn_ctext.specs.Questions.{later_numbers};
ghost use Rattle.crn_document.specs.Inner.Answer.{AreSmall, IsSmall};

use crate::lists::Lists;
use crn_vec::{Ints, NoMemory, Nums};
use std::alloc::Global;

// The absolute value of a small number of a record.
pub(crate) fn small(value: i128) -> u32
    requires { IsSmall value }
    ensures { result ≡ nat_abs value }
{
    value.unsigned_abs() as u32
}

// The number at this place of a record, counted from 0, and 0 if there is none.
pub(crate) fn entry_of(row: &[i128], i: usize) -> i128
    ensures { result ≡ slice_index_or row.now i (pos 0) }
{
    match row.get(i) {
        Some(value) => *value,
        None => 0,
    }
}

// The absolute value of the number at this place of a record of small numbers, counted from 0, and 0 if there is none.
pub(crate) fn number_of(row: &[i128], i: usize) -> u32
    requires { AreSmall row.now }
    ensures { result ≡ number row.now i }
{
    match row.get(i) {
        Some(value) => small(*value),
        None => 0,
    }
}

// The numbers of a record after the first.
pub(crate) fn later_numbers(row: &[i128]) -> &[i128]
    ensures are { result.now ≡ later_numbers row.now }
    ensures small { AreSmall row.now → AreSmall result.now }
    ensures short { length result.now ≤ length row.now }
{
    match row {
        [_, later @ ..] => later,
        _ => &[],
    }
}

// The numbers of a record without the first `count`.
pub(crate) fn after(row: &[i128], count: usize) -> &[i128]
    ensures { result.now ≡ drop count row.now }
{
    row.get(count..).unwrap_or(&[])
}

// The absolute values of the numbers of a record, which are small.
pub(crate) fn nums_of(alloc: Global, row: &[i128]) -> Result<Nums, NoMemory>
    requires { AreSmall row.now }
    ensures { IfOk result (λ made. made ≡ nums row.now) }
{
    let mut items = Vec::with_capacity(alloc, row.len())?;
    for value in row {
        items.push(small(*value))?;
    }
    Ok(Nums::from_vec(items))
}

// The numbers of the record at this place, counted from 0, and none if there is no such record.
pub(crate) fn row_at(rows: &Lists, i: usize) -> &[i128]
    ensures { result.now ≡ row rows.now i }
{
    if i < rows.len() {
        return rows.row(i);
    }
    &[]
}

// The absolute values of the numbers of that record, which are small.
pub(crate) fn nums_at(alloc: Global, rows: &Lists, i: usize) -> Result<Nums, NoMemory>
    requires { AreSmall (row rows.now i) }
    ensures { IfOk result (λ made. made ≡ nums (row rows.now i)) }
{
    nums_of(alloc, row_at(rows, i))
}

// The numbers of that record as a list.
pub(crate) fn ints_at(alloc: Global, rows: &Lists, i: usize) -> Result<Ints, NoMemory>
    ensures { IfOk result (λ made. made ≡ ints (row rows.now i)) }
{
    Ints::from_slice(alloc, row_at(rows, i))
}
