ghost use Rattle.std.specs.Prelude.{◌≡◌, ◌≤◌, ◌+◌, ◌++◌, [], ◌∷◌, length, replicate, false, IfOk, OnOk};
ghost use Rattle.crn_io.specs.declared.lines.TheConstants.{MAX_SHARED};
ghost use Rattle.crn_ctext.specs.Kinds.{table_form, vector_form};
ghost use Rattle.crn_ctext.specs.Questions.{first_number};
ghost use Rattle.crn_ctext.specs.Blocks.{asks, asks_all, asks_table};
ghost use Rattle.crn_reading.specs.Steps.{GoesOn, StepIs};
ghost use Rattle.crn_document.specs.Inner.Table.{AreListed, IsCount, IsTable};

use crate::plain::{Plain, next_plain};
use crn_ctree::SharedTable;
use crn_io::Source;
use crn_reading::{CheckStop, Reading};

// The one number of a record, which is small.
fn count_of(numbers: &[i128]) -> u32
    requires { IsCount numbers.now }
    ensures number { result ≡ first_number numbers.now }
    ensures few { result ≤ MAX_SHARED }
{
    numbers[0] as u32
}

// The next line, which has to say the number of shared lists.
fn next_count<S: Source>(source: &mut S, at: &mut Reading) -> Result<u32, CheckStop>
    requires goes { GoesOn at.old }
    requires second { at.old.version ≡ 2 }
    ensures step { StepIs (asks at.old.version at.old.line false (table_form ∷ []))
        (λ count head. count ≡ first_number head.numbers)
        result at.old at.new (S.seen source.old) (S.seen source.new) }
    ensures goes { OnOk result (GoesOn at.new) }
    ensures line { OnOk result (at.new.line ≡ at.old.line + 1) }
    ensures version { at.new.version ≡ at.old.version }
    ensures few { IfOk result (λ count. count ≤ MAX_SHARED) }
{
    next_plain(source, at, Plain::Table, false)?;
    Ok(count_of(at.numbers.as_slice()))
}

// The next line, which has to be a shared list. It is added to the table.
fn next_vector<S: Source>(
    source: &mut S,
    at: &mut Reading,
    table: &mut SharedTable,
) -> Result<(), CheckStop>
    requires goes { GoesOn at.old }
    requires second { at.old.version ≡ 2 }
    ensures step { StepIs (asks at.old.version at.old.line false (vector_form ∷ []))
        (λ _ r. table.new ≡ table.old ++ r.numbers ∷ [])
        result at.old at.new (S.seen source.old) (S.seen source.new) }
    ensures goes { OnOk result (GoesOn at.new) }
    ensures line { OnOk result (at.new.line ≡ at.old.line + 1) }
    ensures version { at.new.version ≡ at.old.version }
    ensures length { OnOk result (length table.new ≡ length table.old + 1) }
{
    next_plain(source, at, Plain::Vector, false)?;
    table.push(at.numbers.as_slice())?;
    Ok(())
}

// The next lines, which have to be this many shared lists. They are added to the table.
fn next_vectors<S: Source>(
    source: &mut S,
    at: &mut Reading,
    count: u32,
    table: &mut SharedTable,
) -> Result<(), CheckStop>
    requires goes { GoesOn at.old }
    requires second { at.old.version ≡ 2 }
    ensures step { StepIs (asks_all at.old.version at.old.line false (replicate count vector_form))
        (λ _ rs. AreListed at.old at.new table.old table.new rs)
        result at.old at.new (S.seen source.old) (S.seen source.new) }
    ensures goes { OnOk result (GoesOn at.new) }
    ensures version { at.new.version ≡ at.old.version }
    ensures length { OnOk result (length table.new ≡ length table.old + count) }
{
    for _ in 0..count {
        next_vector(source, at, table)?;
    }
    Ok(())
}

// The shared lists of a document, which has none in version 1. Trees name them, so they are kept: there are few.
pub(crate) fn next_table<S: Source>(
    source: &mut S,
    at: &mut Reading,
) -> Result<SharedTable, CheckStop>
    requires goes { GoesOn at.old }
    ensures step { StepIs (asks_table at.old.version at.old.line)
        (λ table rs. IsTable at.old at.new table rs)
        result at.old at.new (S.seen source.old) (S.seen source.new) }
    ensures few { IfOk result (λ table. length table ≤ MAX_SHARED) }
    ensures goes { OnOk result (GoesOn at.new) }
    ensures version { at.new.version ≡ at.old.version }
{
    let mut table = SharedTable::new(at.alloc)?;
    if at.version == 1 {
        return Ok(table);
    }
    let count = next_count(source, at)?;
    next_vectors(source, at, count, &mut table)?;
    Ok(table)
}
