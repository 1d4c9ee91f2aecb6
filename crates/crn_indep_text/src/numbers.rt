ghost use Rattle.std.specs.Prelude.{◌≡◌, ◌<◌, ◌^◌, map, nat_abs, IfOk};
ghost use Rattle.crn_indep_text.specs.Inner.LinesRead.{AreSmall};

use crn_vec::{NoMemory, Nums};
use std::alloc::Global;

// A number as a natural one.
fn natural(value: i128) -> u32
    requires { nat_abs value < 2 ^ 32 }
    ensures { result ≡ nat_abs value }
{
    value.unsigned_abs() as u32
}

/// Numbers as natural ones.
pub(crate) fn nums_of(alloc: Global, row: &[i128]) -> Result<Nums, NoMemory>
    requires { AreSmall row.now }
    ensures list { IfOk result (λ made. made.list ≡ map nat_abs row.now) }
    ensures spare { IfOk result (λ made. made.spare ≡ 0) }
{
    let mut items = Vec::with_capacity(alloc, row.len())?;
    for value in row {
        items.push(natural(*value))?;
    }
    Ok(Nums::from_vec(items))
}
