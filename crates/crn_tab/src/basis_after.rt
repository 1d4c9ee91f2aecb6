ghost use Rattle.std.specs.Prelude.{◌≡◌, ◌≢◌, ◌<◌, ◌⊎◌, ◌↔◌, IfOk, IsTrue};
ghost use Rattle.crn_vec.specs.Lists.{IsIn};
ghost use Rattle.crn_vec.specs.Elementary.{width};
ghost use Rattle.crn_tab.specs.Tableau.{IsNumbered};

use crate::tableau::Tableau;
use crn_vec::{NoMemory, Nums};
use std::alloc::Global;

// Whether a coordinate is in the basis with one coordinate in place of a member.
fn is_next(tableau: &Tableau, leave: usize, enter: usize, k: usize) -> bool
    requires { k < width tableau.now.matrix }
    ensures { IsTrue result ↔ ((IsIn k tableau.now.basis × (k ≢ leave)) ⊎ (k ≡ enter)) }
{
    if k == enter {
        return true;
    }
    if k == leave {
        return false;
    }
    tableau.is_basic(k)
}

// The basis with a coordinate in place of a member, counted from 1.
fn numbers_after(
    alloc: Global,
    tableau: &Tableau,
    count: usize,
    leave: usize,
    enter: usize,
) -> Result<Nums, NoMemory>
    requires count { count ≡ width tableau.now.matrix }
    requires inside { enter < width tableau.now.matrix }
    ensures { IfOk result (λ made. IsNumbered tableau.now.basis leave enter made.list) }
{
    tableau.names_rows();
    let mut made = Nums::with_room(alloc, count)?;
    for k in 0..count {
        if is_next(tableau, leave, enter, k) {
            made.push(k as u32 + 1)?;
        }
    }
    Ok(made)
}

impl Tableau {
    /// The basis with a coordinate in place of a member, ascending and counted from 1, as it names the vector of an exchange that was not made.
    /// If the two are one coordinate, it is the basis itself.
    pub fn basis_after(&self, leave: usize, enter: usize) -> Result<Nums, NoMemory>
        requires { enter < width self.now.matrix }
        ensures { IfOk result (λ made. IsNumbered self.now.basis leave enter made.list) }
    {
        let count = self.matrix.cols() + self.matrix.rows();
        numbers_after(*self.at.allocator(), self, count, leave, enter)
    }
}
