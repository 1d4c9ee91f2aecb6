ghost use Rattle.std.specs.Prelude.{◌≡◌, ◌≢◌, ◌<◌, ◌^◌, ◌↔◌, ◌⊎◌, ℕ, ℤ, pos, negsuc, ◌*ℤ◌, List, IsTrue, IfOk, length, MatchOption, drop, unsigned_abs};
ghost use Rattle.crn_vec.specs.declared.limits.TheConstants.{WIDE_ENTRY};
ghost use Rattle.crn_vec.specs.Vectors.{entry, HasSign, scale};
ghost use Rattle.crn_vec.specs.Lists.{IsIn};
ghost use Rattle.crn_vec.specs.Elementary.{width, IsNamedRow};
ghost use Rattle.crn_vec.specs.Systems.{HasSigned};
ghost use Rattle.crn_tab.specs.Tableau.{IsRowOfSign};
ghost use Rattle.crn_farkas.specs.Decision.{factor};
ghost use Rattle.crn_farkas.specs.Solver.{IsCutBy, HasKeptCut, IsNamedCut};

use crn_tab::Tableau;
use crn_vec::{Ints, Kind, NoMemory, Sign, is_asked, sign_of};
use std::alloc::Global;

/// A vector that a basis names and that rules a system out.
#[derive(Clone, Copy)]
pub struct Cut {
    /// Its coordinate outside the basis, counted from 0.
    pub row: usize,
    /// Its sign there.
    pub sign: Sign,
}

// Whether some coordinate has to be positive or negative.
fn some_asked(kinds: &[Kind]) -> bool
    ensures { IsTrue result ↔ HasSigned kinds.now }
{
    for k in 0..kinds.len() {
        if is_asked(kinds[k]) {
            return true;
        }
    }
    false
}

// A vector that the basis names and that rules the system out.
pub(crate) fn kept_cut(tableau: &Tableau, kinds: &[Kind]) -> Option<Cut>
    requires { length kinds.now ≡ width tableau.now.matrix }
    ensures { MatchOption result (HasKeptCut tableau.now.matrix tableau.now.basis kinds.now → ⊥)
        (λ cut. IsCutBy tableau.now.matrix tableau.now.basis kinds.now cut.row cut.sign) }
{
    if !some_asked(kinds) {
        return None;
    }
    for row in 0..kinds.len() {
        if !tableau.is_basic(row) {
            if let Some(sign) = tableau.row_cuts(row, kinds) {
                return Some(Cut { row, sign });
            }
        }
    }
    tableau.names_rows();
    None
}

// Whether a number has the wanted sign, else its negative has it.
pub(crate) fn stays(x: &i128, want: Sign) -> bool
    ensures { x.now ≢ pos 0 → want ≢ Sign.Zero → HasSign want (factor result *ℤ x.now) }
{
    sign_of(*x) == want
}

// The number or its negative.
fn or_negative(x: &i128, stays: bool) -> i128
    requires { unsigned_abs x.now < WIDE_ENTRY }
    ensures { result ≡ factor stays *ℤ x.now }
{
    if stays { *x } else { -*x }
}

// The numbers or their negatives.
fn multiple(alloc: Global, list: &[i128], stays: bool) -> Result<Ints, NoMemory>
    requires { (k : ℕ) → unsigned_abs (entry list.now k) < WIDE_ENTRY }
    ensures { IfOk result (λ made. made.list ≡ scale (factor stays) list.now) }
{
    let mut made = Ints::with_room(alloc, list.len())?;
    for x in list {
        made.push(or_negative(x, stays))?;
    }
    Ok(made)
}

// The multipliers of the vector that the basis names by a coordinate outside it, of this sign there.
pub(crate) fn multipliers(
    alloc: Global,
    tableau: &Tableau,
    kinds: &[Kind],
    work: &mut [i128],
    cut: &Cut,
) -> Result<Ints, NoMemory>
    requires kinds { length kinds.now ≡ width tableau.now.matrix }
    requires work { length work.old ≡ width tableau.now.matrix }
    requires cut { IsCutBy tableau.now.matrix tableau.now.basis kinds.now cut.now.row cut.now.sign }
    ensures work { length work.new ≡ length work.old }
    ensures named { IfOk result
        (λ u. IsNamedCut tableau.now.matrix tableau.now.basis kinds.now u.list) }
    ensures row { IfOk result (λ u. (w : List ℤ)
        × IsRowOfSign tableau.now.matrix tableau.now.basis cut.now.row cut.now.sign w
        × (drop tableau.now.matrix.cols w ≡ u.list)) }
{
    tableau.names_rows();
    tableau.put_row(cut.row, work);
    let stays = stays(&work[cut.row], cut.sign);
    let (_, part) = work.split_at(tableau.cols());
    multiple(alloc, part, stays)
}
