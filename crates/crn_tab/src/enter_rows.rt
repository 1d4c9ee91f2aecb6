ghost use Rattle.std.specs.Prelude.{◌≡◌, ◌≢◌, ◌≤◌, ◌<◌, ◌+◌, ℕ, ℤ, pos, List, true, false, IfErr, OnOk, MatchOption};
ghost use Rattle.crn_vec.specs.Vectors.{entry};
ghost use Rattle.crn_vec.specs.Lists.{IsIn};
ghost use Rattle.crn_vec.specs.Elementary.{width, IsNamed, IsNamedRow};
ghost use Rattle.crn_tab.specs.Tableau.{AreEntered, AreEnteredBelow, IsRefused, IsZeroBefore};

use crate::fault::Refused;
use crate::tableau::Tableau;
use crn_vec::Sign;

// Whether the vectors that the basis names by a coordinate outside it are not zero at a coordinate.
fn meets(tableau: &Tableau, e: usize, k: usize) -> bool
    requires inside { e < width tableau.now.matrix }
    requires outside { IsIn e tableau.now.basis → ⊥ }
    requires place { k < width tableau.now.matrix }
    requires other { k ≢ e }
    ensures member { result ≡ true → IsIn k tableau.now.basis }
    ensures none { result ≡ false → (w : List ℤ)
        → IsNamedRow tableau.now.matrix tableau.now.basis e w → entry w k ≡ pos 0 }
    ensures some { result ≡ true → (w : List ℤ) → IsNamed tableau.now.matrix tableau.now.basis e w
        → entry w k ≢ pos 0 }
{
    tableau.names_rows();
    match tableau.sign(e, k) {
        Sign::Zero => false,
        _ => true,
    }
}

// A member of the basis before `first` that a coordinate outside it can be exchanged for.
fn leaving(tableau: &Tableau, first: usize, e: usize) -> Option<usize>
    requires inside { e < width tableau.now.matrix }
    requires outside { IsIn e tableau.now.basis → ⊥ }
    requires first { first ≤ e }
    ensures { MatchOption result (IsZeroBefore tableau.now.matrix tableau.now.basis first e)
        (λ b. (b < first) × IsIn b tableau.now.basis
        × ((w : List ℤ) → IsNamed tableau.now.matrix tableau.now.basis e w → entry w b ≢ pos 0)) }
{
    for k in 0..first {
        if meets(tableau, e, k) {
            return Some(k);
        }
    }
    None
}

// Makes the exchange that brings a coordinate into the basis for one before `first`, if there is one.
fn enter_one(tableau: &mut Tableau, first: usize, e: usize) -> Result<(), Refused>
    requires inside { e < width tableau.old.matrix }
    requires first { first ≤ e }
    requires before { AreEnteredBelow tableau.old.matrix tableau.old.basis first e }
    ensures matrix { tableau.new.matrix ≡ tableau.old.matrix }
    ensures entered { OnOk result
        (AreEnteredBelow tableau.new.matrix tableau.new.basis first (e + 1)) }
    ensures refused { IfErr result
        (λ f. IsRefused tableau.new.matrix tableau.new.basis f.leave f.enter f.index) }
{
    tableau.names_rows();
    if tableau.is_basic(e) {
        return Ok(());
    }
    match leaving(tableau, first, e) {
        None => Ok(()),
        Some(b) => match tableau.pivot(b, e) {
            Ok(()) => {
                tableau.names_rows();
                Ok(())
            }
            Err(wide) => Err(Refused {
                leave: b,
                enter: e,
                index: wide.index,
            }),
        },
    }
}

// Makes such exchanges for all coordinates from `first` on.
fn enter_from(tableau: &mut Tableau, first: usize, count: usize) -> Result<(), Refused>
    requires { count ≡ width tableau.old.matrix }
    ensures matrix { tableau.new.matrix ≡ tableau.old.matrix }
    ensures entered { OnOk result (AreEntered tableau.new.matrix tableau.new.basis first) }
    ensures refused { IfErr result
        (λ f. IsRefused tableau.new.matrix tableau.new.basis f.leave f.enter f.index) }
{
    for e in first..count {
        enter_one(tableau, first, e)?;
    }
    Ok(())
}

impl Tableau {
    /// Makes exchanges so that as many of the coordinates from `first` on as possible are in the basis: each of them then is in the basis or depends on those that are.
    /// It goes over these coordinates once, in order, and stops at the first exchange that would name a wide vector. It takes no memory.
    pub fn enter_rows(&mut self, first: usize) -> Result<(), Refused>
        ensures matrix { self.new.matrix ≡ self.old.matrix }
        ensures entered { OnOk result (AreEntered self.new.matrix self.new.basis first) }
        ensures refused { IfErr result
            (λ f. IsRefused self.new.matrix self.new.basis f.leave f.enter f.index) }
    {
        let count = self.matrix.cols() + self.matrix.rows();
        enter_from(self, first, count)
    }
}
