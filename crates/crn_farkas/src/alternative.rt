ghost use Rattle.std.specs.Prelude.{◌≡◌, ◌<◌, ℕ, ℤ, List, true, length, slice_index_or, IfOk, IfErr};
ghost use Rattle.crn_vec.specs.Vectors.{entry, HasSign};
ghost use Rattle.crn_vec.specs.declared.signs.Sign.TheVariants.{Zero};
ghost use Rattle.crn_vec.specs.Elementary.{width};
ghost use Rattle.crn_vec.specs.Systems.{kind_at, is_signed};
ghost use Rattle.crn_farkas.specs.Solver.{IsAlternative, IsRefusedStop};
ghost use Rattle.crn_farkas.specs.Inner.Views.{IsSeen, IsView};

use crate::cut::Cut;
use crate::fault::Stop;
use crate::goal::{settled_cut, settled_view};
use crate::level::seen_lead;
use crate::targets::put_levels;
use crate::view::View;
use crn_tab::Tableau;
use crn_vec::{Kind, Sign};

/// One of two vectors: a coordinate that has to be positive or negative always has exactly one of them.
#[derive(Clone, Copy)]
pub enum Alternative {
    /// A vector (x, Ax) that is one of those that add up to a solution, and not 0 at the coordinate.
    Witness,
    /// A vector (-uA, u) that rules the system out, and is not 0 at the coordinate.
    Cut(Cut),
}

// Puts the signs of the vectors that a view shows.
fn put_signs(tableau: &Tableau, view: View, kinds: &[Kind], g: usize, signs: &mut [Sign])
    requires kinds { length kinds.now ≡ width tableau.now.matrix }
    requires signs { length signs.old ≡ length kinds.now }
    requires goal { g < width tableau.now.matrix }
    requires asked { is_signed (kind_at kinds.now g) ≡ true }
    requires view { IsView tableau.now.matrix tableau.now.basis view g }
    ensures count { length signs.new ≡ length signs.old }
    ensures signs { (y : List ℤ)
        → IsSeen tableau.now.matrix tableau.now.basis view g (kind_at kinds.now g) y → (k : ℕ)
        → k < length kinds.now → HasSign (slice_index_or signs.new k Zero) (entry y k) }
{
    let lead = seen_lead(tableau, view, kinds[g], g);
    match view {
        View::Row => tableau.put_signs(g, lead, signs),
        View::Column(b) => tableau.put_column_signs(b, lead, signs),
    }
}

// Which of the two vectors a coordinate has that has to be positive or negative, and the signs of that vector.
pub(crate) fn alternative_at(
    tableau: &mut Tableau,
    kinds: &[Kind],
    level: &mut [usize],
    g: usize,
    signs: &mut [Sign],
) -> Result<Alternative, Stop>
    requires kinds { length kinds.now ≡ width tableau.old.matrix }
    requires signs { length signs.old ≡ length kinds.now }
    requires level { length level.old ≡ width tableau.old.matrix }
    requires goal { g < width tableau.old.matrix }
    requires asked { is_signed (kind_at kinds.now g) ≡ true }
    ensures matrix { tableau.new.matrix ≡ tableau.old.matrix }
    ensures count { length signs.new ≡ length signs.old }
    ensures answer { IfOk result
        (λ d. IsAlternative tableau.new.matrix tableau.new.basis kinds.now g signs.new d) }
    ensures refused { IfErr result (λ s. IsRefusedStop tableau.new.matrix tableau.new.basis s) }
{
    put_levels(tableau, level, kinds);
    let view = settled_view(tableau, kinds, level, g)?;
    tableau.names_rows();
    put_signs(tableau, view, kinds, g, signs);
    match view {
        View::Row => Ok(Alternative::Cut(settled_cut(tableau, kinds, g))),
        View::Column(_) => Ok(Alternative::Witness),
    }
}
