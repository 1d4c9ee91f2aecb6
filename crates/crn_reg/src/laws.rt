ghost use Rattle.std.specs.Prelude.{ℕ, List};
ghost use Rattle.crn_vec.specs.Strong.{IsReversible, IsWeaklyReversible};

/// A reversible network is weakly reversible.
pub fn reversible_networks_are_weakly_reversible()
    ensures { (reactions : List (ℕ × ℕ)) →
        IsReversible reactions → IsWeaklyReversible reactions }
{}
