ghost use Rattle.std.specs.Prelude.{◌≡◌, ℕ, List, length};
ghost use Rattle.crn_vec.specs.Linkage.{AreRightLabels, IsLabelCount};
ghost use Rattle.crn_vec.specs.Strong.{AreRightStrongLabels};

/// Right labels of the complexes are one list, for linkage classes and for strong classes, and their number is one
/// number.
pub fn right_labels_are_one()
    ensures linkage { (reactions : List (ℕ × ℕ)) (a b : List ℕ) →
        AreRightLabels reactions a → AreRightLabels reactions b → length a ≡ length b → a ≡ b }
    ensures strong { (reactions : List (ℕ × ℕ)) (a b : List ℕ) → AreRightStrongLabels reactions a →
        AreRightStrongLabels reactions b → length a ≡ length b → a ≡ b }
    ensures count { (labels : List ℕ) (m n : ℕ) →
        IsLabelCount labels m → IsLabelCount labels n → m ≡ n }
{}
