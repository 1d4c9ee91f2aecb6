ghost use Rattle.std.specs.Prelude.{◌≡◌, ◌≤◌, ◌++◌, [], ◌∷◌, length, unsigned_abs};
ghost use Rattle.crn_vec.specs.declared.limits.TheConstants.{MAX_AMOUNT};
ghost use Rattle.crn_vec.specs.Vectors.{AreWithin, entry};

/// The entry at a place of a list with one more number at its end.
pub(crate) fn entry_with(values: &[i128], last: i128, place: usize) -> i128
    requires inside { place ≤ length values.now }
    requires small { AreWithin MAX_AMOUNT values.now }
    requires last { unsigned_abs last ≤ MAX_AMOUNT }
    ensures value { result ≡ entry (values.now ++ last ∷ []) place }
    ensures small { unsigned_abs result ≤ MAX_AMOUNT }
{
    if place < values.len() {
        values[place]
    } else {
        last
    }
}
