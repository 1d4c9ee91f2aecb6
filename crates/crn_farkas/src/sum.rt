ghost use Rattle.std.specs.Prelude.{◌≡◌, ◌≤◌, ◌<◌, ◌^◌, ◌*◌, ◌+ℤ◌, ◌*ℤ◌, ℕ, length, unsigned_abs};
ghost use Rattle.crn_vec.specs.declared.limits.TheConstants.{WIDE_ENTRY, WIDE_SOLUTION};
ghost use Rattle.crn_vec.specs.Vectors.{entry};
ghost use Rattle.crn_farkas.specs.Decision.{factor};

// One more entry, or its negative.
fn sum_with(x: &i128, y: &i128, stays: bool) -> i128
    requires x { unsigned_abs x.now ≤ WIDE_SOLUTION }
    requires y { unsigned_abs y.now < WIDE_ENTRY }
    ensures { result ≡ x.now +ℤ (factor stays *ℤ y.now) }
{
    if stays { *x + *y } else { *x - *y }
}

// Adds a vector or its negative, place by place.
pub(crate) fn add(sum: &mut [i128], vector: &[i128], stays: bool)
    requires same { length vector.now ≡ length sum.old }
    requires sum { (k : ℕ) → unsigned_abs (entry sum.old k) ≤ WIDE_SOLUTION }
    requires vector { (k : ℕ) → unsigned_abs (entry vector.now k) < WIDE_ENTRY }
    ensures count { length sum.new ≡ length sum.old }
    ensures values { (k : ℕ)
        → entry sum.new k ≡ entry sum.old k +ℤ (factor stays *ℤ entry vector.now k) }
{
    for k in 0..vector.len() {
        sum[k] = sum_with(&sum[k], &vector[k], stays);
    }
}
