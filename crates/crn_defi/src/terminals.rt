ghost use Rattle.std.specs.Prelude.{◌≡◌, ◌≢◌, ◌≤◌, ◌<◌, ◌-◌, IsTrue, length, slice_index, MatchOption};
ghost use Rattle.std.specs.List.{list_any, range_with_len};
ghost use Rattle.crn_vec.specs.declared.limits.TheConstants.{MAX_COMPLEXES};
ghost use Rattle.crn_cert.specs.Valid.{is_in_both, terminals_of};
ghost use Rattle.crn_defi.specs.Inner.Terminals.{AreClassNumbers, HaveOneUpTo, IsFirstWithMore, IsOfTerminal};

// Whether some complex has label m in the one list and label k in the other.
fn have_both(strong: &[u32], linkage: &[u32], m: u32, k: u32) -> bool
    requires { length strong.now ≡ length linkage.now }
    ensures { result
        ≡ list_any (is_in_both strong.now linkage.now m k) (range_with_len 0 (length strong.now)) }
{
    for c in 0..strong.len() {
        if strong[c] == m && linkage[c] == k {
            return true;
        }
    }
    false
}

// The number of terminal strong classes that have a complex in linkage class k, one after another.
fn terminals_of(strong: &[u32], exit: &[u32], linkage: &[u32], k: u32) -> u32
    requires places { length strong.now ≡ length linkage.now }
    requires small { length exit.now ≤ MAX_COMPLEXES }
    ensures { result ≡ terminals_of strong.now exit.now linkage.now (length exit.now) k }
{
    let mut count = 0;
    for m in 0..exit.len() {
        if exit[m] == 0 && have_both(strong, linkage, m as u32 + 1, k) {
            count += 1;
        }
    }
    count
}

// The strong class of a complex of linkage class k, if it is terminal, or else 0.
fn terminal_class(strong: &[u32], exit: &[u32], linkage: &[u32], k: u32, c: usize) -> u32
    requires places { length strong.now ≡ length linkage.now }
    requires labels { AreClassNumbers strong.now (length exit.now) }
    requires inside { c < length strong.now }
    ensures own { result ≢ 0 → result ≡ slice_index strong.now c }
    ensures is { result ≢ 0 → IsOfTerminal strong.now exit.now linkage.now k c }
    ensures none { result ≡ 0 → IsOfTerminal strong.now exit.now linkage.now k c → ⊥ }
{
    if linkage[c] == k && exit[strong[c] as usize - 1] == 0 {
        strong[c]
    } else {
        0
    }
}

// Whether the complexes of linkage class k have one terminal strong class. It goes over the complexes once.
fn has_one(strong: &[u32], exit: &[u32], linkage: &[u32], k: u32) -> bool
    requires places { length strong.now ≡ length linkage.now }
    requires labels { AreClassNumbers strong.now (length exit.now) }
    ensures { IsTrue result
        → terminals_of strong.now exit.now linkage.now (length exit.now) k ≡ 1 }
{
    let mut own = 0;
    for c in 0..strong.len() {
        let here = terminal_class(strong, exit, linkage, k, c);
        if here != 0 {
            if own != 0 && own != here {
                return false;
            }
            own = here;
        }
    }
    own != 0
}

// The same number. Mostly it is 1, which one walk over the complexes shows.
fn terminal_count(strong: &[u32], exit: &[u32], linkage: &[u32], k: u32) -> u32
    requires places { length strong.now ≡ length linkage.now }
    requires labels { AreClassNumbers strong.now (length exit.now) }
    requires small { length exit.now ≤ MAX_COMPLEXES }
    ensures { result ≡ terminals_of strong.now exit.now linkage.now (length exit.now) k }
{
    if has_one(strong, exit, linkage, k) {
        return 1;
    }
    terminals_of(strong, exit, linkage, k)
}

/// The least linkage class that has not exactly one terminal strong class, and how many it has.
pub(crate) fn first_with_more(
    strong: &[u32],
    exit: &[u32],
    linkage: &[u32],
    classes: u32,
) -> Option<(u32, u32)>
    requires places { length strong.now ≡ length linkage.now }
    requires labels { AreClassNumbers strong.now (length exit.now) }
    requires small { length exit.now ≤ MAX_COMPLEXES }
    requires few { classes ≤ MAX_COMPLEXES }
    ensures { MatchOption result
        (HaveOneUpTo strong.now exit.now linkage.now (length exit.now) classes)
        (λ found.
        IsFirstWithMore strong.now exit.now linkage.now (length exit.now) classes found.0 found.1) }
{
    for k in 0..classes {
        let count = terminal_count(strong, exit, linkage, k + 1);
        if count != 1 {
            return Some((k + 1, count));
        }
    }
    None
}
