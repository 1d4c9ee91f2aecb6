ghost use Rattle.std.specs.Prelude.{◌≡◌, ◌↔◌, IsTrue, length};
ghost use Rattle.std.specs.List.{AllZip};
ghost use Rattle.crn_vec.specs.Vectors.{HasSign};
ghost use Rattle.crn_vec.specs.Systems.{HasKind};
ghost use Rattle.crn_vec.specs.Concordance.{is_minus, is_plus};
ghost use Rattle.crn_vec.specs.Problems.{all_zero};

/// The sign of a whole number.
#[derive(Clone, Copy, Debug, PartialEq, Eq)]
pub enum Sign {
    Zero,
    Plus,
    Minus,
}

/// What a coordinate of a linear system has to be: at least 1, at most -1, at least 0, zero, or anything.
#[derive(Clone, Copy, Debug, PartialEq, Eq)]
pub enum Kind {
    Pos,
    Neg,
    NonNeg,
    Zero,
    Free,
}

/// The sign of a number.
pub fn sign_of(value: i128) -> Sign
    ensures { HasSign result value }
{
    if value > 0 {
        return Sign::Plus;
    }
    if value < 0 {
        return Sign::Minus;
    }
    Sign::Zero
}

/// Whether the sign is plus.
pub fn is_plus_sign(sign: Sign) -> bool
    ensures { result ≡ is_plus sign }
{
    match sign {
        Sign::Plus => true,
        _ => false,
    }
}

/// Whether the sign is minus.
pub fn is_minus_sign(sign: Sign) -> bool
    ensures { result ≡ is_minus sign }
{
    match sign {
        Sign::Minus => true,
        _ => false,
    }
}

/// Whether each sign is zero.
pub fn is_all_zero(signs: &[Sign]) -> bool
    ensures { result ≡ all_zero signs.now }
{
    for sign in signs {
        if *sign != Sign::Zero {
            return false;
        }
    }
    true
}

/// Whether a number is of a kind.
pub fn has_kind(kind: Kind, value: &i128) -> bool
    ensures { IsTrue result ↔ HasKind kind value.now }
{
    match kind {
        Kind::Pos => *value >= 1,
        Kind::Neg => *value <= -1,
        Kind::NonNeg => *value >= 0,
        Kind::Zero => *value == 0,
        Kind::Free => true,
    }
}

/// Whether each value is of its kind, place by place.
pub fn agrees(kinds: &[Kind], values: &[i128]) -> bool
    requires { length values.now ≡ length kinds.now }
    ensures { IsTrue result ↔ AllZip HasKind kinds.now values.now }
{
    for k in 0..kinds.len() {
        if !has_kind(kinds[k], &values[k]) {
            return false;
        }
    }
    true
}
