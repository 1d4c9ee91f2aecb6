ghost use Rattle.std.specs.Prelude.{◌<◌};

// Of a divisor: how often 2 divides it, and the inverse of its odd part modulo 2^64. Nothing is proved of these numbers, since each quotient is tested.
#[derive(Clone, Copy)]
pub(crate) struct Inverse {
    pub(crate) shift: u32,
    pub(crate) inverse: i64,
}

// A step of Newton's method, which doubles the number of lowest bits that are right.
fn better(odd: i64, x: i64) -> i64 {
    x.wrapping_mul(2i64.wrapping_sub(odd.wrapping_mul(x)))
}

// The shift and the inverse by which quotients by a divisor are found.
pub(crate) fn inverse_of(by: i64) -> Inverse
    ensures { result.shift < 64 }
{
    let shift = by.trailing_zeros() % 64;
    let odd = by >> shift;
    // An odd number is its own inverse modulo 8, so that its three lowest bits are right at first.
    let inverse = better(odd, better(odd, better(odd, better(odd, better(odd, odd)))));
    Inverse { shift, inverse }
}

// The quotient if the number is a multiple of the divisor, and any number if not.
pub(crate) fn inverse_quotient(x: i64, shift: u32, inverse: i64) -> i64
    requires { shift < 64 }
{
    (x >> shift).wrapping_mul(inverse)
}

// The lowest 64 bits of a number.
fn lowest_bits(x: i128) -> i64 {
    ((x.cast_unsigned() % (1 << 64)) as u64).cast_signed()
}

// The same of a number of 128 bits whose quotient fits 64, of which the lowest 64 bits are enough.
pub(crate) fn wide_inverse_quotient(x: i128, shift: u32, inverse: i64) -> i64
    requires { shift < 64 }
{
    lowest_bits(x >> shift).wrapping_mul(inverse)
}
