ghost use Rattle.std.specs.Prelude.{◌≡◌, ◌↔◌, IsTrue};

// Whether eight bytes are the same as eight others, by one comparison.
pub(crate) fn same_eights(left: [u8; 8], right: [u8; 8]) -> bool
    ensures { IsTrue result ↔ (left ≡ right) }
{
    u64::from_le_bytes(left) == u64::from_le_bytes(right)
}

/// Whether two lists of bytes are the same, by few steps if they are short.
pub fn are_same(left: &[u8], right: &[u8]) -> bool
    ensures { IsTrue result ↔ (left.now ≡ right.now) }
{
    match left {
        [] => right.is_empty(),
        [a, b, c, d, e, f, g, h, left @ ..] => match right {
            [i, j, k, l, m, n, o, p, right @ ..] => {
                if !same_eights(
                    [*a, *b, *c, *d, *e, *f, *g, *h],
                    [*i, *j, *k, *l, *m, *n, *o, *p],
                ) {
                    return false;
                }
                are_same(left, right)
            }
            _ => false,
        },
        [a, left @ ..] => match right {
            [] => false,
            [b, right @ ..] => {
                if *a != *b {
                    return false;
                }
                are_same(left, right)
            }
        },
    }
}
