ghost use Rattle.std.specs.Prelude.{◌≡◌};

use super::matrices::Entries::{Chain, Fan, Rows};
use super::matrices::{Shape, matrix};
use crn_tab::{ColumnStop, Refused, Tableau};
use crn_vec::{Ints, Matrix};
use std::process::Abort;

fn row(rt: &impl Abort, matrix: &Matrix, t: &Tableau, k: usize) -> Ints
    requires { t.now.matrix ≡ matrix.now }
{
    assert!(rt; k < matrix.cols() + matrix.rows());
    assert!(rt; !t.is_basic(k));
    t.row(k).expect(rt, "memory")
}

fn column(rt: &impl Abort, matrix: &Matrix, t: &Tableau, k: usize) -> Result<Ints, ColumnStop>
    requires { t.now.matrix ≡ matrix.now }
{
    assert!(rt; k < matrix.cols() + matrix.rows());
    assert!(rt; t.is_basic(k));
    t.column(k)
}

// Whether the list is the wanted one or its negative.
fn is_up_to_sign(made: &[i128], want: &[i128]) -> bool {
    let mut same = made.len() == want.len();
    let mut negatives = same;
    for (x, y) in made.iter().zip(want) {
        same = same && x == y;
        negatives = negatives && x.checked_neg() == Some(*y);
    }
    same || negatives
}

// Whether the row of a coordinate is this list or its negative.
fn has_row(rt: &impl Abort, matrix: &Matrix, t: &Tableau, k: usize, want: &[i128]) -> bool
    requires { t.now.matrix ≡ matrix.now }
{
    is_up_to_sign(row(rt, matrix, t, k).as_slice(), want)
}

// So for its column, which is wide if the list is empty.
fn has_column(rt: &impl Abort, matrix: &Matrix, t: &Tableau, k: usize, want: &[i128]) -> bool
    requires { t.now.matrix ≡ matrix.now }
{
    match column(rt, matrix, t, k) {
        Ok(made) => is_up_to_sign(made.as_slice(), want),
        Err(ColumnStop::Wide) => want.is_empty(),
        Err(ColumnStop::NoMemory) => false,
    }
}

fn has_basis(rt: &impl Abort, t: &Tableau, want: &[u32]) -> bool {
    t.basis().expect(rt, "memory").as_slice() == want
}

// A call, and what it has to show. Vectors are up to their sign.
#[derive(Clone, Copy)]
enum Step {
    // The row of a coordinate.
    Row(usize, &'static [i128]),
    // Its column, which is wide if the list is empty.
    Column(usize, &'static [i128]),
    Basis(&'static [u32]),
    Enter(usize, Result<(), Refused>),
}

// Whether a call shows what it has to.
fn shows(rt: &impl Abort, matrix: &Matrix, t: &mut Tableau, step: Step) -> bool
    requires { t.old.matrix ≡ matrix.now }
    ensures { t.new.matrix ≡ matrix.now }
{
    match step {
        Step::Row(k, want) => has_row(rt, matrix, t, k, want),
        Step::Column(k, want) => has_column(rt, matrix, t, k, want),
        Step::Basis(want) => has_basis(rt, t, want),
        Step::Enter(first, want) => t.enter_rows(first) == want,
    }
}

// Once nine exchanges were made x_0 is 99^9 x_9 less the rows, of which each counts 99 times as much as the one before.
const FACTORS: &[i128] = &[
    1,
    0,
    0,
    0,
    0,
    0,
    0,
    0,
    0,
    -913_517_247_483_640_899,
    0,
    0,
    1,
    99,
    9_801,
    970_299,
    96_059_601,
    9_509_900_499,
    941_480_149_401,
    93_206_534_790_699,
    9_227_446_944_279_201,
    0,
    0,
];

const TEN: &[i128] = &[97, 89, 83, 79, 73, 71, 67, 61, 59, 53];

const ELEVEN: &[i128] = &[97, 89, 83, 79, 73, 71, 67, 61, 59, 53, 47];

// The product of the ten primes.
const ALL: i128 = 3_749_562_977_351_496_827;

// Where the rows are 0, a coordinate times its prime is the last one.
const QUOTIENTS: &[i128] = &[
    ALL / 97,
    ALL / 89,
    ALL / 83,
    ALL / 79,
    ALL / 73,
    ALL / 71,
    ALL / 67,
    ALL / 61,
    ALL / 59,
    ALL / 53,
    ALL,
    0,
    0,
    0,
    0,
    0,
    0,
    0,
    0,
    0,
    0,
];

const LAST: Refused = Refused {
    leave: 9,
    enter: 21,
    index: 1,
};

use Step::{Basis, Column, Enter, Row};

// The row (1, -1, 1), and once it has entered the columns (1, 1, 0) and (0, 1, 1).
const BY_HAND: &[Step] = &[
    Row(2, &[1, -1, 1]),
    Enter(2, Ok(())),
    Row(0, &[1, -1, 1]),
    Column(1, &[1, 1, 0]),
    Basis(&[1, 2]),
];

// The second row depends on the first.
const DEPENDENT: &[Step] = &[Enter(2, Ok(())), Basis(&[2, 4]), Row(3, &[0, 0, -2, 1, 0])];

// Each row: what it shows, a matrix, and the calls.
const CASES: &[(&str, Shape, &[Step])] = &[
    ("calls worked by hand", Shape(1, 2, Rows(&[-1, 1])), BY_HAND),
    (
        "rows enter as far as they can",
        Shape(3, 2, Rows(&[1, 2, 2, 4, 0, 1])),
        DEPENDENT,
    ),
    (
        "rows enter until the tenth factor of 99, which is wide",
        Shape(11, 12, Chain),
        &[Enter(12, Err(LAST)), Row(0, FACTORS)],
    ),
    (
        "a column of ten primes",
        Shape(10, 11, Fan(TEN)),
        &[Enter(11, Ok(())), Column(10, QUOTIENTS)],
    ),
    (
        "a column is wide by its common multiple",
        Shape(11, 12, Fan(ELEVEN)),
        &[Enter(12, Ok(())), Column(11, &[])],
    ),
];

// Whether each call shows what it has to, on a new tableau.
fn all_show(rt: &(impl Abort + AllocGlobal), shape: Shape, steps: &[Step]) -> bool {
    let matrix = matrix(rt, rt.alloc(), shape);
    let mut t = Tableau::new(rt.alloc(), &matrix).expect(rt, "memory");
    let mut good = true;
    for step in steps {
        good = shows(rt, &matrix, &mut t, *step) && good;
    }
    good
}

#[test]
fn tableaus_by_table(rt: HostRuntime) {
    for (name, shape, steps) in CASES {
        assert!(rt; all_show(&rt, *shape, steps), "{name}");
    }
}
