ghost use Rattle.std.specs.Prelude.{◌≡◌, ◌↔◌, ◌⊎◌, IsTrue};
ghost use Rattle.crn_vec.specs.Lists.{IsIn, AreDistinct};
ghost use Rattle.crn_ctext.specs.Kinds.{known_words};
ghost use Rattle.crn_ctext.specs.Expect.{texts};
ghost use Rattle.crn_ctext.specs.Inner.Rows.{is_row_of, words_of, asked_words, IsTable};

use crate::same::are_same;
use crate::word::Word;

// The table of record kinds, and what is made from it: an expression with an arm or a row for each kind. A row has the
// word, the first version that has it, whether it is a word of trees, and whether the numbers of a record of this kind,
// below a head, are free. It says nothing of nodes of trees and of shared lists.
macro_rules! kinds {
    (@text $word:expr; $($kind:ident $text:literal $version:literal $tree:literal $free:literal)*) => {
        match $word {
            $(Word::$kind => $text,)*
        }
    };
    (@is_free $word:expr; $($kind:ident $text:literal $version:literal $tree:literal $free:literal)*) => {
        match $word {
            $(Word::$kind => $free,)*
        }
    };
    (@rows $count:expr; $($kind:ident $text:literal $version:literal $tree:literal $free:literal)*) => {
        [$(RecordKind {
            word: Word::$kind,
            version: $version,
            tree: $tree,
            free: $free,
        },)*]
    };
    ($task:ident $given:expr) => {
        kinds!(@$task $given;
            Q1 b"q1" 1 false false
            Q2 b"q2" 1 false false
            Q3 b"q3" 1 false false
            Q4 b"q4" 1 false false
            Q5 b"q5" 1 false false
            Q6 b"q6" 1 false false
            Q7 b"q7" 1 false false
            Q8 b"q8" 1 false false
            Q9 b"q9" 1 false false
            Q10 b"q10" 1 false false
            Q11 b"q11" 1 false false
            Q12 b"q12" 1 false false
            Q13 b"q13" 1 false false
            Q14 b"q14" 1 false false
            Q15 b"q15" 1 false false
            Label b"label" 1 false false
            Up b"up" 1 false false
            Depth b"depth" 1 false false
            From b"from" 1 false false
            To b"to" 1 false false
            FromDepth b"fromdepth" 1 false false
            ToDepth b"todepth" 1 false false
            Level b"level" 1 false false
            Exit b"exit" 1 false false
            Back b"back" 1 false false
            Base b"base" 1 false false
            Dual b"dual" 1 false true
            Comb b"comb" 1 false true
            Vec b"vec" 1 false true
            Cut b"cut" 1 false true
            Side b"side" 1 false false
            Walk b"walk" 1 false false
            Tie b"tie" 1 false true
            Shelves b"shelves" 1 false false
            Mu b"mu" 1 false true
            M b"m" 1 false true
            Weights b"weights" 1 false true
            Alpha b"alpha" 1 false true
            Split b"split" 1 true false
            Flat b"flat" 1 true false
            CutA b"cuta" 1 true false
            CutB b"cutb" 1 true false
            RefA b"refa" 2 true false
            RefB b"refb" 2 true false
            End b"end" 1 false false
            Vectors b"vectors" 2 false false
            Vector b"vector" 2 false false
            Section b"section" 2 false false
        )
    };
}

pub(crate) use kinds;

/// A record kind.
#[derive(Clone, Copy)]
pub struct RecordKind {
    /// The word that begins its lines.
    pub word: Word,
    /// The first version of documents that has it.
    pub version: u32,
    /// Whether it is a node of a tree.
    pub tree: bool,
    /// Whether the numbers of a row of this kind, below a head, are free. It says nothing of nodes of trees and of shared lists.
    pub free: bool,
}

/// A table of record kinds.
pub struct Kinds<const N: usize> {
    pub rows: [RecordKind; N],
}

/// The record kinds of documents.
pub const KINDS: Kinds<48> = Kinds {
    rows: kinds!(rows 48),
};

// Whether some kind has the word.
fn has_text(rows: &[RecordKind], word: &[u8]) -> bool
    ensures { IsTrue result ↔ IsIn word.now (texts rows.now) }
{
    for row in rows {
        if are_same(row.word.text(), word) {
            return true;
        }
    }
    false
}

// Whether no two kinds have one word.
fn are_apart(rows: &[RecordKind]) -> bool
    ensures { IsTrue result ↔ AreDistinct (texts rows.now) }
{
    for (i, row) in rows.iter().enumerate() {
        let (_, later) = rows.split_at(i + 1);
        if has_text(later, row.word.text()) {
            return false;
        }
    }
    true
}

impl<const N: usize> Kinds<N> {
    /// Whether no two kinds have one word. It takes no memory.
    pub fn distinct(&self) -> bool
        ensures { IsTrue result ↔ AreDistinct (texts self.now.rows) }
    {
        are_apart(&self.rows)
    }
}

/// Whether the words of `KINDS` are pairwise distinct. They are those of version 2 in their order,
/// and the answer is a yes.
pub fn kinds_are_distinct() -> bool
    ensures yes { IsTrue result }
    ensures distinct { AreDistinct (texts KINDS.rows) }
    ensures words { texts KINDS.rows ≡ known_words 2 }
{
    KINDS.distinct()
}

// Whether the kind is one of this version, and of a tree if only those are asked for.
fn is_of(kind: &RecordKind, version: u32, trees: bool) -> bool
    ensures { result ≡ is_row_of version trees kind.now }
{
    kind.version <= version && (kind.tree || !trees)
}

// Whether some kind has the word.
fn has_word(rows: &[RecordKind], word: &[u8], version: u32, trees: bool) -> bool
    ensures { IsTrue result ↔ IsIn word.now (words_of version trees rows.now) }
{
    for row in rows {
        if is_of(row, version, trees) {
            if are_same(row.word.text(), word) {
                return true;
            }
        }
    }
    false
}

// Whether this version of documents has the word, by their table.
fn has_known(rows: &[RecordKind], word: &[u8], version: u32, trees: bool) -> bool
    requires table { IsTable rows.now }
    requires version { (version ≡ 1) ⊎ (version ≡ 2) }
    ensures { IsTrue result ↔ IsIn word.now (asked_words version trees) }
{
    has_word(rows, word, version, trees)
}

/// Whether this version of documents has the word, as one of a tree if only those are asked for.
pub(crate) fn is_known(word: &[u8], version: u32, trees: bool) -> bool
    requires { (version ≡ 1) ⊎ (version ≡ 2) }
    ensures { IsTrue result ↔ IsIn word.now (asked_words version trees) }
{
    has_known(&KINDS.rows, word, version, trees)
}
