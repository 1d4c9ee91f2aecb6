ghost use Rattle.std.specs.Prelude.{◌≡◌, ◌+◌, [], ◌∷◌, OnOk};
ghost use Rattle.crn_ctext.specs.Records.{Record};
ghost use Rattle.crn_ctext.specs.Blocks.{asks};
ghost use Rattle.crn_ctext.specs.Expect.{AreSizes, sizes_of, tag_of};
ghost use Rattle.crn_reading.specs.Steps.{IsVersion, GoesOn, StepIs};
ghost use Rattle.crn_document.specs.Inner.Records.{Expects};
ghost use Rattle.crn_document.specs.Inner.Plain.{IsPlain, MayBeIn, due_of, plain_form};

use crn_ctext::{Due, Expect, Sizes};
use crn_io::Source;
use crn_reading::{CheckStop, Reading, next_record};

// A record whose form depends on no network. All but the last line are of version 2 alone.
#[derive(Clone, Copy)]
pub(crate) enum Plain {
    Finish,
    Table,
    Vector,
}

// What is due if the record of this kind is.
fn plain_due(plain: Plain) -> Due<'static>
    ensures { result ≡ due_of plain }
{
    match plain {
        Plain::Finish => Due::Finish,
        Plain::Table => Due::Table,
        Plain::Vector => Due::Vector,
    }
}

// The sizes of nothing.
fn no_sizes() -> Sizes<'static>
    ensures { AreSizes result }
{
    Sizes {
        species: 0,
        complexes: 0,
        reactions: 0,
        terminal: 0,
        pairs: 0,
        class_reactions: &[],
        vector: false,
    }
}

// What is due in a document of this version if the record of this kind is.
fn plain_expect(version: u32, after_tree: bool, plain: Plain) -> Expect<'static>
    requires version { IsVersion version }
    requires may { MayBeIn plain version }
    ensures due { Expects result version after_tree (plain_form plain ∷ []) }
    ensures untagged { (r : Record) → tag_of result.due (sizes_of result.sizes) r ≡ [] }
{
    Expect {
        due: plain_due(plain),
        version,
        after_tree,
        sizes: no_sizes(),
    }
}

// The next line, which has to be the record of this kind, after a tree or not.
pub(crate) fn next_plain<S: Source>(
    source: &mut S,
    at: &mut Reading,
    plain: Plain,
    after_tree: bool,
) -> Result<(), CheckStop>
    requires goes { GoesOn at.old }
    requires may { MayBeIn plain at.old.version }
    ensures step { StepIs (asks at.old.version at.old.line after_tree (plain_form plain ∷ []))
        (λ _ r. IsPlain plain at.new.numbers.list r)
        result at.old at.new (S.seen source.old) (S.seen source.new) }
    ensures goes { OnOk result (GoesOn at.new) }
    ensures line { OnOk result (at.new.line ≡ at.old.line + 1) }
    ensures version { at.new.version ≡ at.old.version }
{
    let expect = plain_expect(at.version, after_tree, plain);
    next_record(source, at, &expect)
}
