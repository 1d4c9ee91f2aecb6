ghost use Rattle.std.specs.Prelude.{◌≡◌, slice_index_or};
ghost use Rattle.crn_cert.specs.declared.head_kind.HeadKind.TheVariants.{Rests};
ghost use Rattle.crn_check.specs.Check.{IsBuilt};
ghost use Rattle.crn_check.specs.Facts.{asked};
ghost use Rattle.crn_ctext.specs.Questions.{decided, kind_at, open_kinds};

use crn_cert::HeadKind;

// The kinds of decided heads of a question, in the order of their forms.
fn decided(question: u32) -> &'static [HeadKind]
    requires { IsBuilt question }
    ensures { result.now ≡ decided (asked question) }
{
    match question {
        1 => &[HeadKind::Classes],
        2 => &[HeadKind::Strong],
        5 => &[HeadKind::Rank],
        6 => &[HeadKind::Deficiency],
        7 | 8 => &[HeadKind::YesVec, HeadKind::NoVec],
        9 => &[HeadKind::YesWeak, HeadKind::NoNumber],
        10 => &[
            HeadKind::Yes,
            HeadKind::NoTerminal,
            HeadKind::NoClass,
            HeadKind::NoSum,
        ],
        11 => &[
            HeadKind::Yes,
            HeadKind::NoTerminal,
            HeadKind::NoDependence,
            HeadKind::NoCycle,
        ],
        12 => &[
            HeadKind::YesVec,
            HeadKind::NotRegular,
            HeadKind::OnlyZero,
            HeadKind::Plane,
        ],
        13 => &[HeadKind::YesSignal, HeadKind::No, HeadKind::NotApplicable],
        14 | 15 => &[HeadKind::Yes, HeadKind::NoPair],
        _ => &[HeadKind::Yes, HeadKind::NoReaction],
    }
}

// The kind of open heads at this place among those, counted from 0.
fn open_kind(i: usize) -> HeadKind
    ensures { result ≡ slice_index_or open_kinds i Rests }
{
    match i {
        0 => HeadKind::Wide,
        1 => HeadKind::Budget,
        _ => HeadKind::Rests,
    }
}

/// The kind of a head of this question, by the place of its form, both counted from 1.
#[tactic(auto, using(crate::proofs::HeadKinds::open_kind))]
pub(crate) fn kind_at(question: u32, place: u32) -> HeadKind
    requires { IsBuilt question }
    ensures { result ≡ kind_at (asked question) place }
{
    if place == 0 {
        return HeadKind::Rests;
    }
    let i = place as usize - 1;
    let decided = decided(question);
    if i < decided.len() {
        return decided[i];
    }
    open_kind(i - decided.len())
}
