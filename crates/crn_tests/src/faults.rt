// How faults are displayed.
use crn_net::NetFault;
use crn_text::{TextCode, TextFault};
use std::process::Abort;

const NETWORKS: &[(NetFault, &str)] = &[
    (
        NetFault::SelfReaction,
        "SelfReaction: both sides are the same complex",
    ),
    (
        NetFault::TooManySpecies,
        "TooManySpecies: the network has too many species",
    ),
    (
        NetFault::TooManyComplexes,
        "TooManyComplexes: the network has too many complexes",
    ),
    (
        NetFault::TooManyReactions,
        "TooManyReactions: the network has too many reactions",
    ),
    (
        NetFault::NoReaction,
        "NoReaction: the network has no reaction",
    ),
    (NetFault::NoMemory, "NoMemory: memory ran out"),
];

// Whether a fault is displayed so.
fn is_displayed(rt: &(impl Abort + AllocGlobal), fault: &NetFault, want: &str) -> bool {
    let shown = format!(in rt.alloc(); "{fault}").expect(rt, "memory");
    shown.as_str() == want
}

#[test]
fn each_fault_of_a_network_is_displayed_with_its_name(rt: HostRuntime) {
    for (fault, want) in NETWORKS {
        assert!(rt; is_displayed(&rt, fault, want), "{want}");
    }
}

const TEXTS: &[(TextCode, &str)] = &[
    (
        TextCode::SelfReaction,
        "SelfReaction: both sides are the same complex",
    ),
    (
        TextCode::TooManySpecies,
        "TooManySpecies: the network has too many species",
    ),
    (
        TextCode::TooManyComplexes,
        "TooManyComplexes: the network has too many complexes",
    ),
    (
        TextCode::TooManyReactions,
        "TooManyReactions: the network has too many reactions",
    ),
    (TextCode::NoReaction, "NoReaction: the text has no reaction"),
    (TextCode::NoMemory, "NoMemory: memory ran out"),
    (
        TextCode::NotAscii,
        "NotAscii: a byte before the comment is neither a tab nor printable ASCII",
    ),
    (TextCode::NoArrow, "NoArrow: the line has no arrow"),
    (
        TextCode::EmptySide,
        "EmptySide: a side, or a place for a term, is empty",
    ),
    (
        TextCode::BadName,
        "BadName: a term is not a name, or a number and a name",
    ),
    (TextCode::NameTooLong, "NameTooLong: a name is too long"),
    (
        TextCode::ZeroCoefficient,
        "ZeroCoefficient: the number before a name is zero",
    ),
    (
        TextCode::CoefficientTooLarge,
        "CoefficientTooLarge: the amount of a species is too large",
    ),
    (TextCode::StrayMark, "StrayMark: a byte belongs to no token"),
    (TextCode::TextTooLong, "TextTooLong: the text is too long"),
];

// Whether a code is displayed so.
fn is_code_displayed(rt: &(impl Abort + AllocGlobal), code: TextCode, want: &str) -> bool {
    let shown = format!(in rt.alloc(); "{code}").expect(rt, "memory");
    shown.as_str() == want
}

#[test]
fn each_fault_of_a_text_is_displayed_with_its_name(rt: HostRuntime) {
    for (code, want) in TEXTS {
        assert!(rt; is_code_displayed(&rt, *code, want), "{want}");
    }
    let fault = TextFault {
        line: 3,
        code: TextCode::NoArrow,
    };
    let shown = format!(in rt.alloc(); "{fault}").expect(&rt, "memory");
    assert!(rt; shown.as_str() == "line 3: NoArrow: the line has no arrow");
}
