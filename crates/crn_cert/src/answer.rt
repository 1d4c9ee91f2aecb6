ghost use Rattle.std.specs.Prelude.{◌≡◌};
ghost use Rattle.crn_cert.specs.Answers.{plain};

use crate::rank_list::RankList;
use crate::rows::Rows;
use crate::tree::Tree;
use crn_vec::{Ints, Nums};

/// Why a question is open.
#[derive(Drop)]
pub enum Gap {
    Wide {
        system: u32,
        class: u32,
        index: u32,
        basis: Nums,
    },
    Budget {
        nodes: u32,
    },
    Rests {
        question: u32,
    },
}

/// What an answer says.
#[derive(Drop)]
pub enum Verdict {
    Classes {
        count: u32,
        label: Nums,
    },
    Strong {
        count: u32,
        terminal: u32,
        label: Nums,
        exit: Nums,
    },
    Rank {
        rank: u32,
        base: Nums,
    },
    Deficiency {
        total: u32,
        classes: Nums,
    },
    Yes,
    YesWeak {
        weak: bool,
    },
    YesVec {
        vector: Ints,
    },
    YesSignal {
        turn: i32,
        shelves: Ints,
        mu: Ints,
        m: i128,
        weights: Ints,
    },
    No,
    NoReaction {
        reaction: u32,
    },
    NoVec {
        multipliers: Ints,
    },
    NoNumber {
        number: u32,
    },
    NoTerminal {
        class: u32,
        count: u32,
    },
    NoClass {
        class: u32,
        number: u32,
    },
    NoSum {
        sum: u32,
    },
    NoDependence,
    NoCycle {
        reaction: u32,
        walk: Nums,
    },
    NoPair {
        alpha: Ints,
        weights: Ints,
    },
    NotRegular,
    OnlyZero,
    Plane {
        first: u32,
        second: u32,
        one: Ints,
        two: Ints,
    },
    NotApplicable,
    Unknown(Gap),
}

/// Independent members with a dual vector for each, and each other member as their combination.
#[derive(Drop)]
pub struct RankProof {
    pub base: Nums,
    pub duals: Rows,
    pub combs: Rows,
}

/// What shows an answer.
#[derive(Drop)]
pub enum Proof {
    Nothing,
    Forest {
        up: Nums,
        depth: Nums,
    },
    Strong {
        from: Nums,
        from_depth: Nums,
        to: Nums,
        to_depth: Nums,
        level: Nums,
    },
    Back(Nums),
    Rank(RankProof),
    Ranks(RankList),
    Sides(Rows),
    Ties(Rows),
    One(Tree),
    Two(Tree, Tree),
}

/// A verdict and its proof.
#[derive(Drop)]
pub struct Answer {
    pub verdict: Verdict,
    pub proof: Proof,
}

impl Answer {
    /// The answer with a verdict that nothing has to show, as an open one.
    pub fn plain(verdict: Verdict) -> Self
        ensures { result ≡ plain verdict }
    {
        Self {
            verdict,
            proof: Proof::Nothing,
        }
    }
}
