use crate::word::Word;

/// The sizes that the heads of a document rest on. What no accepted block has given yet is 0, empty or no.
#[derive(Clone, Copy)]
pub struct Sizes<'a> {
    pub species: u32,
    pub complexes: u32,
    pub reactions: u32,
    pub terminal: u32,
    /// How many linked pairs there are within terminal classes.
    pub pairs: u32,
    /// Of each linkage class in order, how many reactions it has.
    pub class_reactions: &'a [u32],
    /// Whether the answer to question 12 gives a confluence vector.
    pub vector: bool,
}

/// The record that is due. Questions, reactions, complexes, sections and shared lists count from 1.
#[derive(Clone, Copy)]
pub enum Due<'a> {
    /// The head of a question.
    Head(u32),
    /// A base of this many of these reactions, which are ascending.
    Base {
        count: u32,
        members: &'a [u32],
    },
    /// The side of the product of this reaction.
    Side {
        reaction: u32,
    },
    /// A walk over complexes.
    Walk,
    /// A record of this word with this many numbers: free ones if the word says so, and else from the least to the greatest.
    Part {
        word: Word,
        count: u32,
        least: i128,
        greatest: i128,
    },
    /// A node of a tree. Cuts of its two parts have this many numbers, and this many lists are shared.
    Node {
        count_a: u32,
        count_b: u32,
        shared: u32,
    },
    /// The last line.
    Finish,
    /// The number of shared lists.
    Table,
    /// A shared list.
    Vector,
    /// The line that opens a section.
    Section(u32),
}

/// What is due at a line of a document.
#[derive(Clone, Copy)]
pub struct Expect<'a> {
    pub due: Due<'a>,
    /// The version of the document, 1 or 2.
    pub version: u32,
    /// Whether the line before ended a tree.
    pub after_tree: bool,
    pub sizes: Sizes<'a>,
}
