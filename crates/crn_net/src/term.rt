/// A name in a text, with its number on a side.
///
/// The name is the `length` bytes from place `at`, counted from 0, of the text that is handed in with the term.
#[derive(Clone, Copy, Debug)]
pub struct Term {
    pub at: u32,
    pub length: u32,
    pub count: u32,
}
