ghost use Rattle.std.specs.Prelude.{◌≡◌, ◌<◌, [], ◌∷◌, ◌++◌, length, slice_index_or, OnOk, IfOk};

use crn_vec::NoMemory;
use std::alloc::Global;
use std::marker::Model;

// Lists of numbers, which contracts see as such. They are held in one, one after another: a certificate has hundreds of
// short ones, and memory for each by itself takes longer than its numbers.
#[derive(Drop)]
pub(crate) struct Lists {
    numbers: Vec<i128>,
    // Where each list begins, and where it ends.
    spans: Vec<(usize, usize)>,
}

impl Model for Lists {
    ghost use Rattle.std.specs.Prelude.{List, ℤ, length};
    ghost use Rattle.crn_document.specs.Inner.Lists.{AreSpans, spans_of};

    ghost Value = { List (List ℤ) };

    ghost view = { λ s. spans_of s.numbers.items s.spans.items };

    ghost invariant = { λ s. AreSpans (length s.numbers.items) s.spans.items };
}

impl Lists {
    // No lists.
    pub(crate) fn new(alloc: Global) -> Result<Lists, NoMemory>
        ensures { IfOk result (λ made. made ≡ []) }
    {
        Ok(Lists {
            numbers: Vec::new(alloc),
            spans: Vec::new(alloc),
        })
    }

    // Adds a list at the end.
    pub(crate) fn push(&mut self, list: &[i128]) -> Result<(), NoMemory>
        ensures { OnOk result (self.new ≡ self.old ++ list.now ∷ []) }
    {
        let start = self.numbers.len();
        self.numbers.extend_from_slice(list)?;
        self.spans.push((start, self.numbers.len()))?;
        Ok(())
    }

    // The number of lists.
    pub(crate) fn len(&self) -> usize
        ensures { result ≡ length self.now }
    {
        self.spans.len()
    }

    // The list at this place, counted from 0.
    pub(crate) fn row(&self, i: usize) -> &[i128]
        requires { i < length self.now }
        ensures { result.now ≡ slice_index_or self.now i [] }
    {
        let (start, end) = self.spans[i];
        let (_, rest) = self.numbers.split_at(start);
        let (list, _) = rest.split_at(end - start);
        list
    }
}
