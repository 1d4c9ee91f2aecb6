ghost use Rattle.std.specs.Prelude.{◌≡◌, ◌≤◌, length, take, List, ℕ, [], ◌∷◌, nat_eq};
ghost use Rattle.std.proofs.Common.{ap};
ghost use Rattle.std.specs.Cmp.{partial_equiv_from_equiv};
ghost use Rattle.std.specs.Cmp.Lexicographic.{pointwise, bytes_decides, nat_list_eq_equiv};

use crn_vec::MAX_NAME;
use indexmap::IndexSet;
use std::hash::{Hash, Hasher};
use std::marker::Model;

// Names, each once, in the order in which they were inserted. A look-up takes the same time however many there are.
pub(crate) type Names = IndexSet<Name>;

// The name of a species, which contracts see as its bytes.
#[derive(Drop)]
pub(crate) struct Name {
    bytes: [u8; MAX_NAME],
    size: usize,
}

impl Model for Name {
    ghost use Rattle.std.specs.Prelude.{ℕ, List, ◌≤◌, take};
    ghost use Rattle.crn_vec.specs.declared.limits.TheConstants.{MAX_NAME};

    ghost Value = { List ℕ };

    ghost view = { λ n. take n.size n.bytes };

    ghost invariant = { λ n. n.size ≤ MAX_NAME };
}

impl Name {
    pub(crate) fn new(name: &[u8]) -> Name
        requires { length name.now ≤ MAX_NAME }
        ensures { result ≡ name.now }
    {
        let mut bytes = [0u8; MAX_NAME];
        let (prefix, _) = bytes.split_at_mut(name.len());
        prefix.copy_from_slice(name);
        Name {
            bytes,
            size: name.len(),
        }
    }

    pub(crate) fn as_slice(&self) -> &[u8]
        ensures { result.now ≡ self.now }
    {
        let (prefix, _) = self.bytes.split_at(self.size);
        prefix
    }

    // As many bytes as the longest name has, of which the first are the name's, and how many these are.
    pub(crate) fn block(&self) -> (&[u8], usize)
        ensures name { take result.1 result.0.now ≡ self.now }
        ensures long { length result.0.now ≡ MAX_NAME }
        ensures size { result.1 ≤ MAX_NAME }
    {
        (self.bytes.as_slice(), self.size)
    }
}

impl PartialEq for Name {
    ghost eq = { pointwise nat_eq };

    ghost laws = { partial_equiv_from_equiv nat_list_eq_equiv };

    fn eq(&self, other: &Name) -> bool {
        self.as_slice() == other.as_slice()
    }
}

impl Eq for Name {
    ghost laws = { nat_list_eq_equiv };
}

impl Hash for Name {
    ghost hash_input = { λ n. n ∷ [] };

    ghost respects_eq = { λ x y h. ap (λ (bytes : List ℕ). bytes ∷ []) ((bytes_decides x y).0 h) };

    fn hash<H: Hasher>(&self, state: &mut H) {
        state.write(self.as_slice());
    }
}
