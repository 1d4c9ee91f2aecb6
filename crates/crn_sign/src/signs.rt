ghost use Rattle.std.specs.Prelude.{◌≡◌, IfOk};

use crn_vec::{NoMemory, Sign};
use std::alloc::Global;
use std::marker::Model;

/// A list of signs, one for each choice of a full prefix.
#[derive(Drop)]
pub struct Signs {
    items: Vec<Sign>,
}

impl Model for Signs {
    ghost use Rattle.std.specs.Prelude.{List};
    ghost use Rattle.crn_vec.specs.declared.signs.Sign.{Sign};

    ghost Value = { List Sign };

    ghost view = { λ s. s.items.items };
}

impl Signs {
    /// A list of these signs.
    pub(crate) fn from_slice(alloc: Global, signs: &[Sign]) -> Result<Signs, NoMemory>
        ensures { IfOk result (λ made. made ≡ signs.now) }
    {
        Ok(Signs {
            items: Vec::from_slice(alloc, signs)?,
        })
    }

    /// The signs in order.
    pub fn as_slice(&self) -> &[Sign]
        ensures { result.now ≡ self.now }
    {
        &self.items
    }
}
