ghost use Rattle.std.specs.Prelude.{◌≡◌};
ghost use Rattle.crn_net.specs.declared.fault.NetFault.TheVariants.{NoMemory};

use crn_vec::NoMemory;
use std::alloc::AllocFailed;
use thiserror::Error;

/// Why a reaction is not added, or a network is not built. The variants are in the order in which the causes are tried.
#[derive(Clone, Copy, Debug, PartialEq, Eq, Error)]
pub enum NetFault {
    #[error("SelfReaction: both sides are the same complex")]
    SelfReaction,
    #[error("TooManySpecies: the network has too many species")]
    TooManySpecies,
    #[error("TooManyComplexes: the network has too many complexes")]
    TooManyComplexes,
    #[error("TooManyReactions: the network has too many reactions")]
    TooManyReactions,
    #[error("NoReaction: the network has no reaction")]
    NoReaction,
    #[error("NoMemory: memory ran out")]
    NoMemory,
}

impl From<NoMemory> for NetFault {
    ghost from_gives = { λ _ e. e ≡ NoMemory };

    fn from(_: NoMemory) -> NetFault {
        NetFault::NoMemory
    }
}

impl<T: Drop> From<AllocFailed<T>> for NetFault {
    ghost from_gives = { λ _ e. e ≡ NoMemory };

    fn from(_: AllocFailed<T>) -> NetFault {
        NetFault::NoMemory
    }
}
