//! Why a call of a keeper fails.
use bag_digest::{Alg, ReadFault};
use bag_rules::WantFault;
use std::alloc::AllocError;
use thiserror::Error;

/// Why a store didn't carry out a call.
#[derive(Clone, Copy, Debug, PartialEq, Eq, Error)]
pub enum StoreFault {
    /// The store refused a call.
    #[error("the store refused a call")]
    Refused,
    /// The store failed before. It has to be opened again first.
    #[error("the store failed before")]
    Spent,
}

/// Why a keeper has no answer.
#[derive(Clone, Copy, Debug, PartialEq, Eq, Error)]
pub enum KeepFault {
    /// Memory ran out. The keeper can still be used.
    #[error("out of memory")]
    Memory,
    /// The store failed, and the keeper counted the failure. From then on it answers only `Spent`.
    #[error("the store failed")]
    Store(StoreFault),
}

impl From<AllocError> for KeepFault {
    ghost use Rattle.std.specs.Prelude.{◌≡◌};
    ghost use Rattle.bag_ledger.specs.declared.keeper_faults.KeepFault.TheVariants.{Memory};

    ghost from_gives = { λ error fault. fault ≡ Memory };

    fn from(_: AllocError) -> KeepFault {
        KeepFault::Memory
    }
}

/// Why a payload file isn't stored. Of `Reader` and `TooLarge`, the one that occurs first in the stream is reported; of
/// the variants after them, the first that applies. `Keep` may be reported in place of any of them.
#[derive(Clone, Copy, Debug, PartialEq, Eq, Error)]
pub enum PutFault {
    /// A read of its content failed.
    #[error("its content can't be read")]
    Reader,
    /// It has more than 1,073,741,824 octets.
    #[error("too large")]
    TooLarge,
    /// A line of `fetch.txt` gives it another length (RFC 8493 section 2.2.3).
    #[error("length")]
    Length,
    /// A payload manifest lists another digest for it (section 2.1.3). This is the first such algorithm.
    #[error("digest")]
    Digest(Alg),
    /// The keeper has no answer.
    #[error("not kept")]
    Keep(KeepFault),
}

impl From<AllocError> for PutFault {
    ghost use Rattle.std.specs.Prelude.{◌≡◌};
    ghost use Rattle.bag_ledger.specs.declared.keeper_faults.KeepFault.TheVariants.{Memory};
    ghost use Rattle.bag_ledger.specs.declared.keeper_faults.PutFault.TheVariants.{Keep};

    ghost from_gives = { λ error fault. fault ≡ Keep Memory };

    fn from(_: AllocError) -> PutFault {
        PutFault::Keep(KeepFault::Memory)
    }
}

impl From<ReadFault> for PutFault {
    ghost use Rattle.std.specs.Prelude.{◌≡◌};
    ghost use Rattle.bag_ledger.specs.PutFaults.{put_fault};

    ghost from_gives = { λ read fault. fault ≡ put_fault read };

    fn from(fault: ReadFault) -> PutFault {
        match fault {
            ReadFault::Read => PutFault::Reader,
            ReadFault::TooLarge => PutFault::TooLarge,
            ReadFault::Memory => PutFault::Keep(KeepFault::Memory),
        }
    }
}

impl From<WantFault> for PutFault {
    ghost use Rattle.std.specs.Prelude.{◌≡◌};
    ghost use Rattle.bag_ledger.specs.PutFaults.{misfit_fault};

    ghost from_gives = { λ misfit fault. fault ≡ misfit_fault misfit };

    fn from(fault: WantFault) -> PutFault {
        match fault {
            WantFault::Length => PutFault::Length,
            WantFault::Digest(alg) => PutFault::Digest(alg),
        }
    }
}

impl From<KeepFault> for PutFault {
    ghost use Rattle.std.specs.Prelude.{◌≡◌};
    ghost use Rattle.bag_ledger.specs.declared.keeper_faults.PutFault.TheVariants.{Keep};

    ghost from_gives = { λ fault put. put ≡ Keep fault };

    fn from(fault: KeepFault) -> PutFault {
        PutFault::Keep(fault)
    }
}
