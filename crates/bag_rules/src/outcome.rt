//! How a check ends.
use crate::report::Report;
use crate::scope::OutsideCause;
use bag_digest::Failed;
use bag_path::BagPath;
use std::alloc::{AllocError, AllocFailed};
use thiserror::Error;

/// The result of a check.
#[derive(Debug, Drop)]
pub enum Outcome {
    /// The bag was judged. The report has its faults.
    Judged(Report),
    /// The bag can't be judged here. This doesn't mean that it is invalid.
    Outside(OutsideCause),
}

/// Why a check ended early.
#[derive(Debug, Drop, Error)]
pub enum CheckFault {
    /// The tree failed, and it has counted the failure.
    #[error("the tree failed")]
    Tree,
    /// A tag file that has to be read has more than 16,777,216 octets.
    #[error("a tag file is too large")]
    TagTooLarge(BagPath),
    /// The tree has more than 200,000 files, or a manifest or `fetch.txt` more than 100,000 lines.
    #[error("too many files or lines")]
    TooMany,
    /// A payload file or a listed file has more than 2^40 octets.
    #[error("a file is too large")]
    TooLarge(BagPath),
    /// Memory ran out.
    #[error("out of memory")]
    Memory,
}

impl From<Failed> for CheckFault {
    ghost use Rattle.std.specs.Prelude.{◌≡◌};
    ghost use Rattle.bag_rules.specs.declared.outcome.CheckFault.TheVariants.{Tree};

    ghost from_gives = { λ _ fault. fault ≡ Tree };

    fn from(_: Failed) -> CheckFault {
        CheckFault::Tree
    }
}

impl From<AllocError> for CheckFault {
    ghost use Rattle.std.specs.Prelude.{◌≡◌};
    ghost use Rattle.bag_rules.specs.declared.outcome.CheckFault.TheVariants.{Memory};

    ghost from_gives = { λ _ fault. fault ≡ Memory };

    fn from(_: AllocError) -> CheckFault {
        CheckFault::Memory
    }
}

impl<T: Drop> From<AllocFailed<T>> for CheckFault {
    ghost use Rattle.std.specs.Prelude.{◌≡◌};
    ghost use Rattle.bag_rules.specs.declared.outcome.CheckFault.TheVariants.{Memory};

    ghost from_gives = { λ _ fault. fault ≡ Memory };

    fn from(_: AllocFailed<T>) -> CheckFault {
        CheckFault::Memory
    }
}
