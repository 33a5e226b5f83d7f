//! Why a bag can't be written.
use crate::too_large::Large;
use bag_digest::Failed;
use bag_path::BagPath;
use std::alloc::{AllocError, AllocFailed};
use thiserror::Error;

/// Why a bag wasn't written, or only a part of it.
#[derive(Debug, Drop, Error)]
pub enum WriteFault {
    /// No algorithm is given.
    #[error("no algorithm")]
    NoAlgorithm,
    /// An element is a `Payload-Oxum`. That element is computed from the payload and can't be given.
    #[error("a Payload-Oxum is given")]
    OxumGiven,
    /// The hole at this place, counted from 0, isn't a payload file, has no valid URL, or repeats an earlier hole.
    #[error("a bad hole")]
    BadHole(usize),
    /// The path of a payload file is that of a folder in which another one is. This is the least such path.
    #[error("a file and a folder of one path")]
    Clash(BagPath),
    /// The tree failed, and it has counted the failure.
    #[error("the tree failed")]
    Tree,
    /// The sink failed, and it has counted the failure.
    #[error("the sink failed")]
    Sink,
    /// Something in the bag is too large.
    #[error("too large")]
    TooLarge(Large),
    /// Memory ran out.
    #[error("out of memory")]
    Memory,
}

impl From<AllocError> for WriteFault {
    ghost use Rattle.std.specs.Prelude.{◌≡◌};
    ghost use Rattle.bag_writer.specs.declared.write_fault.WriteFault.TheVariants.{Memory};

    ghost from_gives = { λ error fault. fault ≡ Memory };

    fn from(_: AllocError) -> WriteFault {
        WriteFault::Memory
    }
}

impl<T: Drop> From<AllocFailed<T>> for WriteFault {
    ghost use Rattle.std.specs.Prelude.{◌≡◌};
    ghost use Rattle.bag_writer.specs.declared.write_fault.WriteFault.TheVariants.{Memory};

    ghost from_gives = { λ _ fault. fault ≡ Memory };

    fn from(_: AllocFailed<T>) -> WriteFault {
        WriteFault::Memory
    }
}
