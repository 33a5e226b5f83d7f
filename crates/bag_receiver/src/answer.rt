//! Answers to deliveries.
use bag_digest::Alg;
use bag_ledger::{KeepFault, PutFault};
use bag_path::PathFault;
use thiserror::Error;

/// The answer to a delivery.
#[derive(Clone, Copy, Debug, PartialEq, Eq)]
pub enum Answer {
    /// The content is valid, and is held from now on.
    Taken,
    /// The content is valid, but the path is already held. What is held is kept.
    Repeated,
    /// The content isn't taken, and nothing changes.
    Refused(DeliverFault),
}

/// Why a delivery is refused. If several reasons apply, the first in this order is reported, but of `Reader` and
/// `TooLarge` the one that occurs first in the stream. `Keeper` may be reported in place of any answer that needs the
/// store or memory.
#[derive(Clone, Copy, Debug, PartialEq, Eq, Error)]
pub enum DeliverFault {
    /// No transfer has this name, or the name is invalid.
    #[error("no transfer")]
    NoTransfer,
    /// The path is invalid, for this reason.
    #[error("path")]
    BadPath(PathFault),
    /// No payload manifest of the transfer lists the path (RFC 8493 section 2.1.3).
    #[error("not listed")]
    NotListed,
    /// A read of the content failed.
    #[error("reader")]
    Reader,
    /// The content has more than 1,073,741,824 octets.
    #[error("too large")]
    TooLarge,
    /// A line of `fetch.txt` gives the file another length (section 2.2.3).
    #[error("length")]
    Length,
    /// A payload manifest lists another digest for the file. This is the first such algorithm.
    #[error("digest")]
    Digest(Alg),
    /// The store of the transfers has no answer, or memory ran out.
    #[error("keeper")]
    Keeper(KeepFault),
}

impl From<KeepFault> for DeliverFault {
    ghost use Rattle.std.specs.Prelude.{◌≡◌};
    ghost use Rattle.bag_receiver.specs.declared.answer.DeliverFault.TheVariants.{Keeper};

    ghost from_gives = { λ keep fault. fault ≡ Keeper keep };

    fn from(fault: KeepFault) -> DeliverFault {
        DeliverFault::Keeper(fault)
    }
}

impl From<PutFault> for DeliverFault {
    ghost use Rattle.std.specs.Prelude.{◌≡◌};
    ghost use Rattle.bag_receiver.specs.PutAnswers.{deliver_fault};

    ghost from_gives = { λ put fault. fault ≡ deliver_fault put };

    fn from(fault: PutFault) -> DeliverFault {
        match fault {
            PutFault::Reader => DeliverFault::Reader,
            PutFault::TooLarge => DeliverFault::TooLarge,
            PutFault::Length => DeliverFault::Length,
            PutFault::Digest(alg) => DeliverFault::Digest(alg),
            PutFault::Keep(fault) => DeliverFault::Keeper(fault),
        }
    }
}
