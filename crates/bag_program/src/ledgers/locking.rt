//! Opens and locks the two files of a ledger, or says why that is barred.
ghost use Rattle.std.specs.Prelude.{◌≡◌, IfOk};
ghost use Rattle.bag_program.specs.LedgerFiles.{AreOpenOn};
ghost use Rattle.sqlite_wal.specs.Files.{image_at};

use crate::ledgers::found_ledger::Seen;
use crate::ledgers::ledger_cause::LedgerCause;
use sqlite::{FileFrom, Files, Start};
use sqlite_disk::Disk;
use sqlite_std_file::OpenError;
use std::alloc::AllocError;
use std::io::{self, ErrorKind};
use std::marker::PhantomData;

/// Why the file of a ledger couldn't be opened and locked.
#[derive(Clone, Copy, Debug)]
pub enum Barred {
    /// Memory ran out.
    Memory,
    /// This is why.
    For(LedgerCause),
}

impl From<io::Error> for Barred {
    ghost use Rattle.bag_program.specs.Unopened.{TellsSystem};

    ghost from_gives = { λ error why. TellsSystem error why };

    fn from(error: io::Error) -> Barred {
        match error.kind() {
            ErrorKind::OutOfMemory => Barred::Memory,
            _ => Barred::For(LedgerCause::System(error)),
        }
    }
}

impl From<AllocError> for Barred {
    ghost use Rattle.std.specs.Prelude.{◌≡◌};
    ghost use Rattle.bag_program.specs.declared.ledgers.locking.Barred.TheVariants.{Memory};

    ghost from_gives = { λ _ why. why ≡ Memory };

    fn from(_: AllocError) -> Barred {
        Barred::Memory
    }
}

impl From<OpenError> for Barred {
    ghost use Rattle.bag_program.specs.Unopened.{TellsOpening};

    ghost from_gives = { λ error why. TellsOpening error why };

    fn from(error: OpenError) -> Barred {
        match error {
            // The kit opens only a regular file that has a single name.
            OpenError::Io(error) if error.kind() == ErrorKind::Unsupported => {
                Barred::For(LedgerCause::NotPlain)
            }
            OpenError::Io(error) => Barred::from(error),
            OpenError::OutOfMemory => Barred::Memory,
            OpenError::Busy => Barred::For(LedgerCause::Busy),
            OpenError::HotJournal => Barred::For(LedgerCause::Journal),
        }
    }
}

/// Why the file of a ledger and its log couldn't be opened and locked. What was said of them is used up, so that
/// nothing is opened afterwards: only [`open_locked`] makes one of these.
#[derive(Drop)]
pub struct NotLocked<S> {
    why: Barred,
    start: PhantomData<S>,
}

impl<S> NotLocked<S> {
    /// Why they couldn't be opened.
    pub fn why(&self) -> Barred
        ensures { result ≡ self.now.why }
    {
        self.why
    }
}

/// Opens the file that was seen and its log, or makes them, and locks both until they are closed.
pub fn open_locked<S: Start>(
    rt: &HostRuntime,
    seen: &Seen,
    start: S,
) -> Result<Files<FileFrom<S>>, NotLocked<S>>
    ensures { IfOk result (AreOpenOn ⟦<FileFrom<S> as Disk>⟧ (image_at S.Start)) }
{
    match sqlite_std_file::open(rt, seen.name(), start) {
        Ok(files) => Ok(files),
        Err(error) => Err(NotLocked {
            why: Barred::from(error),
            start: PhantomData,
        }),
    }
}
