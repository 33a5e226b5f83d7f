//! Why a folder, or something in it, can't be used.
ghost use Rattle.std.specs.Prelude.{◌≡◌, IfOk, string_bytes};
ghost use Rattle.bag_folder.specs.Faults.{IfUnfit, TellsBelow, TellsPath, TellsSystem, no_name};
ghost use Rattle.bag_folder.specs.Folders.{told_name};
ghost use Rattle.bag_folder.specs.Unfits.{HasCause, IsCauseOf};

use crate::name_on_disk::spell;
use crate::root::Root;
use bag_path::PathFault;
use std::alloc::{AllocError, AllocFailed, Global};
use std::io::{self, ErrorKind};
use std::marker::Model;
use thiserror::Error;

/// Why something on disk can't be used.
#[derive(Clone, Copy, Debug, Error)]
pub enum Cause {
    /// The name of a folder is empty.
    #[error("the name is empty")]
    NoName,
    /// It is a symbolic link, wherever it leads.
    #[error("it is a symbolic link")]
    Link,
    /// It is a named pipe, a socket or a device.
    #[error("it is a named pipe, a socket or a device")]
    Special,
    /// It is a directory, and one of the names in it isn't UTF-8.
    #[error("a name in it is not UTF-8")]
    NotUtf8,
    /// It is a file whose path below the folder isn't one of a bag.
    #[error("{0}")]
    NoPath(PathFault),
    /// What the operating system answered, or would answer: for example that it doesn't exist, or isn't a directory.
    #[error("{0}")]
    System(io::Error),
}

impl Cause {
    /// The cause for an error of the operating system. A name that isn't UTF-8 has an error of the library's own.
    pub fn of(error: io::Error) -> Cause
        ensures { IsCauseOf error result }
    {
        match error.kind() {
            ErrorKind::InvalidFilename => match error.raw_os_error() {
                None => Cause::NotUtf8,
                Some(_) => Cause::System(error),
            },
            _ => Cause::System(error),
        }
    }
}

/// The result of a call of the operating system, with the cause of its error.
pub(crate) fn with_cause<A>(answer: io::Result<A>) -> Result<A, Option<Cause>>
    ensures { HasCause answer result }
{
    match answer {
        Ok(value) => Ok(value),
        Err(error) => Err(Some(Cause::of(error))),
    }
}

/// Something on disk that can't be used, and why.
#[derive(Debug, Drop, Error)]
#[error("{path}: {cause}")]
pub struct Unfit {
    /// Its name on disk: that of the folder as it was given, and for something below the folder a slash and its path
    /// there. The name of a directory below the folder ends in a slash if its entries couldn't be read.
    pub path: String,
    /// Why it can't be used.
    pub cause: Cause,
}

impl Model for Unfit {
    ghost use Rattle.std.specs.Prelude.{string_bytes};
    ghost use Rattle.bag_folder.specs.Unfits.{UnfitShown};

    ghost Value = { UnfitShown };

    ghost view = { λ unfit. record { path = string_bytes unfit.path; cause = unfit.cause } };
}

/// Why a folder wasn't opened or made.
#[derive(Debug, Drop, Error)]
pub enum OpenFault {
    /// The folder, or something below it, can't be used.
    #[error("{0}")]
    Files(Unfit),
    /// Memory ran out.
    #[error("out of memory")]
    Memory,
}

impl OpenFault {
    /// The name of the folder is empty.
    pub(crate) fn no_name(alloc: Global) -> OpenFault
        ensures { result ≡ no_name }
    {
        OpenFault::Files(Unfit {
            path: String::new(alloc),
            cause: Cause::NoName,
        })
    }

    /// The fault for an error of the operating system at this path.
    pub(crate) fn system(path: String, error: io::Error) -> OpenFault
        ensures { TellsSystem error (string_bytes path) result }
    {
        match error.kind() {
            ErrorKind::OutOfMemory => OpenFault::Memory,
            _ => OpenFault::Files(Unfit {
                path,
                cause: Cause::of(error),
            }),
        }
    }

    /// The fault for a path that isn't one of a bag.
    pub(crate) fn no_path(path: String, fault: PathFault) -> OpenFault
        ensures { TellsPath fault (string_bytes path) result }
    {
        match fault {
            PathFault::Memory => OpenFault::Memory,
            _ => OpenFault::Files(Unfit {
                path,
                cause: Cause::NoPath(fault),
            }),
        }
    }

    /// The same fault, told by the name on disk in place of a path in the bag that the folder belongs to.
    pub(crate) fn on_disk(self, alloc: Global, folder: &str, root: Root) -> OpenFault
        ensures { IfUnfit result (TellsBelow self folder.now root) }
    {
        match self {
            OpenFault::Files(unfit) => {
                match told_name(alloc, folder, root.path_below(unfit.path.as_str())) {
                    Ok(path) => OpenFault::Files(Unfit {
                        path,
                        cause: unfit.cause,
                    }),
                    Err(AllocError) => OpenFault::Memory,
                }
            }
            OpenFault::Memory => OpenFault::Memory,
        }
    }
}

/// The name on disk of what has this path below a folder: that of the folder itself, if the path is empty.
fn told_name(alloc: Global, folder: &str, path: &str) -> Result<String, AllocError>
    ensures { IfOk result (λ name. string_bytes name ≡ told_name folder.now path.now) }
{
    if path.is_empty() {
        return String::from_str(alloc, folder);
    }
    let mut name = String::new(alloc);
    spell(&mut name, folder, path)?;
    Ok(name)
}

impl From<AllocError> for OpenFault {
    ghost use Rattle.std.specs.Prelude.{◌≡◌};
    ghost use Rattle.bag_folder.specs.declared.fault.OpenFault.TheVariants.{Memory};

    ghost from_gives = { λ error fault. fault ≡ Memory };

    fn from(_: AllocError) -> OpenFault {
        OpenFault::Memory
    }
}

impl<T: Drop> From<AllocFailed<T>> for OpenFault {
    ghost use Rattle.std.specs.Prelude.{◌≡◌};
    ghost use Rattle.bag_folder.specs.declared.fault.OpenFault.TheVariants.{Memory};

    ghost from_gives = { λ error fault. fault ≡ Memory };

    fn from(_: AllocFailed<T>) -> OpenFault {
        OpenFault::Memory
    }
}
