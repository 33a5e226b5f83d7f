//! Files that were begun in a folder that a bag is written to.
ghost use Rattle.std.specs.Prelude.{◌≡◌, IsErr, IsOk, MatchResult, None, Some, string_bytes, false, is_some};
ghost use Rattle.bag_digest.specs.Failures.{one_more};
ghost use Rattle.bag_folder.specs.SinkFiles.{EndsBegun, WritesFile, trouble_in};

use crate::fault::{Cause, Unfit, with_cause};
use crate::file_system::Names;
use bag_digest::{Failed, Failures};
use bag_writer::SinkFile;
use std::io::Write;
use std::marker::Model;

/// A file that was begun in a folder, or one that couldn't be begun. Nothing is claimed about its content.
#[derive(Drop)]
pub struct FolderSinkFile<R: Names> {
    place: usize,
    name: String,
    begun: Option<R::Writer>,
    failures: Failures,
    // why it failed the last time, if that is told
    cause: Option<Cause>,
}

impl<R: Names> Model for FolderSinkFile<R> {
    ghost use Rattle.std.specs.Prelude.{option_map, string_bytes};
    ghost use Rattle.bag_folder.specs.SinkFiles.{SinkFileShown};

    ghost Value = { SinkFileShown };

    ghost view = { λ file. record {
      place = file.place;
      name = string_bytes file.name;
      written = option_map R.Writer.contents file.begun;
      failures = file.failures;
      cause = file.cause;
    } };
}

impl<R: Names> FolderSinkFile<R> {
    /// The file with this name, by what beginning it gave.
    pub(crate) fn new(
        place: usize,
        name: String,
        begun: Result<R::Writer, Option<Cause>>,
    ) -> FolderSinkFile<R>
        ensures { MatchResult begun
            (λ file. result ≡ record {
              place = place;
              name = string_bytes name;
              written = Some (R.Writer.contents file);
              failures = 0;
              cause = None;
            })
            (λ cause. result ≡ record {
              place = place;
              name = string_bytes name;
              written = None;
              failures = 1;
              cause = cause;
            }) }
    {
        let mut file = FolderSinkFile {
            place,
            name,
            begun: None,
            failures: Failures::none(),
            cause: None,
        };
        match begun {
            Ok(writer) => file.begun = Some(writer),
            Err(cause) => {
                let _ = file.counted(Err(cause));
            }
        }
        file
    }

    /// Closes the file without waiting until its content is on the disk.
    pub(crate) fn end(&mut self) -> Result<(), Failed>
        ensures { EndsBegun self.old self.new result }
    {
        let answer = closed(self.begun.take());
        self.counted(answer)
    }

    /// Counts that it can't be ended.
    pub(crate) fn refuse(&mut self) -> Result<(), Failed>
        ensures { IsErr result × EndsBegun self.old self.new result }
    {
        self.counted(Err(None))
    }

    /// Closes the file, and gives what couldn't be used: its name, and why it failed the last time. `None` if it hasn't
    /// failed, or for another reason.
    pub(crate) fn into_trouble(self) -> Option<Unfit>
        ensures { result ≡ trouble_in self }
    {
        match self.cause {
            Some(cause) => Some(Unfit {
                path: self.name,
                cause,
            }),
            None => None,
        }
    }

    /// Counts the result of a call on it if it is an error, and keeps the cause.
    fn counted(&mut self, answer: Result<(), Option<Cause>>) -> Result<(), Failed>
        ensures answer { MatchResult answer (λ _. IsOk result) (λ _. IsErr result) }
        ensures counted { MatchResult answer (λ _. self.new ≡ self.old)
            (λ cause. self.new ≡ record self.old {
              failures = one_more self.old.failures;
              cause = cause;
            }) }
    {
        match answer {
            Ok(()) => Ok(()),
            Err(cause) => {
                self.cause = cause;
                self.failures.counted(Err(Failed))
            }
        }
    }
}

impl<R: Names> SinkFile for FolderSinkFile<R> {
    ghost use Rattle.std.specs.Prelude.{IsErr};
    ghost use Rattle.bag_digest.specs.Failures.{CountsIf};

    ghost place = { λ file. file.place };

    ghost holds = { λ _ _ _. Unit {0} };

    ghost failures = { λ file. file.failures };

    ghost sure = { λ _. ⊥ };

    /// Passes the octets to the operating system.
    fn write(&mut self, octets: &[u8]) -> Result<(), Failed>
        ensures place { self.new.place ≡ self.old.place }
        ensures counted { CountsIf (IsErr result) self.old.failures self.new.failures }
        ensures exactly { WritesFile self.old self.new result octets.now }
    {
        let answer = match &mut self.begun {
            Some(file) => with_cause(file.write_all(octets)),
            None => Err(None),
        };
        self.counted(answer)
    }

    fn failures(&self) -> u64 {
        self.failures.count()
    }
}

/// Closes a file, without waiting until its content is on the disk.
///
/// # Errors
///
/// The cause why it can't be closed; none if no file is open.
pub(crate) fn closed<W: Write + Drop>(file: Option<W>) -> Result<(), Option<Cause>>
    ensures { is_some file ≡ false → IsErr result }
{
    match file {
        Some(mut file) => with_cause(file.flush()),
        None => Err(None),
    }
}
