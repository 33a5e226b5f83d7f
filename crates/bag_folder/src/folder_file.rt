//! Open files of a folder.
ghost use Rattle.std.specs.Prelude.{◌≡◌, ◌≤◌, IfErr, IfOk, IsErr, None, length, string_bytes};
ghost use Rattle.bag_folder.specs.Directories.{name_below};
ghost use Rattle.bag_folder.specs.OpenFiles.{IsFileAt, ReadsOpened, left_in, trouble_of};

use crate::fault::{Cause, Unfit};
use crate::file_system::Names;
use crate::name_on_disk::opened;
use bag_digest::{Failed, Failures, Source};
use bag_rules::OpenFile;
use std::alloc::AllocError;
use std::io::Read;
use std::marker::Model;

/// An open file of a folder, or one that couldn't be opened. Its content is known if it is known what stands under names.
#[derive(Drop)]
pub struct FolderFile<R: Names> {
    place: usize,
    name: String,
    opened: Result<R::Reader, Cause>,
    failures: Failures,
    // why it failed the last time
    cause: Option<Cause>,
}

impl<R: Names> Model for FolderFile<R> {
    ghost use Rattle.std.specs.Prelude.{string_bytes};
    ghost use Rattle.bag_folder.specs.OpenFiles.{FileShown, left_in};

    ghost Value = { FileShown };

    ghost view = { λ file. record {
      place = file.place;
      name = string_bytes file.name;
      opened = left_in R.Reader.remaining file.opened;
      failures = file.failures;
      cause = file.cause;
    } };
}

impl<R: Names> FolderFile<R> {
    /// Opens the file with this path in the folder. `name` is overwritten with its name on disk, and grows only if its
    /// capacity isn't enough.
    ///
    /// # Errors
    ///
    /// `AllocError` if memory runs out. If the file can't be opened, that is told by its first read.
    pub(crate) fn open(
        rt: &R,
        mut name: String,
        folder: &str,
        path: &str,
        place: usize,
    ) -> Result<FolderFile<R>, AllocError>
        ensures { IfOk result
            (IsFileAt (R.standing rt.now) (name_below folder.now path.now) place) }
    {
        match opened(rt, &mut name, folder, path) {
            Ok(file) => Ok(FolderFile::new(place, name, Ok(file))),
            Err(Some(cause)) => Ok(FolderFile::new(place, name, Err(cause))),
            Err(None) => Err(AllocError),
        }
    }

    /// The file with this name, by what opening it gave.
    fn new(place: usize, name: String, opened: Result<R::Reader, Cause>) -> FolderFile<R>
        ensures { result ≡ record {
          place = place;
          name = string_bytes name;
          opened = left_in R.Reader.remaining opened;
          failures = 0;
          cause = None;
        } }
    {
        FolderFile {
            place,
            name,
            opened,
            failures: Failures::none(),
            cause: None,
        }
    }

    /// Closes the file, and gives what couldn't be used: its name, and why it failed the last time. `None` if it hasn't
    /// failed.
    pub(crate) fn into_trouble(self) -> Option<Unfit>
        ensures { result ≡ trouble_of self }
    {
        match self.cause {
            Some(cause) => Some(Unfit {
                path: self.name,
                cause,
            }),
            None => None,
        }
    }
}

impl<R: Names> Source for FolderFile<R> {
    ghost use Rattle.std.specs.Io.KnownBytes.{ReadConsumes};
    ghost use Rattle.std.specs.Prelude.{is_ok, refl};
    ghost use Rattle.std.proofs.Common.{◌∙◌};
    ghost use Rattle.bag_digest.specs.Failures.{UsesSource};
    ghost use Rattle.bag_folder.specs.DiskNames.{octets_of};
    ghost use Rattle.bag_folder.specs.OpenFiles.{FileShown, ReadsFile, SamePlace};

    ghost remaining = { λ file. octets_of file.opened };

    ghost failures = { λ file. file.failures };

    ghost ready = { λ _. ⊥ };

    ghost is_open = { λ file. is_ok file.opened };

    ghost keeps = { SamePlace };

    /// Reads from the file. Fails if it couldn't be opened.
    fn read(&mut self, buf: &mut [u8]) -> Result<usize, Failed>
        ensures bound { IfOk result (λ n. n ≤ length buf.new) }
        ensures octets { ReadConsumes (octets_of self.old.opened) (octets_of self.new.opened)
            result buf.new }
        ensures uses { UsesSource (λ (file : FileShown). file.failures)
            (λ (file : FileShown). ⊥) SamePlace self.old self.new (IsErr result) }
        ensures exactly { ReadsFile self.old self.new result buf.new }
    {
        match read_opened(&mut self.opened, buf) {
            Ok(n) => Ok(n),
            Err(cause) => {
                self.cause = Some(cause);
                self.failures.counted(Err(cause))
            }
        }
    }

    fn failures(&self) -> u64 {
        self.failures.count()
    }

    ghost keeps_itself = { λ a. refl };

    ghost keeps_on = { λ a b c p q. q ∙ p };
}

impl<R: Names> OpenFile for FolderFile<R> {
    ghost place = { λ file. file.place };

    fn place(&self) -> usize {
        self.place
    }

    ghost reads_keep_place = { λ a b same. same };
}

/// Reads from what was opened, without a call of the system if no octet is asked for. If it couldn't be opened, the
/// read fails for the same cause.
fn read_opened<F: Read>(opened: &mut Result<F, Cause>, buf: &mut [u8]) -> Result<usize, Cause>
    ensures bound { IfOk result (λ n. n ≤ length buf.new) }
    ensures reads { ReadsOpened (left_in F.remaining opened.old) (left_in F.remaining opened.new)
        result buf.new }
    ensures cause { IfErr result (λ cause. IfErr opened.old (λ why. cause ≡ why)) }
{
    match opened {
        Ok(_) if buf.is_empty() => Ok(0),
        Ok(file) => match file.read(buf) {
            Ok(n) => Ok(n),
            Err(error) => Err(Cause::of(error)),
        },
        Err(cause) => Err(*cause),
    }
}
