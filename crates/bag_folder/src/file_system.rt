//! What stands under the names on a disk.
ghost use Rattle.std.specs.Prelude.{◌≡◌, Err, IfNone, IfOk, IfSome, MatchResult, None, Ok};
ghost use Rattle.bag_folder.specs.DiskNames.{Changes, HoldsNothing, MakesOne, MakesWay, Standing, behind, content, itself};

use crate::entry_kind::EntryKind;
use std::fs;
use std::io::{self, Read, Write};
use std::rt::Files;

/// What stands under names, and can be made there. Nothing is removed, and nothing that was there is written to.
///
/// What is known is said of names of which each stands for a thing of its own.
pub trait Names {
    ghost use Rattle.std.specs.Prelude.{Option};

    /// A file that was opened.
    type Reader: Read + Drop;

    /// A file that was made.
    type Writer: Write + Drop;

    /// What stands under each name, if that is known.
    ghost standing: { Self → Option Standing };

    /// The kind of what has this name. If that is a symbolic link, it isn't followed.
    fn kind(&self, name: &str) -> io::Result<EntryKind>
        ensures { IfSome (standing self.now) (λ known. result ≡ itself known name.now) };

    /// The kind of what this name leads to.
    fn kind_behind(&self, name: &str) -> io::Result<EntryKind>
        ensures { IfSome (standing self.now) (λ known. result ≡ behind known name.now) };

    /// Opens the file that this name leads to for reading. What it gives isn't known if it isn't known what stands there.
    fn open(&self, name: &str) -> io::Result<Self::Reader>
        ensures opens { IfSome (standing self.now) (λ known. MatchResult result
            (λ file. content known name.now ≡ Ok (Self.Reader.remaining file))
            (λ error. content known name.now ≡ Err error)) }
        ensures unknown { IfNone (standing self.now)
            (IfOk result (λ file. Self.Reader.remaining file ≡ None)) };

    /// Makes a folder. Nothing may have its name yet, but its parent must exist.
    fn make_folder(&mut self, name: &str) -> io::Result<()>
        ensures { Changes (MakesOne EntryKind.Directory name.now result)
            (standing self.old) (standing self.new) };

    /// Makes a folder, and the parents that it lacks, unless the name leads to a folder already.
    fn make_directories(&mut self, name: &str) -> io::Result<()>
        ensures { Changes (MakesWay name.now result) (standing self.old) (standing self.new) };

    /// Makes a file without content and opens it for writing. Nothing may have its name yet.
    fn make_file(&mut self, name: &str) -> io::Result<Self::Writer>
        ensures makes { Changes (MakesOne EntryKind.File name.now result)
            (standing self.old) (standing self.new) }
        ensures begins { IfOk result (λ file. IfSome (standing self.new)
            (λ _. HoldsNothing (Self.Writer.contents file))) };
}

/// A file of the file system. What it will give isn't known.
#[derive(Drop)]
pub struct UnknownFile<F>(F);

impl<F: Read> Read for UnknownFile<F> {
    ghost use Rattle.std.specs.Prelude.{None};

    ghost remaining = { λ _. None };

    fn read(&mut self, buf: &mut [u8]) -> io::Result<usize> {
        self.0.read(buf)
    }
}

/// The names of the file system. What stands there isn't known.
impl<R: Files> Names for R {
    ghost use Rattle.std.specs.Prelude.{None};

    type Reader = UnknownFile<R::File>;

    type Writer = R::File;

    ghost standing = { λ _. None };

    fn kind(&self, name: &str) -> io::Result<EntryKind> {
        Ok(EntryKind::of(fs::symlink_metadata(self, name)?.file_type()))
    }

    fn kind_behind(&self, name: &str) -> io::Result<EntryKind> {
        Ok(EntryKind::of(fs::metadata(self, name)?.file_type()))
    }

    fn open(&self, name: &str) -> io::Result<UnknownFile<R::File>> {
        Ok(UnknownFile(fs::File::open(self, name)?))
    }

    fn make_folder(&mut self, name: &str) -> io::Result<()> {
        fs::create_dir(self, name)
    }

    fn make_directories(&mut self, name: &str) -> io::Result<()> {
        fs::create_dir_all(self, name)
    }

    fn make_file(&mut self, name: &str) -> io::Result<R::File> {
        fs::File::create_new(self, name)
    }
}
