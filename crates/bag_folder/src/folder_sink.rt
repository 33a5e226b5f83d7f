//! A folder on disk that a bag is written to.
ghost use Rattle.std.specs.Prelude.{◌≡◌, ◌||◌, IfErr, IfOk, IfSome, IsErr, IsSomeAnd, MatchOption, MatchResult, None, OnErr, OnOk, Some, [], codes, false, is_ok, is_some, true, ◌++◌, ℕ, List, OnSome, string_bytes};
ghost use Rattle.std.specs.Option.{option_map};
ghost use Rattle.bag_folder.specs.Directories.{name_below};
ghost use Rattle.bag_folder.specs.Faults.{IfUnfit, no_name};
ghost use Rattle.bag_folder.specs.DiskNames.{Changes, HoldsNothing, IsDirectoryOf, IsFolderIn, IsMade, LeadsTo, MakesFile, MakesParents, MakesWay};
ghost use Rattle.bag_folder.specs.SinkFolders.{IsCreated};

use crate::entry_kind::EntryKind;
use crate::fault::{Cause, OpenFault, Unfit, with_cause};
use crate::file_system::Names;
use crate::folder_sink_file::{FolderSinkFile, closed};
use crate::name_on_disk::spell;
use crate::troubles::Troubles;
use bag_digest::Failed;
use bag_path::{BagPath, LONGEST_PATH};
use bag_rules::OpenTree;
use bag_writer::{OpenSink, Sink};
use std::alloc::{AllocError, Global};
use std::io::{self, Write};
use std::marker::Model;

/// A folder that files are written to, each at its path. Nothing is claimed about its content.
#[derive(Drop)]
pub struct FolderSink<R: Names> {
    rt: R,
    folder: String,
    // the name of the last file or directory made; its capacity is enough for all names
    name: String,
    // the name of the directory that the last file was made in; its capacity is enough for all names
    made: String,
    file: Option<R::Writer>,
    troubles: Troubles,
}

impl<R: Names> Model for FolderSink<R> {
    ghost use Rattle.std.specs.Prelude.{option_map, string_bytes};
    ghost use Rattle.bag_folder.specs.DiskNames.{IsFolderIn};
    ghost use Rattle.bag_folder.specs.SinkFolders.{SinkShown};

    ghost Value = { SinkShown };

    ghost view = { λ sink. record {
      standing = R.standing sink.rt;
      folder = string_bytes sink.folder;
      name = string_bytes sink.name;
      written = option_map R.Writer.contents sink.file;
      failures = sink.troubles.failures;
      trouble = sink.troubles.last;
    } };

    ghost invariant = { λ sink. IsFolderIn (R.standing sink.rt) (string_bytes sink.made) };
}

impl<R: Names + Drop> FolderSink<R> {
    /// Makes the folder. It must not exist yet, but its parent must.
    ///
    /// # Errors
    ///
    /// `Files` if the folder can't be made, for example because something with its name exists. `Memory` if memory runs
    /// out; no folder is made then.
    pub fn create(mut rt: R, alloc: Global, folder: &str) -> Result<FolderSink<R>, OpenFault>
        ensures no_name { folder.now ≡ [] → result ≡ Err no_name }
        ensures created { IfOk result (IsCreated folder.now) }
        ensures made { IfOk result (λ sink.
            Changes (IsMade EntryKind.Directory folder.now) (R.standing rt) sink.standing) }
        ensures refused { IfErr result (λ fault. IfUnfit fault (λ unfit.
            unfit.path ≡ folder.now)) }
    {
        if folder.is_empty() {
            return Err(OpenFault::no_name(alloc));
        }
        let longest = folder.len().saturating_add(1 + LONGEST_PATH);
        let name = String::with_capacity(alloc, longest)?;
        let made = String::with_capacity(alloc, longest)?;
        let troubles = Troubles::none(alloc, longest)?;
        let kept = String::from_str(alloc, folder)?;
        if let Err(error) = rt.make_folder(folder) {
            return Err(OpenFault::system(kept, error));
        }
        Ok(FolderSink {
            rt,
            folder: kept,
            name,
            made,
            file: None,
            troubles,
        })
    }

    /// What couldn't be used at the last failure: the file or directory that couldn't be made or written. `None` if
    /// nothing has failed, or if the last call failed for another reason.
    pub fn trouble(&self) -> Option<&Unfit>
        ensures { MatchOption result (self.now.trouble ≡ None)
            (λ unfit. self.now.trouble ≡ Some unfit.now) }
    {
        self.troubles.last()
    }

    /// Closes the folder, and gives what [`FolderSink::trouble`] gives.
    pub fn into_trouble(self) -> Option<Unfit>
        ensures { result ≡ self.trouble }
    {
        self.troubles.into_last()
    }
}

impl<R: Names> Sink for FolderSink<R> {
    ghost use Rattle.bag_writer.specs.Sinks.{IsFree, StaysOrIsLost, Stored, UsesSink};
    ghost use Rattle.bag_folder.specs.DiskNames.{HoldsNothing, MakesFile, MakesWay};
    ghost use Rattle.bag_folder.specs.SinkFolders.{EndsFile, MakesBelow, SinkShown, WritesFolder};

    ghost stored = { λ _. None };

    ghost is_open = { λ sink. is_some sink.written };

    ghost sure = { λ _. ⊥ };

    ghost failures = { λ sink. sink.failures };

    fn payload_dir(&mut self) -> Result<(), Failed>
        ensures open { is_some self.new.written ≡ is_some self.old.written }
        ensures uses { UsesSink (λ (sink : SinkShown). sink.failures) (λ (sink : SinkShown). ⊥)
            self.old self.new Unit (IsErr result) }
        ensures exactly { MakesBelow self.old self.new (codes "data") result }
        ensures makes { Changes (MakesWay (name_below self.old.folder (codes "data")) result)
            self.old.standing self.new.standing }
    {
        let answer = created_directory(&mut self.rt, &mut self.name, self.folder.as_str(), "data");
        self.troubles.counted(self.name.as_str(), answer)
    }

    /// Creates the file, which must not exist yet, and its parent directories. Allocates no memory.
    fn file(&mut self, path: &BagPath) -> Result<(), Failed>
        ensures free { OnOk result ((is_some self.old.written ≡ false)
            × IsFree None path.now) }
        ensures open { is_some self.new.written ≡ (is_ok result || is_some self.old.written) }
        ensures uses { UsesSink (λ (sink : SinkShown). sink.failures) (λ (sink : SinkShown). ⊥)
            self.old self.new ((is_some self.old.written ≡ false) × IsFree None path.now)
            (IsErr result) }
        ensures exactly { MakesBelow self.old self.new path.now result }
        ensures makes { Changes (MakesFile (name_below self.old.folder path.now) result)
            self.old.standing self.new.standing }
        ensures begins { OnOk result (IfSome self.new.standing
            (λ _. IsSomeAnd self.new.written HoldsNothing)) }
    {
        let answer = match self.file {
            Some(_) => Err(None),
            None => match created(
                &mut self.rt,
                &mut self.name,
                &mut self.made,
                self.folder.as_str(),
                path.as_str(),
            ) {
                Ok(file) => {
                    self.file = Some(file);
                    Ok(())
                }
                Err(cause) => Err(cause),
            },
        };
        self.troubles.counted(self.name.as_str(), answer)
    }

    /// Passes the octets to the operating system.
    fn write(&mut self, octets: &[u8]) -> Result<(), Failed>
        ensures closed { is_some self.old.written ≡ false → IsErr result }
        ensures open { is_some self.new.written ≡ is_some self.old.written }
        ensures uses { UsesSink (λ (sink : SinkShown). sink.failures) (λ (sink : SinkShown). ⊥)
            self.old self.new (is_some self.old.written ≡ true) (IsErr result) }
        ensures exactly { WritesFolder self.old self.new result octets.now }
    {
        let answer = match &mut self.file {
            Some(file) => with_cause(file.write_all(octets)),
            None => Err(None),
        };
        self.troubles.counted(self.name.as_str(), answer)
    }

    /// Closes the file, without waiting until its content is on the disk.
    fn end(&mut self) -> Result<(), Failed>
        ensures closed { is_some self.old.written ≡ false → IsErr result }
        ensures open { OnOk result (is_some self.new.written ≡ false) }
        ensures uses { UsesSink (λ (sink : SinkShown). sink.failures) (λ (sink : SinkShown). ⊥)
            self.old self.new (is_some self.old.written ≡ true) (IsErr result) }
        ensures exactly { EndsFile self.old self.new result }
    {
        let answer = closed(self.file.take());
        self.troubles.counted(self.name.as_str(), answer)
    }

    fn failures(&self) -> u64 {
        self.troubles.failures()
    }
}

impl<R: Names> OpenSink for FolderSink<R> {
    ghost use Rattle.std.specs.Prelude.{◌-◌};
    ghost use Rattle.bag_digest.specs.Failures.{CountsIf, IsRaised};
    ghost use Rattle.bag_folder.specs.SinkFiles.{BeginsBelow, EndsBegun, IsGivenBegun, LeavesFolder, trouble_in};

    type File = FolderSinkFile<R>;

    /// Creates the file, which must not exist yet, and its parent directories. Memory is needed for its name alone.
    fn begin_file(
        &mut self,
        alloc: Global,
        place: usize,
        path: &BagPath,
    ) -> Result<FolderSinkFile<R>, AllocError>
        ensures begun { IfOk result (IsGivenBegun self.old place path.now) }
        ensures counted { MatchResult result
            (λ file. IsRaised self.old.failures self.new.failures)
            (λ error. self.new.failures ≡ self.old.failures) }
        ensures rest { LeavesFolder self.old self.new }
        ensures exactly { MatchResult result
            (BeginsBelow self.old self.new path.now place)
            (λ error. self.new ≡ self.old) }
    {
        let mut name = String::with_capacity(alloc, self.name.capacity())?;
        self.troubles.raise()?;
        if self.file.is_some() {
            return Ok(FolderSinkFile::new(place, name, Err(None)));
        }
        let below = path.as_str();
        let folder = self.folder.as_str();
        let begun = created(&mut self.rt, &mut name, &mut self.made, folder, below);
        Ok(FolderSinkFile::new(place, name, begun))
    }

    /// Closes the file on the disk, without waiting until its content is there.
    fn end_file(&mut self, file: &mut FolderSinkFile<R>) -> Result<(), Failed>
        ensures counted { CountsIf (IsErr result) file.old.failures file.new.failures }
        ensures place { file.new.place ≡ file.old.place }
        ensures exactly { EndsBegun file.old file.new result }
        ensures same { self.new ≡ self.old }
    {
        match self.file {
            Some(_) => file.refuse(),
            None => file.end(),
        }
    }

    /// Closes the file. One that wasn't ended stays in the folder as far as it was written.
    fn close(&mut self, _file: FolderSinkFile<R>)
        ensures { self.new ≡ record self.old { failures = self.old.failures - 1 } }
    {
        self.troubles.lower();
    }

    /// Closes the file, and keeps its name and why it failed the last time as what couldn't be used. Allocates no
    /// memory.
    fn fail(&mut self, file: FolderSinkFile<R>)
        ensures { self.new ≡ record self.old { trouble = trouble_in file } }
    {
        self.troubles.tell(file.into_trouble());
    }

    /// Closes the file, and tells nothing of it. It stays in the folder as far as it was written.
    fn give_up(&mut self, _file: FolderSinkFile<R>, _first: &FolderSinkFile<R>)
        ensures { self.new ≡ record self.old { failures = self.old.failures - 1 } }
    {
        self.troubles.lower();
    }

    /// Does the same.
    fn give_up_unread<T: OpenTree>(&mut self, _file: FolderSinkFile<R>, _tree: &T, _first: &T::File)
        ensures { self.new ≡ record self.old { failures = self.old.failures - 1 } }
    {
        self.troubles.lower();
    }
}

/// Creates the file with this path in the folder and opens it for writing. It must not exist yet. The parent
/// directories are created too, unless `made` is already the file's directory; afterwards `made` is that directory.
/// `name` and `made` are overwritten, and grow only if their capacity isn't enough.
///
/// # Errors
///
/// The cause why the file with this name, or a directory that it is to be in, can't be made; none if memory ran out.
fn created<R: Names>(
    rt: &mut R,
    name: &mut String,
    made: &mut String,
    folder: &str,
    path: &str,
) -> Result<R::Writer, Option<Cause>>
    requires { IsFolderIn (R.standing rt.old) (string_bytes made.old) }
    ensures named { MatchResult result
        (λ _. string_bytes name.new ≡ name_below folder.now path.now)
        (λ cause. OnSome cause (string_bytes name.new ≡ name_below folder.now path.now)) }
    ensures made { IsFolderIn (R.standing rt.new) (string_bytes made.new) }
    ensures makes { Changes (MakesFile (name_below folder.now path.now) result)
        (R.standing rt.old) (R.standing rt.new) }
    ensures begins { IfOk result (λ file. IfSome (R.standing rt.new)
        (λ _. HoldsNothing (R.Writer.contents file))) }
{
    name.clear();
    if spell(name, folder, path).is_err() {
        return Err(None);
    }
    if let Err(error) = made_for(rt, made, name.as_str()) {
        return Err(Some(Cause::of(error)));
    }
    match rt.make_file(name.as_str()) {
        Ok(file) => Ok(file),
        Err(error) => Err(Some(Cause::of(error))),
    }
}

/// Creates the directory with this path in the folder, and its parents. `name` is overwritten, and grows only if its
/// capacity isn't enough.
///
/// # Errors
///
/// The cause why the directory with this name can't be made; none if memory ran out.
fn created_directory<R: Names>(
    rt: &mut R,
    name: &mut String,
    folder: &str,
    path: &str,
) -> Result<(), Option<Cause>>
    ensures named { MatchResult result
        (λ _. string_bytes name.new ≡ name_below folder.now path.now)
        (λ cause. OnSome cause (string_bytes name.new ≡ name_below folder.now path.now)) }
    ensures makes { Changes (MakesWay (name_below folder.now path.now) result)
        (R.standing rt.old) (R.standing rt.new) }
{
    name.clear();
    if spell(name, folder, path).is_err() {
        return Err(None);
    }
    with_cause(rt.make_directories(name.as_str()))
}

/// Creates the directory of the file with this name and its parents, unless `made` is that directory already.
fn made_for<R: Names>(rt: &mut R, made: &mut String, name: &str) -> io::Result<()>
    requires slash { (front : List ℕ) × LeadsTo front name.now }
    requires made { IsFolderIn (R.standing rt.old) (string_bytes made.old) }
    ensures made { IsFolderIn (R.standing rt.new) (string_bytes made.new) }
    ensures makes { Changes (MakesParents name.now result)
        (R.standing rt.old) (R.standing rt.new) }
{
    let directory = directory_of(name);
    if made.as_str() == directory {
        return Ok(());
    }
    rt.make_directories(directory)?;
    made.clear();
    made.push_str(directory)?;
    Ok(())
}

/// The directory that a name is in.
fn directory_of(name: &str) -> &str
    requires { (front : List ℕ) × LeadsTo front name.now }
    ensures { IsDirectoryOf result.now name.now }
{
    match name.rsplit_once('/') {
        Some((directory, _)) => directory,
        None => "",
    }
}
