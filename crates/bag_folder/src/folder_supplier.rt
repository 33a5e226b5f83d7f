//! A folder on disk as a supplier of payload files.
ghost use Rattle.std.specs.Prelude.{◌≡◌, ◌≢◌, ◌≤◌, [], Err, IfErr, IfOk, IfSome, IsErr, MatchOption, MatchResult, None, Ok, OnSome, Some, is_some, length, string_bytes, take, true};
ghost use Rattle.bag_folder.specs.Directories.{name_below};
ghost use Rattle.bag_folder.specs.Faults.{IfUnfit, no_name};
ghost use Rattle.bag_folder.specs.DiskNames.{LeadsTo, behind, itself};
ghost use Rattle.bag_folder.specs.Supplying.{Finds, IsBarred, IsNameTo, IsNoFolder, IsReadyFolder, LooksUp, Meets, Says};
ghost use Rattle.bag_folder.specs.Unfits.{IsCauseOf, IsToldAt};

use crate::entry_kind::EntryKind;
use crate::fault::{Cause, OpenFault, Unfit, with_cause};
use crate::file_system::Names;
use crate::name_on_disk::{opened, spell};
use crate::troubles::Troubles;
use bag_digest::{Failed, Source};
use bag_path::LONGEST_PATH;
use bag_receiver::Supplier;
use std::alloc::Global;
use std::io::{self, ErrorKind, Read};
use std::marker::Model;

/// Supplies the files below a folder by their paths, whatever their urls. What it has is known if it is known what stands
/// under names.
#[derive(Drop)]
pub struct FolderSupplier<R: Names> {
    rt: R,
    folder: String,
    // the name of the last file looked up; its capacity is enough for all names
    name: String,
    file: Option<R::Reader>,
    troubles: Troubles,
    asks: u64,
}

impl<R: Names> Model for FolderSupplier<R> {
    ghost use Rattle.std.specs.Prelude.{option_map, string_bytes};
    ghost use Rattle.bag_folder.specs.Supplying.{SupplierShown};

    ghost Value = { SupplierShown };

    ghost view = { λ supplier. record {
      standing = R.standing supplier.rt;
      folder = string_bytes supplier.folder;
      name = string_bytes supplier.name;
      to_read = option_map R.Reader.remaining supplier.file;
      failures = supplier.troubles.failures;
      trouble = supplier.troubles.last;
      asks = supplier.asks;
    } };
}

impl<R: Names + Drop> FolderSupplier<R> {
    /// A supplier of the files below this folder, which may be given as a symbolic link. Nothing below the folder is
    /// read.
    ///
    /// # Errors
    ///
    /// `Files` if it doesn't exist or isn't a folder. `Memory` if memory runs out.
    pub fn open(rt: R, alloc: Global, folder: &str) -> Result<FolderSupplier<R>, OpenFault>
        ensures no_name { folder.now ≡ [] → result ≡ Err no_name }
        ensures opened { IfOk result (IsReadyFolder folder.now) }
        ensures stands { IfOk result (λ supplier. (supplier.standing ≡ R.standing rt)
            × IfSome supplier.standing (λ known.
            behind known folder.now ≡ Ok EntryKind.Directory)) }
        ensures refused { IfErr result (λ fault. IfUnfit fault (λ unfit.
            unfit.path ≡ folder.now)) }
        ensures because { folder.now ≢ [] → IfSome (R.standing rt) (λ known.
            IfErr result (λ fault. IfUnfit fault (λ unfit. (error : _)
            × IsNoFolder (behind known folder.now) error × IsCauseOf error unfit.cause))) }
    {
        if folder.is_empty() {
            return Err(OpenFault::no_name(alloc));
        }
        let kept = String::from_str(alloc, folder)?;
        if let Err(error) = standing_as_folder(&rt, folder) {
            return Err(OpenFault::system(kept, error));
        }
        let longest = folder.len().saturating_add(1 + LONGEST_PATH);
        let name = String::with_capacity(alloc, longest)?;
        let troubles = Troubles::none(alloc, longest)?;
        Ok(FolderSupplier {
            rt,
            folder: kept,
            name,
            file: None,
            troubles,
            asks: 0,
        })
    }

    /// What couldn't be used at the last failure: what stood in place of the file or of a directory that it is to be
    /// in, or the file that couldn't be opened or read. `None` if nothing has failed, or if the last call failed for
    /// another reason.
    pub fn trouble(&self) -> Option<&Unfit>
        ensures { MatchOption result (self.now.trouble ≡ None)
            (λ unfit. self.now.trouble ≡ Some unfit.now) }
    {
        self.troubles.last()
    }

    /// Opens the file with this path, if there is one.
    fn seek(&mut self, path: &str) -> Result<bool, Option<Cause>>
        requires { self.old.to_read ≡ None }
        ensures opened { is_some self.new.to_read ≡ true → (result ≡ Ok true)
            × (self.new.name ≡ name_below self.old.folder path.now) }
        ensures found { result ≡ Ok true → is_some self.new.to_read ≡ true }
        ensures failed { IfErr result (λ cause. OnSome cause
            (IsNameTo self.old.folder path.now self.new.name)) }
        ensures same { self.new
            ≡ record self.old { name = self.new.name; to_read = self.new.to_read } }
        ensures answers { IfSome self.old.standing (λ known. MatchResult result
            (Says known self.old.folder path.now self.new.name self.new.to_read)
            (λ cause. IfSome cause
            (IsBarred known self.old.folder path.now self.new.name))) }
    {
        match standing_below(&self.rt, &mut self.name, self.folder.as_str(), path)? {
            None => Ok(false),
            Some(EntryKind::File) => {
                self.file = Some(opened(&self.rt, &mut self.name, self.folder.as_str(), path)?);
                Ok(true)
            }
            Some(EntryKind::Directory) => {
                let error = io::Error::from(ErrorKind::IsADirectory);
                Err(Some(Cause::System(error)))
            }
            Some(EntryKind::Link) => Err(Some(Cause::Link)),
            Some(EntryKind::Special) => Err(Some(Cause::Special)),
        }
    }
}

impl<R: Names> Source for FolderSupplier<R> {
    ghost use Rattle.std.specs.Io.KnownBytes.{ReadConsumes};
    ghost use Rattle.bag_digest.specs.Failures.{UsesSource};
    ghost use Rattle.bag_folder.specs.Folders.{ReadsOpen, left_open};
    ghost use Rattle.bag_folder.specs.Supplying.{SameSupplier, SupplierShown, supplier_itself, supplier_on};

    ghost remaining = { λ supplier. left_open supplier.to_read };

    ghost failures = { λ supplier. supplier.failures };

    ghost ready = { λ _. ⊥ };

    ghost is_open = { λ supplier. is_some supplier.to_read };

    ghost keeps = { SameSupplier };

    /// Reads from the open file. Fails if no file is open.
    fn read(&mut self, buf: &mut [u8]) -> Result<usize, Failed>
        ensures bound { IfOk result (λ n. n ≤ length buf.new) }
        ensures octets { ReadConsumes (left_open self.old.to_read) (left_open self.new.to_read)
            result buf.new }
        ensures uses { UsesSource (λ (supplier : SupplierShown). supplier.failures)
            (λ (supplier : SupplierShown). ⊥) SameSupplier self.old self.new (IsErr result) }
        ensures reads_on { ReadsOpen self.old.to_read self.new.to_read result buf.new }
        ensures same { self.new ≡ record self.old {
          to_read = self.new.to_read;
          failures = self.new.failures;
          trouble = self.new.trouble;
        } × (IsErr result → IsToldAt self.old.name self.new.trouble) }
    {
        let answer = match &mut self.file {
            Some(file) => with_cause(file.read(buf)),
            None => Err(None),
        };
        self.troubles.counted(self.name.as_str(), answer)
    }

    fn failures(&self) -> u64 {
        self.troubles.failures()
    }

    ghost keeps_itself = { supplier_itself };

    ghost keeps_on = { supplier_on };
}

impl<R: Names + Drop> Supplier for FolderSupplier<R> {
    ghost use Rattle.std.specs.Prelude.{Ok, true};
    ghost use Rattle.bag_digest.specs.Failures.{CountsFailure, one_more};
    ghost use Rattle.bag_receiver.specs.Suppliers.{IsSupplied};
    ghost use Rattle.bag_folder.specs.Folders.{left_open};
    ghost use Rattle.bag_folder.specs.Supplying.{AsksFolder, keeps_supply, supply_of};

    ghost supply = { supply_of };

    ghost asks = { λ supplier. supplier.asks };

    /// Opens the file with this path below the folder, whatever its url. Returns `false` if nothing has this path, also
    /// if a parent of the path is a file. Allocates no memory.
    ///
    /// # Errors
    ///
    /// The path is something other than a regular file, a parent of the path is something other than a directory, such
    /// as a symbolic link, or the file can't be opened. Below the folder no symbolic link is followed and no named pipe
    /// is opened.
    fn ask(&mut self, _url: &str, path: &str) -> Result<bool, Failed>
        ensures supplied { IfOk result (λ has. IsSupplied (supply_of self.old) _url.now path.now has
            (left_open self.new.to_read)) }
        ensures same { supply_of self.new ≡ supply_of self.old }
        ensures open { is_some self.new.to_read ≡ true → result ≡ Ok true }
        ensures counted { CountsFailure result self.old.failures self.new.failures }
        ensures asked { self.new.asks ≡ one_more self.old.asks }
        ensures exactly { AsksFolder self.old self.new path.now result }
    {
        self.file = None;
        self.asks = self.asks.saturating_add(1);
        let answer = self.seek(path);
        self.troubles.counted(self.name.as_str(), answer)
    }

    fn asks(&self) -> u64 {
        self.asks
    }

    ghost keeps_supply = { keeps_supply };
}

/// Fails if this name doesn't refer to a folder.
fn standing_as_folder<R: Names>(rt: &R, folder: &str) -> io::Result<()>
    ensures { IfSome (R.standing rt.now) (λ known. MatchResult result
        (λ _. behind known folder.now ≡ Ok EntryKind.Directory)
        (IsNoFolder (behind known folder.now))) }
{
    match rt.kind_behind(folder)? {
        EntryKind::Directory => Ok(()),
        _ => Err(io::Error::from(ErrorKind::NotADirectory)),
    }
}

/// What stands at this path below the folder, without following symbolic links. `None` also if a parent is a file.
/// `name` is overwritten with the name that was looked up last.
///
/// # Errors
///
/// The cause why it isn't known what stands there; none if memory ran out.
fn standing_below<R: Names>(
    rt: &R,
    name: &mut String,
    folder: &str,
    path: &str,
) -> Result<Option<EntryKind>, Option<Cause>>
    ensures named { LooksUp folder.now path.now (string_bytes name.new) result }
    ensures stands { IfSome (R.standing rt.now) (λ known.
        Meets known folder.now path.now (string_bytes name.new) result) }
{
    for end in 0..path.len() {
        if let Some(front) = directory_to(path, end) {
            match standing_at(rt, name, folder, front)? {
                None => return Ok(None),
                Some(EntryKind::File) => return Ok(None),
                Some(EntryKind::Directory) => {}
                Some(EntryKind::Link) => return Ok(Some(EntryKind::Link)),
                Some(EntryKind::Special) => return Ok(Some(EntryKind::Special)),
            }
        }
    }
    standing_at(rt, name, folder, path)
}

/// The directory on the way to this path whose path has this length, if there is one.
fn directory_to(path: &str, length: usize) -> Option<&str>
    ensures { MatchOption result (¬ LeadsTo (take length path.now) path.now)
        (λ front. (front.now ≡ take length path.now) × LeadsTo front.now path.now) }
{
    let (front, rest) = path.split_at_checked(length)?;
    match rest.strip_prefix('/') {
        Some(_) => Some(front),
        None => None,
    }
}

/// What stands at this path below the folder, if all its parents are directories.
fn standing_at<R: Names>(
    rt: &R,
    name: &mut String,
    folder: &str,
    path: &str,
) -> Result<Option<EntryKind>, Option<Cause>>
    ensures named { MatchResult result
        (λ _. string_bytes name.new ≡ name_below folder.now path.now)
        (λ cause. OnSome cause (string_bytes name.new ≡ name_below folder.now path.now)) }
    ensures stands { IfSome (R.standing rt.now) (λ known.
        Finds (itself known (name_below folder.now path.now)) result) }
{
    name.clear();
    if spell(name, folder, path).is_err() {
        return Err(None);
    }
    match rt.kind(name.as_str()) {
        Ok(kind) => Ok(Some(kind)),
        Err(error) if error.kind() == ErrorKind::NotFound => Ok(None),
        Err(error) => Err(Some(Cause::of(error))),
    }
}
