//! A folder on disk, as a tree of files.
ghost use Rattle.std.specs.Prelude.{◌≡◌, ◌-◌, ◌↔◌, ◌||◌, ℕ, List, Contains, [], None, string_bytes, ◌<◌, ◌≤◌, IfErr, IfOk, IsErr, MatchOption, OnOk, Some, is_ok, is_some, length};
ghost use Rattle.std.specs.List.{list_any};
ghost use Rattle.bag_path.specs.Paths.{is_payload};
ghost use Rattle.bag_rules.specs.Trees.{octets_in, paths_in};
ghost use Rattle.bag_folder.specs.Faults.{IfUnfit, no_name};
ghost use Rattle.bag_folder.specs.Folders.{IsListing, IsOpened, IsRefused, disk_in_payload, disk_of, left_open, octets_below, shown_by};
ghost use Rattle.bag_folder.specs.OpenFiles.{OpensFile};

use crate::entries::Directories;
use crate::fault::{OpenFault, Unfit, with_cause};
use crate::file_system::Names;
use crate::folder_file::FolderFile;
use crate::in_payload::InPayload;
use crate::name_on_disk::opened;
use crate::root::Root;
use crate::troubles::Troubles;
use crate::walk::{Below, in_order, walk};
use bag_digest::{Failed, Source};
use bag_path::{BagPath, LONGEST_PATH};
use bag_rules::{OpenTree, Paths, Tree};
use bag_writer::{CopiedTree, SinkFile};
use std::alloc::{AllocError, Global};
use std::io::Read;
use std::marker::Model;

/// The files below a folder, by their paths in the folder. Their content is known if it is known what stands under names.
#[derive(Drop)]
pub struct FolderTree<R: Names> {
    rt: R,
    folder: String,
    root: Root,
    // the name of the last file looked up; its capacity is enough for all names
    name: String,
    paths: Vec<BagPath>,
    has_dir: bool,
    file: Option<R::Reader>,
    troubles: Troubles,
}

impl<R: Names> Model for FolderTree<R> {
    ghost use Rattle.std.specs.Prelude.{option_map, string_bytes};
    ghost use Rattle.bag_folder.specs.Folders.{FolderShown, IsListing, octets_below, shown_by};

    ghost Value = { FolderShown };

    ghost view = { λ tree. record {
      standing = R.standing tree.rt;
      shown = shown_by (octets_below (R.standing tree.rt) (string_bytes tree.folder) tree.root)
          tree.paths.items tree.has_dir;
      folder = string_bytes tree.folder;
      root = tree.root;
      name = string_bytes tree.name;
      to_read = option_map R.Reader.remaining tree.file;
      failures = tree.troubles.failures;
      trouble = tree.troubles.last;
    } };

    ghost invariant = { λ tree. IsListing tree.paths.items tree.has_dir };
}

impl<R: Names + Drop> FolderTree<R> {
    /// Reads the whole folder, and lists every file in it or below it under its path in the folder.
    ///
    /// The name of the folder may end in a slash, and it may be a symbolic link to a folder; below it no symbolic link
    /// is followed. Empty directories are ignored, except `data/`, which is a payload directory without files (RFC 8493
    /// section 2.1.2).
    ///
    /// # Errors
    ///
    /// `Files` if the folder doesn't exist, isn't a folder or can't be read; or if something in it or below it is
    /// neither a regular file nor a directory (a symbolic link, a named pipe, a socket, a device), has a name that
    /// isn't UTF-8, or has a path that [`BagPath::parse`] refuses (longer than 4,096 octets; a regular file named
    /// `data` in the folder itself). It tells the first such thing that was met. `Memory` if memory runs out. No file
    /// is opened.
    pub fn open<D: Directories>(
        rt: R,
        disk: &D,
        alloc: Global,
        folder: &str,
    ) -> Result<FolderTree<R>, OpenFault>
        ensures no_name { folder.now ≡ [] → result ≡ Err no_name }
        ensures opened { IfOk result
            (IsOpened (disk_of (D.listing disk.now) (R.standing rt)) folder.now Root.Base) }
        ensures refused { IfErr result (λ fault. IfUnfit fault
            (IsRefused (disk_of (D.listing disk.now) (R.standing rt)) folder.now Root.Base)) }
    {
        FolderTree::open_at(rt, disk, alloc, folder, Root::Base)
    }

    /// Does the same, with the files in the payload directory: each has the path `data/` followed by its path in the
    /// folder. So a regular file named `data` in the folder is the payload file `data/data`. The payload directory
    /// always exists.
    ///
    /// # Errors
    ///
    /// Those of [`FolderTree::open`], except that the folder may contain a regular file named `data`, and that a path
    /// in the folder is limited to 4,091 octets. The names that they tell are those on disk, without `data/`.
    pub fn open_payload<D: Directories>(
        rt: R,
        disk: &D,
        alloc: Global,
        folder: &str,
    ) -> Result<FolderTree<R>, OpenFault>
        ensures no_name { folder.now ≡ [] → result ≡ Err no_name }
        ensures opened { let known = disk_of (D.listing disk.now) (R.standing rt) in
            IfOk result (IsOpened (disk_in_payload known folder.now) folder.now Root.Payload) }
        ensures refused { let known = disk_of (D.listing disk.now) (R.standing rt) in
            IfErr result (λ fault. IfUnfit fault
            (IsRefused (disk_in_payload known folder.now) folder.now Root.Payload)) }
    {
        let inside = InPayload { disk, folder };
        FolderTree::open_at(rt, &inside, alloc, folder, Root::Payload)
    }

    /// What couldn't be used at the last failure: the file that couldn't be started or read. `None` if nothing has
    /// failed, or if the last call failed for another reason.
    pub fn trouble(&self) -> Option<&Unfit>
        ensures { MatchOption result (self.now.trouble ≡ None)
            (λ unfit. self.now.trouble ≡ Some unfit.now) }
    {
        self.troubles.last()
    }

    /// Whether some file has its path in the payload directory.
    pub fn has_payload(&self) -> bool
        ensures { result ≡ list_any is_payload (paths_in self.now.shown) }
    {
        has_payload(&self.paths)
    }

    /// Closes the folder, and gives what [`FolderTree::trouble`] gives.
    pub fn into_trouble(self) -> Option<Unfit>
        ensures { result ≡ self.trouble }
    {
        self.troubles.into_last()
    }

    /// Closes the folder, and gives its name.
    pub fn into_folder(self) -> String
        ensures { string_bytes result ≡ self.folder }
    {
        self.folder
    }

    /// Closes the folder, and gives the name of the last file looked up.
    pub fn into_name(self) -> String
        ensures { string_bytes result ≡ self.name }
    {
        self.name
    }

    /// The tree of the files below the folder that these directories list.
    fn open_at<D: Directories>(
        rt: R,
        disk: &D,
        alloc: Global,
        folder: &str,
        root: Root,
    ) -> Result<FolderTree<R>, OpenFault>
        ensures no_name { folder.now ≡ [] → result ≡ Err no_name }
        ensures opened { IfOk result
            (IsOpened (disk_of (D.listing disk.now) (R.standing rt)) folder.now root) }
        ensures refused { IfErr result (λ fault. IfUnfit fault
            (IsRefused (disk_of (D.listing disk.now) (R.standing rt)) folder.now root)) }
    {
        if folder.is_empty() {
            return Err(OpenFault::no_name(alloc));
        }
        let below = match walk(disk, alloc, folder) {
            Ok(below) => below,
            Err(fault) => return Err(fault.on_disk(alloc, folder, root)),
        };
        let folder = String::from_str(alloc, folder)?;
        let longest = folder.len().saturating_add(1 + LONGEST_PATH);
        let name = String::with_capacity(alloc, longest)?;
        let troubles = Troubles::none(alloc, longest)?;
        Ok(tree_of(rt, folder, root, name, troubles, below))
    }
}

/// The tree of what was found below this folder.
fn tree_of<R: Names + Drop>(
    rt: R,
    folder: String,
    root: Root,
    name: String,
    troubles: Troubles,
    below: Below,
) -> FolderTree<R>
    ensures paths { (path : List ℕ)
        → Contains (paths_in result.shown) path ↔ Contains below.paths.items path }
    ensures payload { result.shown.has_payload_dir
        ≡ (below.has_dir || list_any is_payload below.paths.items) }
    ensures gives { result.shown ≡ shown_by
        (octets_below (R.standing rt) (string_bytes folder) root)
        (paths_in result.shown) result.shown.has_payload_dir }
    ensures in_order { IsListing (paths_in result.shown) result.shown.has_payload_dir }
    ensures rest { result ≡ record {
      standing = R.standing rt;
      shown = result.shown;
      folder = string_bytes folder;
      root = root;
      name = string_bytes name;
      to_read = None;
      failures = troubles.failures;
      trouble = troubles.last;
    } }
{
    let has_dir = below.has_dir || has_payload(&below.paths);
    FolderTree {
        rt,
        folder,
        root,
        name,
        paths: in_order(below.paths),
        has_dir,
        file: None,
        troubles,
    }
}

impl<R: Names> Source for FolderTree<R> {
    ghost use Rattle.std.specs.Io.KnownBytes.{ReadConsumes};
    ghost use Rattle.bag_digest.specs.Failures.{UsesSource};
    ghost use Rattle.bag_folder.specs.Folders.{FolderShown, ReadsFolder, SameShown, left_open, same_itself, same_on};

    ghost remaining = { λ tree. left_open tree.to_read };

    ghost failures = { λ tree. tree.failures };

    ghost ready = { λ _. ⊥ };

    ghost is_open = { λ tree. is_some tree.to_read };

    ghost keeps = { SameShown };

    /// Reads from the open file. Fails if no file is open.
    fn read(&mut self, buf: &mut [u8]) -> Result<usize, Failed>
        ensures bound { IfOk result (λ n. n ≤ length buf.new) }
        ensures octets { ReadConsumes (left_open self.old.to_read) (left_open self.new.to_read)
            result buf.new }
        ensures uses { UsesSource (λ (tree : FolderShown). tree.failures)
            (λ (tree : FolderShown). ⊥) SameShown self.old self.new (IsErr result) }
        ensures exactly { ReadsFolder self.old self.new result buf.new }
    {
        let answer = match &mut self.file {
            Some(file) => with_cause(file.read(buf)),
            None => Err(None),
        };
        self.troubles.counted(self.name.as_str(), answer)
    }

    fn failures(&self) -> u64 {
        self.troubles.failures()
    }

    ghost keeps_itself = { same_itself };

    ghost keeps_on = { same_on };
}

impl<R: Names> Paths for FolderTree<R> {
    ghost shown = { λ tree. tree.shown };

    fn count(&self) -> usize {
        self.paths.len()
    }

    fn path(&self, i: usize) -> &BagPath {
        &self.paths[i]
    }

    fn has_payload_dir(&self) -> bool {
        self.has_dir
    }
}

impl<R: Names> Tree for FolderTree<R> {
    ghost use Rattle.bag_rules.specs.Trees.{UsesTree};
    ghost use Rattle.bag_folder.specs.Folders.{FolderShown, OpensNamed, StartsFile, keeps_tree};

    ghost sure = { λ _. ⊥ };

    /// Closes the file that was open, and opens this one.
    ///
    /// Fails if the file no longer exists or can't be read; no file is open then. Allocates no memory. The folder is
    /// assumed to be unchanged since it was read: opening a named pipe that has replaced a file since then would block.
    fn start(&mut self, i: usize) -> Result<(), Failed>
        requires { i < length (paths_in self.old.shown) }
        ensures started { OnOk result
            (left_open self.new.to_read ≡ octets_in self.old.shown i) }
        ensures uses { UsesTree (λ (tree : FolderShown). tree.shown)
            (λ (tree : FolderShown). tree.failures) (λ (tree : FolderShown). ⊥)
            self.old self.new (IsErr result) }
        ensures open { is_some self.new.to_read ≡ is_ok result }
        ensures exactly { StartsFile self.old self.new i result }
        ensures opens { OpensNamed self.old self.new result }
    {
        self.file = None;
        let path = self.root.path_below(self.paths[i].as_str());
        let answer = match opened(&self.rt, &mut self.name, self.folder.as_str(), path) {
            Ok(file) => {
                self.file = Some(file);
                Ok(())
            }
            Err(cause) => Err(cause),
        };
        self.troubles.counted(self.name.as_str(), answer)
    }

    ghost reads_keep = { keeps_tree };
}

impl<R: Names> OpenTree for FolderTree<R> {
    ghost use Rattle.std.specs.Prelude.{MatchResult};
    ghost use Rattle.bag_digest.specs.Failures.{IsRaised};
    ghost use Rattle.bag_folder.specs.OpenFiles.{IsGivenOut, LeavesFolder, trouble_of};

    type File = FolderFile<R>;

    /// Opens this file as a value.
    ///
    /// As with [`FolderTree::start`], the folder is assumed to be unchanged since it was read: opening a named pipe
    /// that has replaced a file since then would block.
    ///
    /// # Errors
    ///
    /// `AllocError` if memory for its name runs out, or if the count of failures is at its maximum.
    fn open_file(&mut self, alloc: Global, i: usize) -> Result<FolderFile<R>, AllocError>
        requires { i < length (paths_in self.old.shown) }
        ensures opened { IfOk result (IsGivenOut self.old.shown i) }
        ensures counted { MatchResult result
            (λ file. IsRaised self.old.failures self.new.failures)
            (λ error. self.new.failures ≡ self.old.failures) }
        ensures rest { LeavesFolder self.old self.new }
        ensures exactly { IfOk result (OpensFile self.old i) }
        ensures same { self.new ≡ record self.old { failures = self.new.failures } }
    {
        let file = self.file_at(alloc, i)?;
        self.troubles.raise()?;
        Ok(file)
    }

    /// Closes the file.
    fn close(&mut self, _file: FolderFile<R>)
        ensures { self.new ≡ record self.old { failures = self.old.failures - 1 } }
    {
        self.troubles.lower();
    }

    /// Closes the file, and keeps its name and why it failed the last time as what couldn't be used. Allocates no
    /// memory.
    fn fail(&mut self, file: FolderFile<R>)
        ensures { self.new ≡ record self.old { trouble = trouble_of file } }
    {
        self.troubles.tell(file.into_trouble());
    }

    /// Closes the file, and tells nothing of it.
    fn give_up(&mut self, _file: FolderFile<R>, _first: &FolderFile<R>)
        ensures { self.new ≡ record self.old { failures = self.old.failures - 1 } }
    {
        self.troubles.lower();
    }
}

impl<R: Names> CopiedTree for FolderTree<R> {
    /// Closes the file, and tells nothing of it.
    fn give_up_unwritten<C: SinkFile>(&mut self, _file: FolderFile<R>, _first: &C)
        ensures { self.new ≡ record self.old { failures = self.old.failures - 1 } }
    {
        self.troubles.lower();
    }
}

impl<R: Names> FolderTree<R> {
    /// Opens the file at this place as a value. Its name has as much room as all names need.
    fn file_at(&self, alloc: Global, i: usize) -> Result<FolderFile<R>, AllocError>
        requires { i < length (paths_in self.now.shown) }
        ensures { IfOk result (OpensFile self.now i) }
    {
        let name = String::with_capacity(alloc, self.name.capacity())?;
        let path = self.paths[i].as_str();
        let below = self.root.path_below(path);
        FolderFile::open(&self.rt, name, self.folder.as_str(), below, i)
    }
}

/// Whether some path is a payload path.
fn has_payload(paths: &[BagPath]) -> bool
    ensures { result ≡ list_any is_payload paths.now }
{
    paths.iter().any(|path| path.is_payload())
}
