//! Where the folder for a new bag is made.
ghost use Rattle.std.specs.Prelude.{◌≡◌, ℕ, List, Option, IfErr, IfOk, MatchResult, None, Some};
ghost use Rattle.bag_folder.specs.Faults.{IfUnfit};
ghost use Rattle.bag_folder.specs.NewFolders.{IsNewFolder};
ghost use Rattle.bag_folder.specs.Unfits.{UnfitShown};

use crate::fault::{OpenFault, Unfit};
use bag_writer::OpenSink;
use std::alloc::Global;

/// Makes the folder for a new bag, which is kept or given up.
pub trait NewFolders {
    /// A folder that was made. A bag is written to it.
    type Folder: OpenSink + Drop;

    /// The name of the folder that was made and hasn't been given up.
    ghost made: { Self → Option (List ℕ) };

    /// The name that a folder was made under.
    ghost name: { Self.Folder → List ℕ };

    /// What couldn't be used when a folder failed the last time, if that is told.
    ghost trouble: { Self.Folder → Option UnfitShown };

    /// Makes a folder. It must not exist yet, but its parent must.
    ///
    /// # Errors
    ///
    /// `Files` if the folder can't be made, for example because something with its name exists. `Memory` if memory runs
    /// out. No folder is made then.
    fn create(&mut self, alloc: Global, folder: &str) -> Result<Self::Folder, OpenFault>
        ensures created { IfOk result (IsNewFolder Self.Folder.stored Self.Folder.is_open
            Self.Folder.failures name trouble folder.now) }
        ensures refused { IfErr result (λ fault. IfUnfit fault (λ unfit.
            unfit.path ≡ folder.now)) }
        ensures made { MatchResult result
            (λ _. made self.new ≡ Some folder.now) (λ _. self.new ≡ self.old) };

    /// Gives up the folder that was made: removes it if it is empty.
    fn give_up(&mut self)
        ensures { made self.new ≡ None };

    /// Closes a folder, and tells what couldn't be used at its last failure: the file or directory that couldn't be
    /// made or written. `None` if nothing has failed, or if the last call failed for another reason.
    fn into_trouble(folder: Self::Folder) -> Option<Unfit>
        ensures { result ≡ trouble folder };
}
