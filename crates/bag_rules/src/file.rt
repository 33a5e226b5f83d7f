//! Files in memory.
ghost use Rattle.std.specs.Prelude.{◌≡◌, IfErr, IfOk, Some, slice_get};
ghost use Rattle.std.specs.Map.{lookup};
ghost use Rattle.std.specs.Option.{option_copied};
ghost use Rattle.std.specs.Str.{bytes_eq};
ghost use Rattle.bag_rules.specs.Files.{IsGapFor, files_of, paths_of};
ghost use Rattle.bag_rules.specs.Trees.{AreRising};

use bag_path::BagPath;
use std::alloc::AllocError;

/// A file with its path.
#[derive(Drop, PartialEq, Eq)]
pub struct File {
    pub(crate) path: BagPath,
    pub(crate) body: Vec<u8>,
}

impl File {
    /// The path.
    pub fn path(&self) -> &BagPath
        ensures { result.now ≡ self.now.path }
    {
        &self.path
    }

    /// The octets.
    pub fn body(&self) -> &[u8]
        ensures { result.now ≡ self.now.body.items }
    {
        self.body.as_slice()
    }
}

impl Clone for File {
    ghost use Rattle.bag_rules.specs.Files.{SameFile};

    ghost is_clone = { SameFile };

    fn clone(&self) -> Result<File, AllocError> {
        let path = self.path.clone()?;
        let body = self.body.clone()?;
        Ok(File { path, body })
    }
}

/// The place of the path among files in order, or the place where it would be inserted.
pub(crate) fn search(files: &[File], path: &str) -> Result<usize, usize>
    requires { AreRising (paths_of files.now) }
    ensures found { IfOk result (λ i. slice_get (paths_of files.now) i ≡ Some path.now) }
    ensures absent { IfErr result (IsGapFor (paths_of files.now) path.now) }
{
    files.binary_search_by(|file| file.path.as_str().cmp(path))
}

/// The octets of the file with this path, among files in order.
pub(crate) fn body_of<'a>(files: &'a [File], path: &str) -> Option<&'a [u8]>
    requires { AreRising (paths_of files.now) }
    ensures { option_copied result ≡ lookup (bytes_eq path.now) (files_of files.now) }
{
    match search(files, path) {
        Ok(i) => Some(files[i].body.as_slice()),
        Err(_) => None,
    }
}
