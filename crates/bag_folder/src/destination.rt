//! The folder on disk that is made for a new bag.
ghost use Rattle.std.specs.Prelude.{◌≡◌, None};

use crate::fault::{OpenFault, Unfit};
use crate::folder_sink::FolderSink;
use crate::new_folders::NewFolders;
use std::alloc::Global;
use std::fs;
use std::marker::Model;
use std::rt::Files;

/// The file system, and the folder in it that was made for a bag and hasn't been given up.
#[derive(Drop)]
pub struct Destination<'a, R: Files> {
    rt: &'a R,
    made: Option<String>,
}

impl<'a, R: Files> Model for Destination<'a, R> {
    ghost use Rattle.std.specs.Prelude.{List, Option, ℕ, option_map, string_bytes};

    ghost Value = { Option (List ℕ) };

    ghost view = { λ destination. option_map string_bytes destination.made };
}

impl<'a, R: Files> Destination<'a, R> {
    /// No folder is made yet.
    pub fn new(rt: &'a R) -> Self
        ensures { result ≡ None }
    {
        Destination { rt, made: None }
    }
}

impl<'a, R: Files> NewFolders for Destination<'a, R> {
    type Folder = FolderSink<&'a R>;

    ghost made = { λ destination. destination };

    ghost name = { λ sink. sink.folder };

    ghost trouble = { λ sink. sink.trouble };

    fn create(&mut self, alloc: Global, folder: &str) -> Result<Self::Folder, OpenFault> {
        let name = String::from_str(alloc, folder)?;
        let sink = FolderSink::create(self.rt, alloc, folder)?;
        self.made = Some(name);
        Ok(sink)
    }

    fn give_up(&mut self) {
        if let Some(name) = self.made.take() {
            let _ = fs::remove_dir(self.rt, name.as_str());
        }
    }

    fn into_trouble(folder: Self::Folder) -> Option<Unfit> {
        folder.into_trouble()
    }
}
