//! Folders on disk: as a tree of files to be judged, as the place a bag is written to, as a courier that delivers
//! payload files, and as a supplier that is asked for them.
#![tactic(auto)]

pub use destination::Destination;
pub use entries::{Directories, Disk, Entry};
pub use entry_kind::EntryKind;
pub use fault::{Cause, OpenFault, Unfit};
pub use file_system::{Names, UnknownFile};
pub use folder_file::FolderFile;
pub use folder_sink::FolderSink;
pub use folder_sink_file::FolderSinkFile;
pub use folder_supplier::FolderSupplier;
pub use folder_tree::FolderTree;
pub use mem_names::{MemEntry, MemNames};
pub use new_folders::NewFolders;
pub use root::Root;
pub use tree_courier::TreeCourier;

mod destination;
mod entries;
mod entry_kind;
mod fault;
mod file_system;
mod folder_file;
mod folder_sink;
mod folder_sink_file;
mod folder_supplier;
mod folder_tree;
mod in_payload;
mod mem_names;
mod name_on_disk;
mod new_folders;
mod root;
mod tree_courier;
mod troubles;
mod walk;
