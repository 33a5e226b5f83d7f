//! Ledgers: stored transfers, each with its tag files and the valid payload files received for it.
#![tactic(auto)]

pub use finding::Finding;
pub use keeper::{Keeper, copy_piece};
pub use keeper_faults::{KeepFault, PutFault, StoreFault};
pub use map_keeper::MapKeeper;
pub use wanted_content::{test_content, test_reader};

mod finding;
mod keeper;
mod keeper_faults;
pub mod laws;
mod map_keeper;
mod stored;
mod wanted_content;
