//! Ledgers kept in an SQLite database, in ledger format 2. One of format 1 is moved to format 2 when it is opened.
#![tactic(auto)]

mod adopting;
mod beginning;
mod format;
mod health;
mod item_queries;
mod item_statements;
mod keeper;
pub mod laws;
mod migrating;
mod new_tables;
mod octets;
mod putting;
mod queries;
mod short_items;
mod transfer_queries;
mod verifying;
mod watch;

pub use adopting::{AdoptFault, NotAdopted};
pub use keeper::{NotCreated, SqlKeeper};
pub use new_tables::has_nothing;
pub use watch::Watch;
