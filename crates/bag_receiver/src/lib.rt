//! The receiver of bags. It opens transfers with their tag files, and takes in payload files that may come in any
//! order, repeatedly or not at all.
#![tactic(auto)]

pub use answer::{Answer, DeliverFault};
pub use begin::{BeginFault, Begun};
pub use courier::Courier;
pub use export::ExportFault;
pub use fetch::{FetchAnswer, FetchOutcome};
pub use given_path::GivenPath;
pub use receiver::Receiver;
pub use report::ViewFault;
pub use run::{End, MOST_DELIVERIES, Run};
pub use supplier::Supplier;

mod answer;
pub mod arrival_laws;
mod audit;
mod begin;
mod begin_from;
mod courier;
mod deliver;
pub mod examples;
mod export;
mod fetch;
mod given_path;
mod held;
pub mod laws;
mod receiver;
mod report;
mod run;
mod run_from;
mod supplier;
mod transfer_name;
