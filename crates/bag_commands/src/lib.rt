//! The commands of the program on trees, sinks and writers: what each one does, prints and returns as its status.
#![tactic(auto)]

pub use answer::RefusalText;
pub use audit::audit_to;
pub use begin::{BeginEnd, begin_to, print_beginning};
pub use check::{CheckEnd, check_to};
pub use export::export_to;
pub use fault_line::{FaultLine, OutsideLine};
pub use fetch::fetch_to;
pub use intake::intake_to;
pub use list::list_to;
pub use make::{MakeEnd, make_to, print_making};
pub use no_result::{NoResult, print_no_result};
pub use output::Output;
pub use report::report_to;
pub use verdict::verdict_text;

mod answer;
mod audit;
mod begin;
mod check;
mod export;
mod fault_line;
mod fetch;
mod intake;
pub mod laws;
mod list;
mod make;
mod no_result;
mod output;
mod report;
pub mod status;
mod verdict;
