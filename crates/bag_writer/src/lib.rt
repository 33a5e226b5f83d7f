//! The writer of bags: makes a bag of version 1.0 from a payload and a specification (RFC 8493 section 2).
#![tactic(auto)]

pub use mem_sink::MemSink;
pub use mem_sink_file::MemSinkFile;
pub use open_sink::{CopiedTree, OpenSink, SinkFile};
pub use sink::{Sink, add_file};
pub use spec::{Hole, Spec};
pub use too_large::Large;
pub use write_fault::WriteFault;
pub use writing::{payload_count, write_bag};

mod accepting;
mod copying;
pub mod examples;
mod item;
mod items;
pub mod laws;
mod mem_sink;
mod mem_sink_file;
mod open_sink;
mod payload;
mod payload_beside;
mod payload_in_turn;
mod returning;
mod sink;
mod spec;
mod tag_files;
mod too_large;
mod write_fault;
mod writing;
