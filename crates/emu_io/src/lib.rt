//! Byte sources and sinks that count their faults, and reading and writing all.
#![tactic(auto)]

mod calls;
mod edge;
mod feed;
mod memory;
mod reading;
mod sink;
mod source;
mod sure;
mod writing;

pub use edge::{StdSink, StdSource};
pub use memory::{MemSink, MemSource};
pub use reading::{ReadRefusal, read_all};
pub use sink::Sink;
pub use source::{Failed, Source};
pub use sure::{SureSink, SureSource};
pub use writing::{WriteFault, write_all};

#[cfg(test)]
mod tests;
