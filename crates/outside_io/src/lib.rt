//! Where the program's input comes from and where its output goes.
//!
//! A source hands out bytes and a sink takes them, each in pieces of its own choice, and each
//! call of them may fail. So that no caller can answer that the outside failed unless it did,
//! each has a count of faults, which only it can raise. Besides the two traits there are the
//! loops that read a whole input and write a whole text, a source and a sink in memory whose
//! calls fail where they are told to, quiet ones that fail at no call, and the real ones.
#![tactic(auto)]

mod faults;
mod memory;
mod plan;
mod quiet;
mod reading;
mod standard;
mod writing;

pub use faults::Failed;
pub use memory::{MemSink, MemSource};
pub use quiet::{QuietSink, QuietSource};
pub use reading::{INPUT_LIMIT, READ_SIZE, ReadRefused, Source, read_all};
pub use standard::{StdSink, StdSource};
pub use writing::{Sink, write_all};
