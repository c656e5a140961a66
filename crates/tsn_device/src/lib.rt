//! What commands read from and write to: readers and writers of bytes, in memory, of files and of standard streams.
#![tactic(auto)]

pub mod device;
pub mod failure;
mod place;
mod reader;
pub mod run;
pub mod sink;
pub mod source;

pub use failure::{Action, Failure};
pub use place::are_one_file;
pub use sink::{FileSink, WriterSink};
pub use source::FileSource;
