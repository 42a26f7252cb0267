//! The files that are read, the sink that is written, and the words of a command line.
#![tactic(auto)]

mod entry;
mod files;
mod host_files;
mod host_sink;
mod memory_files;
mod memory_sink;
mod sink;
mod steady_files;
mod steady_sink;
#[cfg(test)]
mod tests;
mod words;

pub use files::{Failed, Files};
pub use host_files::HostFiles;
pub use host_sink::HostSink;
pub use memory_files::MemoryFiles;
pub use memory_sink::MemorySink;
pub use sink::{Sink, put_all};
pub use steady_files::SteadyFiles;
pub use steady_sink::SteadySink;
pub use words::Words;
