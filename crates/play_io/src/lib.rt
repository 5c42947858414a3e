//! Where a scene's bytes come from and where its report goes: a source and a sink that count their faults,
//! honest and failing ones in memory, and the adapters of std's readers and writers.
#![tactic(auto)]

mod faults;
mod file_sink;
mod file_source;
mod honest_sink;
mod honest_source;
mod mem_sink;
mod mem_source;
mod sink;
mod source;

pub use file_sink::FileSink;
pub use file_source::FileSource;
pub use honest_sink::HonestSink;
pub use honest_source::HonestSource;
pub use mem_sink::MemSink;
pub use mem_source::MemSource;
pub use sink::{Sink, SinkFault};
pub use source::{Failed, Source};
