//! Where the desk's bytes come from and go to: sources, sinks and the status that a run ends with.
#![tactic(auto)]

mod errors;
mod giving;
mod input;
mod input_fault;
mod memory;
mod memory_sink;
mod memory_source;
mod output;
mod reader_source;
mod sink;
mod source;
mod status;
mod sure_sink;
mod sure_source;
mod taking;
mod writer_sink;

pub use errors::Errors;
pub use giving::Giving;
pub use input::take_all;
pub use input_fault::InputFault;
pub use memory_sink::MemorySink;
pub use memory_source::MemorySource;
pub use output::put_all;
pub use reader_source::ReaderSource;
pub use sink::Sink;
pub use source::Source;
pub use status::Status;
pub use sure_sink::SureSink;
pub use sure_source::SureSource;
pub use taking::Taking;
pub use writer_sink::WriterSink;
