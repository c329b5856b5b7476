//! Files to read and sinks to write to, over memory and over the real system. Each call counts its
//! faults, so that whoever reads an answer knows whether a fault explains it.
#![tactic(auto)]

mod empties;
mod ends;
mod line_buffer;
mod lists;
mod memory_files;
mod memory_sink;
mod real;
mod taking;
mod whole;

pub use ends::{Failed, Files, Sink};
pub use line_buffer::LineBuffer;
pub use lists::{CallList, FileList};
pub use memory_files::MemoryFiles;
pub use memory_sink::MemorySink;
pub use real::{RealFiles, RealSink};
pub use taking::{ReadFault, take_piece};
pub use whole::{ReadAnswer, WriteFault, read_all, write_all, write_pieces};
