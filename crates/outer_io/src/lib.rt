//! The outside world: named files, and sinks that bytes are put to.
//!
//! This layer stands on nothing. It keeps two promises that the rest of the program is written over: bytes come and go in
//! order, and a call fails only where the object that was handed in counted a fault, which it can tell of. The layers above
//! are generic over `Files` and `Sink` and use their clauses alone; a sink's text is spoken of by `Wrote`, its faults by
//! `HasBlame`. `MemoryFiles` and `MemorySink` hold all in memory, tell all that they hold, and fail where they are told to; a `TextBuffer` is
//! a text in memory that is read where it stands.
//! `RealFiles` and `RealSink` stand at the edge, over the system's files and streams, and tell nothing of contents.
//!
//! Traits with several ends under one contract are the old way of writing drivers; that a fake end is made to fail at each
//! call in turn is fault injection as Voas and McGraw describe it (Software Fault Injection, 1998).
#![tactic(auto)]

pub(crate) mod bounded;
pub mod fault;
pub mod file_sink;
pub mod files;
pub(crate) mod gathering;
pub mod memory_files;
pub mod memory_sink;
pub mod piece_room;
pub mod pieces;
pub mod put;
pub mod reading;
pub mod real_files;
pub mod real_sink;
pub mod sink;
// Its tests need no more than what it offers: they are in `proof_tests`, since a crate with tests of its own is proved twice,
// and all that reads or writes stands on this one.
pub mod text_buffer;

pub use fault::{Failed, LoadFault, Purpose, PutFault};
pub use file_sink::FileSink;
pub use files::{Files, NAME_LIMIT};
pub use memory_files::{MemoryFiles, MemoryPart};
pub use memory_sink::MemorySink;
pub use piece_room::PieceRoom;
pub use pieces::Pieces;
pub use put::put_all;
pub use reading::load;
pub use real_files::RealFiles;
pub use real_sink::RealSink;
pub use sink::Sink;
pub use text_buffer::TextBuffer;
