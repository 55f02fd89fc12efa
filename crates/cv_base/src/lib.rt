//! The outside of the program: its statuses, the texts that it loads, the bytes that it writes.
#![tactic(auto)]

mod bytes;
mod list;
mod mem_shelf;
mod mem_sink;
mod push;
mod shelf;
mod sink;
mod status;

pub use bytes::Bytes;
pub use list::List;
pub use mem_shelf::{Held, MemShelf};
pub use mem_sink::MemSink;
pub use push::{Memory, push_bytes, push_number};
pub use shelf::{LoadFault, Shelf};
pub use sink::{Sink, SinkFault};
pub use status::Status;
