//! The outside as the module meets it: what bytes are read from and written to, the connections and the doors that they
//! come from, the gate of a lane, the clock, and the bench that gives them; and a memory form of each, which tells what it
//! holds.
#![tactic(auto)]

mod bench;
mod clock;
mod door;
mod gate;
mod gated;
mod link;
mod listed;
mod mem_bench;
mod mem_clock;
mod mem_door;
mod mem_doors;
mod mem_file;
mod mem_files;
mod mem_gate;
mod mem_link;
mod mem_seeds;
mod mem_sink;
mod names;
mod sink;
mod source;
mod writing;

pub use bench::Bench;
pub use clock::Clock;
pub use door::{Came, Door};
pub use gate::{Gate, OpenGate};
pub use gated::GatedLanes;
pub use link::Link;
pub use mem_bench::MemBench;
pub use mem_clock::MemClock;
pub use mem_door::MemDoor;
pub use mem_file::MemFile;
pub use mem_files::MemNamed;
pub use mem_gate::MemGate;
pub use mem_link::MemLink;
pub use mem_sink::MemSink;
pub use names::keep_name;
pub use sink::{Put, Sink};
pub use source::{Got, Source};
pub use writing::{OutFailed, write_all};
