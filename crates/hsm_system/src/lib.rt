//! The outside of the system: its files, the seed device, listeners and the system's clock as a bench, and a writer as the output.
#![tactic(auto)]

mod bench;
mod clock;
mod files;
mod sockets;

pub use bench::SystemBench;
pub use clock::SystemClock;
pub use files::{Output, SystemFile};
pub use sockets::{SystemDoor, SystemLink};
