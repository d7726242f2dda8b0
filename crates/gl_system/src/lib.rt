//! What of the system the program is handed: files, standard streams, sockets and the clock. This is the trusted edge, and
//! only the program stands on it.
//!
//! `FileDisk`, `ReaderSource`, `WriterSink`, `UdpLink` and `SystemClock` are objects of the traits of `gl_outside`. They
//! tell nothing, so no clause says which bytes reach a file, a stream or a socket: that is tested, and their counts of
//! faults are proved. A `TcpDoor` gives connections, whose two ends are a source and a sink.
#![tactic(auto)]

mod adapters;
mod file_disk;
mod store_file;
mod system_clock;
mod tcp_door;
mod udp_link;

pub use adapters::{ReaderSource, WriterSink};
pub use file_disk::FileDisk;
pub use store_file::{FileFault, StoreFile};
pub use system_clock::SystemClock;
pub use tcp_door::{Connection, Entered, TcpDoor};
pub use udp_link::UdpLink;
