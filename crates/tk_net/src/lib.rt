//! Nets: over the loopback sockets of this machine, and in memory.
//!
//! Both are proved against `tk_wire::Net`, `Host` and `Dialer`, and tell nothing of the bytes that pass. A net or a host in
//! memory is for tests: it fails the calls that it is told to fail and no other, and may turn one byte.
//! Between hosts, bytes go in chunks with check sums, and pulses tell that a peer is there.
//! It stands on tk_base, tk_wire, byteorder, mio and rtrb. No other crate names sockets, or rings between threads.
#![tactic(auto)]

mod attach;
mod cable;
mod caller;
mod carrier;
mod check_sum;
mod chunk;
mod dialed_link;
mod door;
mod host_faults;
mod inlet;
mod laws;
mod link_counts;
mod lobby;
mod loop_net;
mod mem_bell;
mod mem_dialer;
mod mem_host;
mod mem_link;
mod mem_net;
mod mem_rest;
mod mem_source;
mod net_counts;
mod outlet;
mod plan;
mod ring;
mod socket;
mod socket_bell;
mod socket_dialer;
mod socket_host;
mod socket_link;
mod socket_rest;
mod source;
mod vigil;

pub use cable::Cable;
pub use dialed_link::DialedLink;
pub use laws::chunks_are_read_back;
pub use loop_net::LoopNet;
pub use mem_bell::MemBell;
pub use mem_dialer::MemDialer;
pub use mem_host::MemHost;
pub use mem_link::MemLink;
pub use mem_net::MemNet;
pub use mem_rest::MemRest;
pub use socket_bell::SocketBell;
pub use socket_dialer::SocketDialer;
pub use socket_host::SocketHost;
pub use socket_link::SocketLink;
pub use socket_rest::SocketRest;
