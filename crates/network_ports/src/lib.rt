//! The network as two traits, a side that dials and a side that listens, whose calls fail only where a count of theirs rose:
//! each in memory and over TCP.
#![tactic(auto)]

mod connection;
mod connections;
mod count;
mod dial;
mod listen;
mod mem_dial;
mod mem_listen;
mod retry;
mod schedule;
mod send;
mod socket;
mod tcp_dial;
mod tcp_listen;

pub use connection::MemConnection;
pub use dial::Dial;
pub use listen::Listen;
pub use mem_dial::MemDial;
pub use mem_listen::MemListen;
pub use send::send_all;
pub use socket::{IDLE_SECONDS, QUIET_SECONDS};
pub use tcp_dial::TcpDial;
pub use tcp_listen::TcpListen;
