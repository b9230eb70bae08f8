//! The reply to each message of a connection, about the objects of a store.
#![tactic(auto)]

mod answer;
mod chunked;
mod heading;
mod laws;
mod serve;
mod served;
mod turn;

pub use laws::connections_are_served_once;
pub use serve::serve_connection;
pub use served::{End, Served};
