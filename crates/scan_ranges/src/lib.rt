//! The bytes of an object that a scan range means. A record is selected where its first byte is one of them.
#![tactic(auto)]

mod resolve;

pub use resolve::resolve_range;
pub use select_ports::Range;
pub use select_request::ScanRange;
