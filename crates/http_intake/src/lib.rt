//! The messages that come on a connection: each head found and judged, its fields and its target read, and its body waited for.
#![tactic(auto)]

mod body;
mod fields;
mod halt;
mod intake;
mod look;
mod refusal;
mod target;

pub use body::{asks_close, body_length, expects_continue};
pub use halt::Halt;
pub use intake::Intake;
pub use look::{HEAD_LIMIT, Look, MOST_FIELDS, find_head};
pub use refusal::Refusal;
pub use target::{TargetError, object_name};
