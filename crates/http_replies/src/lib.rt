//! What goes out on a connection: the frames of events as chunks behind the head of a reply, and the refusals.
#![tactic(auto)]

mod chunk;
mod chunks;
mod hex;
mod refusal;
mod reply;
mod text;

pub use chunks::Chunks;
pub use refusal::send_error;
pub use reply::{send_continue, send_last_chunk, send_success_head};
pub use text::ReplyText;
