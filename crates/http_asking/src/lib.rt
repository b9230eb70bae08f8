//! The request of a client: a select over an object, as the bytes of an HTTP message.
#![tactic(auto)]

mod encode;
mod request;

pub use request::request_text;
