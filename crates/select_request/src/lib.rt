//! A request body is read exactly: the request that it spells, or the first fault with its place.
//!
//! The body is the XML of Amazon S3's `SelectObjectContentRequest`.
#![tactic(auto)]

mod body;
mod checks;
mod fault;
mod found;
mod law;
mod printer;
mod request;
mod settings;
mod valid;
mod values;

pub use body::{LONGEST_BODY, read};
pub use fault::{ReadError, RequestFault, RequestFaultCode};
pub use law::{body_has_one_reading, printed_request_is_read};
pub use printer::print;
pub use request::{
    CsvInput, CsvOutput, Delimiter, Header, Input, Output, ScanRange, SelectRequest,
};
pub use request_elements::TextBuf;
pub use values::whole_number;
