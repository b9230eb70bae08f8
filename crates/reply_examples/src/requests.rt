//! Bodies as clients write them, which are refused, or read as a request that is printed.

use case_tables::{Row, show};
use select_request::{
    CsvInput, CsvOutput, Delimiter, Header, Input, Output, ReadError, ScanRange, SelectRequest,
    TextBuf, body_has_one_reading, print, printed_request_is_read, read,
};
use std::alloc::Global;
use std::test::Fail;

/// A body: its first fault with the place, or its request as it is printed, and whether a range may be asked.
pub(crate) fn tell_body(alloc: Global, row: &Row) -> Result<String, Fail> {
    let body = row.joined(alloc, 0)?;
    body_has_one_reading();
    printed_request_is_read();
    match read(alloc, body.as_slice()) {
        Ok(request) => tell_request(alloc, &request),
        Err(ReadError::Refused(fault)) => {
            let code = fault.code;
            let at = fault.at;
            Ok(format!(in alloc; "{code:?} at {at}")?)
        }
        Err(ReadError::OutOfMemory) => Ok(String::from_str(alloc, "out of memory")?),
    }
}

fn tell_request(alloc: Global, request: &SelectRequest) -> Result<String, Fail> {
    let mut text = String::new(alloc);
    if !request.is_valid() || !request.is_printable() {
        text.push_str("not printable")?;
        return Ok(text);
    }
    if request.input.allows_range() {
        text.push_str("range, ")?;
    }
    show(&mut text, print(alloc, request)?.text().as_bytes())?;
    Ok(text)
}

/// A request with an expression, and with every setting other than a body that leaves it out has it.
pub(crate) fn tell_every_setting(alloc: Global, row: &Row) -> Result<String, Fail> {
    let request = SelectRequest {
        expression: TextBuf::of(alloc, row.text(0)?)?,
        progress: true,
        input: Input::Csv(CsvInput {
            quoted_delimiters: false,
            comment: b'&',
            field: b'<',
            header: Header::Use,
            quote: b'>',
            escape: b'\\',
            delimiter: Delimiter::Two(b'\r', b'\n'),
        }),
        output: Output::Csv(CsvOutput {
            field: b'&',
            quote: b'<',
            escape: b'<',
            always: true,
            delimiter: Delimiter::Two(b'\n', b'\n'),
        }),
        range: Some(ScanRange::Between { start: 5, end: 5 }),
    };
    tell_request(alloc, &request)
}
