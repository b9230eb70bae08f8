//! The values of the elements found in a body, each with its default.
ghost use Rattle.std.specs.Prelude.{◌≡◌, false, IfOk, IfErr};
ghost use Rattle.select_request.specs.Values.{truth_of, character_of, header_of, quoting_of, json_of, input_delimiter_of, output_delimiter_of, range_of};
ghost use Rattle.select_request.specs.Request.{value_in, csv_input_from, csv_output_from, input_from, output_from, range_from, request_from};
ghost use Rattle.select_request.specs.Checks.{first_fault};

use crate::checks::first_fault;
use crate::fault::RequestFault;
use crate::found::{has, take_text, text_in};
use crate::request::{
    CsvInput, CsvOutput, Delimiter, Header, Input, Output, ScanRange, SelectRequest,
};
use crate::values::{
    character, header, input_delimiter, json, output_delimiter, quoting, range, truth,
};
use request_elements::{Element, Found, TextBuf};
use std::alloc::Global;

/// A truth value, which is false by default.
fn truth_in(found: &[Found], element: Element) -> bool
    ensures { result ≡ value_in truth_of false element found.now }
{
    match text_in(found, element) {
        Some(text) => truth(text).unwrap_or(false),
        None => false,
    }
}

/// A character, or the default.
fn character_in(found: &[Found], element: Element, default: u8) -> u8
    ensures { result ≡ value_in character_of default element found.now }
{
    match text_in(found, element) {
        Some(text) => character(text).unwrap_or(default),
        None => default,
    }
}

/// What the first line of a CSV object is.
fn header_in(found: &[Found]) -> Header
    ensures { result ≡ value_in header_of Header.Without Element.FileHeaderInfo found.now }
{
    match text_in(found, Element::FileHeaderInfo) {
        Some(text) => header(text).unwrap_or(Header::Without),
        None => Header::Without,
    }
}

/// Whether all fields of the reply's CSV are quoted.
fn quoting_in(found: &[Found]) -> bool
    ensures { result ≡ value_in quoting_of false Element.QuoteFields found.now }
{
    match text_in(found, Element::QuoteFields) {
        Some(text) => quoting(text).unwrap_or(false),
        None => false,
    }
}

/// Which JSON the object is: by lines, where it isn't told.
fn json_in(found: &[Found]) -> Input
    ensures { result ≡ value_in json_of Input.JsonLines Element.JsonType found.now }
{
    match text_in(found, Element::JsonType) {
        Some(text) => json(text).unwrap_or(Input::JsonLines),
        None => Input::JsonLines,
    }
}

/// The object's record delimiter.
fn input_delimiter_in(found: &[Found]) -> Delimiter
    ensures { result ≡ value_in input_delimiter_of (Delimiter.One 10) Element.InputRecordDelimiter found.now }
{
    match text_in(found, Element::InputRecordDelimiter) {
        Some(text) => input_delimiter(text).unwrap_or(Delimiter::One(b'\n')),
        None => Delimiter::One(b'\n'),
    }
}

/// A record delimiter of the reply.
fn output_delimiter_in(found: &[Found], element: Element) -> Delimiter
    ensures { result ≡ value_in output_delimiter_of (Delimiter.One 10) element found.now }
{
    match text_in(found, element) {
        Some(text) => output_delimiter(text).unwrap_or(Delimiter::One(b'\n')),
        None => Delimiter::One(b'\n'),
    }
}

/// How the object's CSV is written.
pub(crate) fn csv_input_from(found: &[Found]) -> CsvInput
    ensures { result ≡ csv_input_from found.now }
{
    CsvInput {
        quoted_delimiters: truth_in(found, Element::AllowQuotedRecordDelimiter),
        comment: character_in(found, Element::Comments, b'#'),
        field: character_in(found, Element::InputFieldDelimiter, b','),
        header: header_in(found),
        quote: character_in(found, Element::InputQuoteCharacter, b'"'),
        escape: character_in(found, Element::InputQuoteEscapeCharacter, b'"'),
        delimiter: input_delimiter_in(found),
    }
}

/// The object's format.
pub(crate) fn input_from(found: &[Found]) -> Input
    ensures { result ≡ input_from found.now }
{
    if has(found, Element::CsvInput) {
        return Input::Csv(csv_input_from(found));
    }
    if has(found, Element::JsonInput) {
        json_in(found)
    } else {
        Input::Parquet
    }
}

/// How the reply's CSV is written.
pub(crate) fn csv_output_from(found: &[Found]) -> CsvOutput
    ensures { result ≡ csv_output_from found.now }
{
    CsvOutput {
        field: character_in(found, Element::OutputFieldDelimiter, b','),
        quote: character_in(found, Element::OutputQuoteCharacter, b'"'),
        escape: character_in(found, Element::OutputQuoteEscapeCharacter, b'"'),
        always: quoting_in(found),
        delimiter: output_delimiter_in(found, Element::CsvRecordDelimiter),
    }
}

/// The reply's format.
fn output_from(found: &[Found]) -> Output
    ensures { result ≡ output_from found.now }
{
    if has(found, Element::CsvOutput) {
        Output::Csv(csv_output_from(found))
    } else {
        Output::Json(output_delimiter_in(found, Element::JsonRecordDelimiter))
    }
}

/// The range, where it is there and is one.
pub(crate) fn range_from(found: &[Found]) -> Option<ScanRange>
    ensures { result ≡ range_from found.now }
{
    if has(found, Element::ScanRange) {
        range(text_in(found, Element::Start), text_in(found, Element::End))
    } else {
        None
    }
}

/// The request that the elements found in a body spell.
#[tactic(auto, unfolding(crate::specs::Request::request_from))]
fn request_from(alloc: Global, found: Vec<Found>) -> SelectRequest
    ensures { result ≡ request_from found.items }
{
    let progress = truth_in(&found, Element::Enabled);
    let input = input_from(&found);
    let output = output_from(&found);
    let range = range_from(&found);
    let expression = match take_text(found, Element::Expression) {
        Some(text) => text,
        None => TextBuf::empty(alloc),
    };
    SelectRequest {
        expression,
        progress,
        input,
        output,
        range,
    }
}

/// The request that the elements found in a body spell, or the fault of the first check that isn't met.
pub(crate) fn request_of(alloc: Global, found: Vec<Found>) -> Result<SelectRequest, RequestFault>
    ensures request { IfOk result (λ request. (first_fault found.items ≡ None) × (request ≡ request_from found.items)) }
    ensures fault { IfErr result (λ fault. first_fault found.items ≡ Some fault) }
{
    match first_fault(&found) {
        Some(fault) => Err(fault),
        None => Ok(request_from(alloc, found)),
    }
}
