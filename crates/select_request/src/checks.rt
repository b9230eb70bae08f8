//! The checks on the elements found in a body, in their order.
ghost use Rattle.std.specs.Prelude.{◌≡◌, ◌≤◌};
ghost use Rattle.select_request.specs.Checks.{checks, first_fault, first_unmet, fits, counted, formats_in, is_met, code_of, element_at, fault_at};

use crate::fault::{RequestFault, RequestFaultCode};
use crate::found::{has, place_in, text_in};
use crate::settings::{csv_input_from, csv_output_from, input_from, range_from};
use crate::values::{
    character, header, input_delimiter, is_word, json, output_delimiter, quoting, truth,
};
use request_elements::{Element, Found};

/// A check on the elements found in a body.
#[derive(Clone, Copy)]
pub(crate) enum Check {
    /// Where the first element is there, it holds the second.
    Holds(Element, Element),
    /// The element's text, where it is there, is one of its values.
    Fits(Element),
    /// The element holds a format.
    HasFormat(Element),
    /// The element holds no two formats.
    HasOneFormat(Element),
    /// The characters of the object's CSV aren't in each other's way.
    InputIsApart,
    /// Nor are those of the reply's CSV.
    OutputIsApart,
    /// Start and End spell a range.
    IsRange,
    /// The object's format allows a range, where there is one.
    AllowsRange,
}

/// All checks, in their order.
static CHECKS: [Check; 30] = [
    Check::Holds(Element::Request, Element::Expression),
    Check::Holds(Element::Request, Element::ExpressionType),
    Check::Fits(Element::ExpressionType),
    Check::Fits(Element::Enabled),
    Check::Holds(Element::Request, Element::InputSerialization),
    Check::Fits(Element::CompressionType),
    Check::HasFormat(Element::InputSerialization),
    Check::HasOneFormat(Element::InputSerialization),
    Check::Fits(Element::AllowQuotedRecordDelimiter),
    Check::Fits(Element::Comments),
    Check::Fits(Element::InputFieldDelimiter),
    Check::Fits(Element::FileHeaderInfo),
    Check::Fits(Element::InputQuoteCharacter),
    Check::Fits(Element::InputQuoteEscapeCharacter),
    Check::Fits(Element::InputRecordDelimiter),
    Check::InputIsApart,
    Check::Holds(Element::JsonInput, Element::JsonType),
    Check::Fits(Element::JsonType),
    Check::Holds(Element::Request, Element::OutputSerialization),
    Check::HasFormat(Element::OutputSerialization),
    Check::HasOneFormat(Element::OutputSerialization),
    Check::Fits(Element::OutputFieldDelimiter),
    Check::Fits(Element::OutputQuoteCharacter),
    Check::Fits(Element::OutputQuoteEscapeCharacter),
    Check::Fits(Element::QuoteFields),
    Check::Fits(Element::CsvRecordDelimiter),
    Check::OutputIsApart,
    Check::Fits(Element::JsonRecordDelimiter),
    Check::IsRange,
    Check::AllowsRange,
];

/// Whether the text is one of the element's values.
fn fits(element: Element, text: &str) -> bool
    ensures { result ≡ fits element text.now }
{
    match element {
        Element::ExpressionType => is_word(text, "SQL"),
        Element::CompressionType => is_word(text, "NONE"),
        Element::JsonType => json(text).is_some(),
        Element::Enabled | Element::AllowQuotedRecordDelimiter => truth(text).is_some(),
        Element::FileHeaderInfo => header(text).is_some(),
        Element::QuoteFields => quoting(text).is_some(),
        Element::Comments
        | Element::InputFieldDelimiter
        | Element::InputQuoteCharacter
        | Element::InputQuoteEscapeCharacter
        | Element::OutputFieldDelimiter
        | Element::OutputQuoteCharacter
        | Element::OutputQuoteEscapeCharacter => character(text).is_some(),
        Element::InputRecordDelimiter => input_delimiter(text).is_some(),
        Element::CsvRecordDelimiter | Element::JsonRecordDelimiter => output_delimiter(
            text,
        ).is_some(),
        _ => true,
    }
}

/// 1 where the element is there.
fn counted(found: &[Found], element: Element) -> usize
    ensures value { result ≡ counted element found.now }
    ensures bound { result ≤ 1 }
{
    if has(found, element) { 1 } else { 0 }
}

/// How many formats stand in the element.
fn formats_in(found: &[Found], element: Element) -> usize
    ensures { result ≡ formats_in element found.now }
{
    match element {
        Element::InputSerialization => {
            counted(found, Element::CsvInput)
                + counted(found, Element::JsonInput)
                + counted(found, Element::ParquetInput)
        }
        _ => counted(found, Element::CsvOutput) + counted(found, Element::JsonOutput),
    }
}

impl Check {
    /// Whether the elements found meet the check.
    fn is_met(self, found: &[Found]) -> bool
        ensures { result ≡ is_met found.now self }
    {
        match self {
            Check::Holds(parent, element) => !has(found, parent) || has(found, element),
            Check::Fits(element) => match text_in(found, element) {
                Some(text) => fits(element, text),
                None => true,
            },
            Check::HasFormat(element) => formats_in(found, element) > 0,
            Check::HasOneFormat(element) => formats_in(found, element) < 2,
            Check::InputIsApart => csv_input_from(found).is_apart(),
            Check::OutputIsApart => csv_output_from(found).is_apart(),
            Check::IsRange => !has(found, Element::ScanRange) || range_from(found).is_some(),
            Check::AllowsRange => {
                !has(found, Element::ScanRange) || input_from(found).allows_range()
            }
        }
    }

    /// The fault's kind.
    fn code(self) -> RequestFaultCode
        ensures { result ≡ code_of self }
    {
        match self {
            Check::Holds(_, _) | Check::HasFormat(_) => RequestFaultCode::MissingRequiredParameter,
            Check::Fits(Element::ExpressionType) => RequestFaultCode::InvalidExpressionType,
            Check::Fits(Element::CompressionType) => RequestFaultCode::InvalidCompressionFormat,
            Check::Fits(_) | Check::HasOneFormat(_) | Check::InputIsApart | Check::OutputIsApart =>
                RequestFaultCode::InvalidRequestParameter,
            Check::IsRange => RequestFaultCode::InvalidScanRange,
            Check::AllowsRange => RequestFaultCode::UnsupportedScanRangeInput,
        }
    }

    /// The element at which the fault is placed.
    fn element(self) -> Element
        ensures { result ≡ element_at self }
    {
        match self {
            Check::Holds(element, _)
            | Check::Fits(element)
            | Check::HasFormat(element)
            | Check::HasOneFormat(element) => element,
            Check::InputIsApart => Element::CsvInput,
            Check::OutputIsApart => Element::CsvOutput,
            Check::IsRange | Check::AllowsRange => Element::ScanRange,
        }
    }

    fn fault(self, found: &[Found]) -> RequestFault
        ensures { result ≡ fault_at found.now self }
    {
        RequestFault {
            code: self.code(),
            at: place_in(found, self.element()),
        }
    }
}

/// The fault of the first of the checks that isn't met.
fn first_unmet(found: &[Found], checks: &[Check]) -> Option<RequestFault>
    ensures { result ≡ first_unmet found.now checks.now }
{
    for check in checks {
        if !check.is_met(found) {
            return Some(check.fault(found));
        }
    }
    None
}

/// The fault of the elements found in a body, if they have one.
#[tactic(auto, unfolding(crate::specs::Checks::first_fault, crate::specs::Checks::checks))]
pub(crate) fn first_fault(found: &[Found]) -> Option<RequestFault>
    ensures { result ≡ first_fault found.now }
{
    first_unmet(found, &CHECKS)
}
