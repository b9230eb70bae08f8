//! A request is printed as a body: its elements in the order of the table, each with its value.
ghost use Rattle.std.specs.Prelude.{◌≡◌, ◌++◌, ◌<◌, length, [], ◌∷◌, Some, IfOk, OnOk, IsTrue, MatchOption, decimal};
ghost use Rattle.select_request.specs.Printed.{escaped_byte, escaped, truth_text, header_text, quoting_text, delimiter_text, opens, leaf, closes, start_tag, end_tag, print_part, print_parts, csv_input_parts, json_input_parts, input_parts, csv_output_parts, output_parts, range_parts, settings_parts, printed};
ghost use Rattle.select_request.specs.Reading.{SpellsRequest};
ghost use Rattle.select_request.specs.Printable.{is_csv_input, is_csv_output, is_input, is_output, is_delimiter, is_printable};

use crate::request::{
    CsvInput, CsvOutput, Delimiter, Header, Input, Output, ScanRange, SelectRequest,
};
use memchr::memchr3;
use request_elements::{Element, TextBuf};
use std::alloc::{AllocError, Global};
use std::marker::Model;

/// Room in bytes for all but the expression, whose references may take more.
const SETTINGS_ROOM: usize = 2048;

/// The body so far.
#[derive(Drop)]
pub(crate) struct Printer {
    text: String,
}

impl Model for Printer {
    ghost use Rattle.std.specs.Prelude.{ℕ, List};
    ghost use Rattle.std.specs.String.{string_bytes};

    ghost Value = { List ℕ };

    ghost view = { λ p. string_bytes p.text };
}

/// What stands for a byte of a text that is `<`, `>` or `&`.
fn reference(byte: u8) -> Option<&'static str>
    ensures { MatchOption result (escaped_byte byte ≡ byte ∷ []) (λ r. r.now ≡ escaped_byte byte) }
{
    match byte {
        b'<' => Some("&lt;"),
        b'>' => Some("&gt;"),
        b'&' => Some("&amp;"),
        _ => None,
    }
}

impl Printer {
    fn new(alloc: Global, capacity: usize) -> Result<Printer, AllocError>
        ensures { IfOk result (λ printer. printer ≡ []) }
    {
        Ok(Printer {
            text: String::with_capacity(alloc, capacity)?,
        })
    }

    fn finish(self) -> TextBuf
        ensures { result ≡ self }
    {
        TextBuf::from_string(self.text)
    }

    fn push(&mut self, text: &str) -> Result<(), AllocError>
        ensures { OnOk result (self.new ≡ self.old ++ text.now) }
    {
        self.text.push_str(text)
    }

    /// A character of a text.
    fn push_character(&mut self, byte: u8) -> Result<(), AllocError>
        requires { byte < 128 }
        ensures { OnOk result (self.new ≡ self.old ++ escaped_byte byte) }
    {
        match reference(byte) {
            Some(reference) => self.push(reference),
            None => self.text.push(char::from(byte)),
        }
    }

    /// A text, with `<`, `>` and `&` as references.
    fn push_escaped(&mut self, text: &str) -> Result<(), AllocError>
        ensures { OnOk result (self.new ≡ self.old ++ escaped text.now) }
    {
        let mut rest = text;
        while let Some((front, byte, behind)) = cut_at_special(rest) {
            self.push(front)?;
            self.push_character(byte)?;
            rest = behind;
        }
        self.push(rest)
    }

    #[tactic(auto, unfolding(crate::specs::Printed::start_tag, crate::specs::Printed::print_part))]
    fn open(&mut self, element: Element) -> Result<(), AllocError>
        ensures { OnOk result (self.new ≡ self.old ++ print_part (opens element)) }
    {
        self.push("<")?;
        self.push(element.name_text())?;
        self.push(">")
    }

    #[tactic(auto, unfolding(crate::specs::Printed::end_tag, crate::specs::Printed::print_part))]
    fn close(&mut self, element: Element) -> Result<(), AllocError>
        ensures { OnOk result (self.new ≡ self.old ++ print_part (closes element)) }
    {
        self.push("</")?;
        self.push(element.name_text())?;
        self.push(">")
    }

    /// An element with its text.
    #[tactic(auto, unfolding(crate::specs::Printed::print_part))]
    fn leaf(&mut self, element: Element, text: &str) -> Result<(), AllocError>
        ensures { OnOk result (self.new ≡ self.old ++ print_part (leaf element text.now)) }
    {
        self.open(element)?;
        self.push_escaped(text)?;
        self.close(element)
    }

    fn truth(&mut self, element: Element, truth: bool) -> Result<(), AllocError>
        ensures { OnOk result (self.new ≡ self.old ++ print_part (leaf element (truth_text truth))) }
    {
        let text = if truth { "TRUE" } else { "FALSE" };
        self.leaf(element, text)
    }

    #[tactic(auto, unfolding(crate::specs::Printed::print_part))]
    fn character(&mut self, element: Element, byte: u8) -> Result<(), AllocError>
        requires { byte < 128 }
        ensures { OnOk result (self.new ≡ self.old ++ print_part (leaf element (byte ∷ []))) }
    {
        self.open(element)?;
        self.push_character(byte)?;
        self.close(element)
    }

    fn number(&mut self, element: Element, number: u64) -> Result<(), AllocError>
        ensures { OnOk result (self.new ≡ self.old ++ print_part (leaf element (decimal number))) }
    {
        let mut buffer = itoa::Buffer::new();
        self.leaf(element, buffer.format(number))
    }

    #[tactic(auto, unfolding(crate::specs::Printed::print_part))]
    fn delimiter(&mut self, element: Element, delimiter: Delimiter) -> Result<(), AllocError>
        requires { IsTrue (is_delimiter delimiter) }
        ensures { OnOk result (self.new ≡ self.old ++ print_part (leaf element (delimiter_text delimiter))) }
    {
        self.open(element)?;
        match delimiter {
            Delimiter::One(byte) => self.push_character(byte)?,
            Delimiter::Two(first, second) => {
                self.push_character(first)?;
                self.push_character(second)?;
            }
        }
        self.close(element)
    }

    fn header(&mut self, header: Header) -> Result<(), AllocError>
        ensures { OnOk result (self.new ≡ self.old ++ print_part (leaf Element.FileHeaderInfo (header_text header))) }
    {
        let text = match header {
            Header::Without => "NONE",
            Header::Ignore => "IGNORE",
            Header::Use => "USE",
        };
        self.leaf(Element::FileHeaderInfo, text)
    }

    fn quoting(&mut self, always: bool) -> Result<(), AllocError>
        ensures { OnOk result (self.new ≡ self.old ++ print_part (leaf Element.QuoteFields (quoting_text always))) }
    {
        let text = if always { "ALWAYS" } else { "ASNEEDED" };
        self.leaf(Element::QuoteFields, text)
    }

    fn csv_input(&mut self, csv: CsvInput) -> Result<(), AllocError>
        requires { IsTrue (is_csv_input csv) }
        ensures { OnOk result (self.new ≡ self.old ++ print_parts (csv_input_parts csv)) }
    {
        self.open(Element::CsvInput)?;
        self.truth(Element::AllowQuotedRecordDelimiter, csv.quoted_delimiters)?;
        self.character(Element::Comments, csv.comment)?;
        self.character(Element::InputFieldDelimiter, csv.field)?;
        self.header(csv.header)?;
        self.character(Element::InputQuoteCharacter, csv.quote)?;
        self.character(Element::InputQuoteEscapeCharacter, csv.escape)?;
        self.delimiter(Element::InputRecordDelimiter, csv.delimiter)?;
        self.close(Element::CsvInput)
    }

    /// JSON of this type.
    fn json_input(&mut self, json_type: &str) -> Result<(), AllocError>
        ensures { OnOk result (self.new ≡ self.old ++ print_parts (json_input_parts json_type.now)) }
    {
        self.open(Element::JsonInput)?;
        self.leaf(Element::JsonType, json_type)?;
        self.close(Element::JsonInput)
    }

    fn input(&mut self, input: Input) -> Result<(), AllocError>
        requires { IsTrue (is_input input) }
        ensures { OnOk result (self.new ≡ self.old ++ print_parts (input_parts input)) }
    {
        match input {
            Input::Csv(csv) => self.csv_input(csv),
            Input::JsonLines => self.json_input("LINES"),
            Input::JsonDocument => self.json_input("DOCUMENT"),
            Input::Parquet => {
                self.open(Element::ParquetInput)?;
                self.close(Element::ParquetInput)
            }
        }
    }

    fn csv_output(&mut self, csv: CsvOutput) -> Result<(), AllocError>
        requires { IsTrue (is_csv_output csv) }
        ensures { OnOk result (self.new ≡ self.old ++ print_parts (csv_output_parts csv)) }
    {
        self.open(Element::CsvOutput)?;
        self.character(Element::OutputFieldDelimiter, csv.field)?;
        self.character(Element::OutputQuoteCharacter, csv.quote)?;
        self.character(Element::OutputQuoteEscapeCharacter, csv.escape)?;
        self.quoting(csv.always)?;
        self.delimiter(Element::CsvRecordDelimiter, csv.delimiter)?;
        self.close(Element::CsvOutput)
    }

    fn output(&mut self, output: Output) -> Result<(), AllocError>
        requires { IsTrue (is_output output) }
        ensures { OnOk result (self.new ≡ self.old ++ print_parts (output_parts output)) }
    {
        match output {
            Output::Csv(csv) => self.csv_output(csv),
            Output::Json(delimiter) => {
                self.open(Element::JsonOutput)?;
                self.delimiter(Element::JsonRecordDelimiter, delimiter)?;
                self.close(Element::JsonOutput)
            }
        }
    }

    fn range(&mut self, range: ScanRange) -> Result<(), AllocError>
        ensures { OnOk result (self.new ≡ self.old ++ print_parts (range_parts (Some range))) }
    {
        self.open(Element::ScanRange)?;
        match range {
            ScanRange::Between { start, end } => {
                self.number(Element::Start, start)?;
                self.number(Element::End, end)?;
            }
            ScanRange::From { start } => self.number(Element::Start, start)?,
            ScanRange::Last { count } => self.number(Element::End, count)?,
        }
        self.close(Element::ScanRange)
    }

    /// Nothing, where there is no range.
    fn optional_range(&mut self, range: Option<ScanRange>) -> Result<(), AllocError>
        ensures { OnOk result (self.new ≡ self.old ++ print_parts (range_parts range)) }
    {
        match range {
            Some(range) => self.range(range),
            None => Ok(()),
        }
    }

    /// The progress and the two formats.
    fn settings(&mut self, request: &SelectRequest) -> Result<(), AllocError>
        requires input { IsTrue (is_input request.now.input) }
        requires output { IsTrue (is_output request.now.output) }
        ensures { OnOk result (self.new ≡ self.old ++ print_parts (settings_parts request.now)) }
    {
        self.open(Element::RequestProgress)?;
        self.truth(Element::Enabled, request.progress)?;
        self.close(Element::RequestProgress)?;
        self.open(Element::InputSerialization)?;
        self.leaf(Element::CompressionType, "NONE")?;
        self.input(request.input)?;
        self.close(Element::InputSerialization)?;
        self.open(Element::OutputSerialization)?;
        self.output(request.output)?;
        self.close(Element::OutputSerialization)
    }

    fn request(&mut self, request: &SelectRequest) -> Result<(), AllocError>
        requires input { IsTrue (is_input request.now.input) }
        requires output { IsTrue (is_output request.now.output) }
        ensures { OnOk result (self.new ≡ self.old ++ printed request.now) }
    {
        self.open(Element::Request)?;
        self.leaf(Element::Expression, request.expression.text())?;
        self.leaf(Element::ExpressionType, "SQL")?;
        self.settings(request)?;
        self.optional_range(request.range)?;
        self.close(Element::Request)
    }
}

/// What stands before the first `<`, `>` or `&` of a text, that byte, and what stands behind it.
fn cut_at_special(text: &str) -> Option<(&str, u8, &str)>
    ensures { MatchOption result (escaped text.now ≡ text.now)
        (λ cut. (cut.1 < 128) × (length cut.2.now < length text.now) × (escaped text.now ≡ cut.0.now ++ (escaped_byte cut.1 ++ escaped cut.2.now))) }
{
    let at = memchr3(b'<', b'>', b'&', text.as_bytes())?;
    let byte = text.as_bytes()[at];
    Some((&text[..at], byte, &text[at + 1..]))
}

/// The body of a request: without a declaration and without the namespace, the elements in the order of their table,
/// each with its value, nothing between them. An error is refused memory.
pub fn print(alloc: Global, request: &SelectRequest) -> Result<TextBuf, AllocError>
    requires { IsTrue (is_printable request.now) }
    ensures text { IfOk result (λ text. text ≡ printed request.now) }
    ensures spells { IfOk result (λ text. SpellsRequest text request.now) }
{
    let mut printer = Printer::new(alloc, request.expression.text().len() + SETTINGS_ROOM)?;
    printer.request(request)?;
    Ok(printer.finish())
}
