//! The elements of a request body, each with its name and the element that it stands in.
ghost use Rattle.std.specs.Prelude.{◌≡◌, ◌<◌, ◌&&◌, bytes_eq};
ghost use Rattle.request_elements.specs.Elements.{name_of, is_leaf, parent_of, number_of, is_child, first_named, child_named};

/// An element of a request body (Amazon S3 API Reference, SelectObjectContent): a name, and where it stands. `CSV` of the
/// input and `CSV` of the output are two.
#[derive(Clone, Copy, Debug, PartialEq, Eq)]
pub enum Element {
    Request,
    Expression,
    ExpressionType,
    RequestProgress,
    Enabled,
    InputSerialization,
    CompressionType,
    CsvInput,
    AllowQuotedRecordDelimiter,
    Comments,
    InputFieldDelimiter,
    FileHeaderInfo,
    InputQuoteCharacter,
    InputQuoteEscapeCharacter,
    InputRecordDelimiter,
    JsonInput,
    JsonType,
    ParquetInput,
    OutputSerialization,
    CsvOutput,
    OutputFieldDelimiter,
    OutputQuoteCharacter,
    OutputQuoteEscapeCharacter,
    QuoteFields,
    CsvRecordDelimiter,
    JsonOutput,
    JsonRecordDelimiter,
    ScanRange,
    Start,
    End,
}

/// How many elements there are.
pub(crate) const COUNT: usize = 30;

const ALL: [Element; COUNT] = [
    Element::Request,
    Element::Expression,
    Element::ExpressionType,
    Element::RequestProgress,
    Element::Enabled,
    Element::InputSerialization,
    Element::CompressionType,
    Element::CsvInput,
    Element::AllowQuotedRecordDelimiter,
    Element::Comments,
    Element::InputFieldDelimiter,
    Element::FileHeaderInfo,
    Element::InputQuoteCharacter,
    Element::InputQuoteEscapeCharacter,
    Element::InputRecordDelimiter,
    Element::JsonInput,
    Element::JsonType,
    Element::ParquetInput,
    Element::OutputSerialization,
    Element::CsvOutput,
    Element::OutputFieldDelimiter,
    Element::OutputQuoteCharacter,
    Element::OutputQuoteEscapeCharacter,
    Element::QuoteFields,
    Element::CsvRecordDelimiter,
    Element::JsonOutput,
    Element::JsonRecordDelimiter,
    Element::ScanRange,
    Element::Start,
    Element::End,
];

impl Element {
    /// Its place in the table.
    pub(crate) fn number(self) -> usize
        ensures value { result ≡ number_of self }
        ensures within { result < 30 }
    {
        self as usize
    }

    /// The element of this name that stands in this one.
    #[tactic(auto, unfolding(crate::specs::Elements::child_named))]
    pub(crate) fn child_named(self, name: &[u8]) -> Option<Element>
        ensures { result ≡ child_named self name.now }
    {
        first_named(self, name, ALL.as_slice())
    }

    /// Whether it stands in that one and has the name.
    fn is_named_child(self, parent: Element, name: &[u8]) -> bool
        ensures { result ≡ (is_child parent self && bytes_eq (name_of self) name.now) }
    {
        if self.is_child(parent) {
            self.name() == name
        } else {
            false
        }
    }

    /// Whether it stands in that one.
    fn is_child(self, parent: Element) -> bool
        ensures { result ≡ is_child parent self }
    {
        match self.parent() {
            Some(element) => parent.number() == element.number(),
            None => false,
        }
    }

    /// The element that it stands in.
    fn parent(self) -> Option<Element>
        ensures { result ≡ parent_of self }
    {
        match self {
            Element::Request => None,
            Element::Expression
            | Element::ExpressionType
            | Element::RequestProgress
            | Element::InputSerialization
            | Element::OutputSerialization
            | Element::ScanRange => Some(Element::Request),
            Element::Enabled => Some(Element::RequestProgress),
            Element::CompressionType
            | Element::CsvInput
            | Element::JsonInput
            | Element::ParquetInput => Some(Element::InputSerialization),
            Element::AllowQuotedRecordDelimiter
            | Element::Comments
            | Element::InputFieldDelimiter
            | Element::FileHeaderInfo
            | Element::InputQuoteCharacter
            | Element::InputQuoteEscapeCharacter
            | Element::InputRecordDelimiter => Some(Element::CsvInput),
            Element::JsonType => Some(Element::JsonInput),
            Element::CsvOutput | Element::JsonOutput => Some(Element::OutputSerialization),
            Element::OutputFieldDelimiter
            | Element::OutputQuoteCharacter
            | Element::OutputQuoteEscapeCharacter
            | Element::QuoteFields
            | Element::CsvRecordDelimiter => Some(Element::CsvOutput),
            Element::JsonRecordDelimiter => Some(Element::JsonOutput),
            Element::Start | Element::End => Some(Element::ScanRange),
        }
    }

    /// The name of its tags, as bytes.
    pub(crate) fn name(self) -> &'static [u8]
        ensures { result.now ≡ name_of self }
    {
        self.name_text().as_bytes()
    }

    /// The name of its tags, which an element elsewhere may share: `CSV` for `CsvInput` and for `CsvOutput`.
    pub fn name_text(self) -> &'static str
        ensures { result.now ≡ name_of self }
    {
        match self {
            Element::Request => "SelectObjectContentRequest",
            Element::Expression => "Expression",
            Element::ExpressionType => "ExpressionType",
            Element::RequestProgress => "RequestProgress",
            Element::Enabled => "Enabled",
            Element::InputSerialization => "InputSerialization",
            Element::CompressionType => "CompressionType",
            Element::CsvInput | Element::CsvOutput => "CSV",
            Element::AllowQuotedRecordDelimiter => "AllowQuotedRecordDelimiter",
            Element::Comments => "Comments",
            Element::InputFieldDelimiter | Element::OutputFieldDelimiter => "FieldDelimiter",
            Element::FileHeaderInfo => "FileHeaderInfo",
            Element::InputQuoteCharacter | Element::OutputQuoteCharacter => "QuoteCharacter",
            Element::InputQuoteEscapeCharacter | Element::OutputQuoteEscapeCharacter =>
                "QuoteEscapeCharacter",
            Element::InputRecordDelimiter
            | Element::CsvRecordDelimiter
            | Element::JsonRecordDelimiter => "RecordDelimiter",
            Element::JsonInput | Element::JsonOutput => "JSON",
            Element::JsonType => "Type",
            Element::ParquetInput => "Parquet",
            Element::OutputSerialization => "OutputSerialization",
            Element::QuoteFields => "QuoteFields",
            Element::ScanRange => "ScanRange",
            Element::Start => "Start",
            Element::End => "End",
        }
    }

    /// Whether it holds a text, and no elements.
    pub(crate) fn is_leaf(self) -> bool
        ensures { result ≡ is_leaf self }
    {
        match self {
            Element::Request
            | Element::RequestProgress
            | Element::InputSerialization
            | Element::CsvInput
            | Element::JsonInput
            | Element::ParquetInput
            | Element::OutputSerialization
            | Element::CsvOutput
            | Element::JsonOutput
            | Element::ScanRange => false,
            _ => true,
        }
    }
}

/// The first of the elements that stands in the parent and has the name.
fn first_named(parent: Element, name: &[u8], elements: &[Element]) -> Option<Element>
    ensures { result ≡ first_named parent name.now elements.now }
{
    let mut left = elements;
    'elements: while let Some((element, rest)) = left.split_first() {
        if element.is_named_child(parent, name) {
            return Some(*element);
        }
        left = rest;
    }
    None
}
