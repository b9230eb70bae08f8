//! The codes of the replies, and the message that tells a code and its place.
ghost use Rattle.std.specs.Prelude.{◌≡◌, ◌≤◌, length};
ghost use Rattle.select_reply.specs.Codes.{code_text, message};

use arrayvec::ArrayString;
use itoa::Buffer;

/// Why a request is refused or a record is faulty. The reply names it by the variant's name.
#[derive(Clone, Copy, Debug, PartialEq, Eq)]
pub enum Code {
    /// The body is none by its grammar, or is too long.
    MalformedXML,
    /// The body lacks an element.
    MissingRequiredParameter,
    /// The expression's type isn't SQL.
    InvalidExpressionType,
    /// A value of the body is none of its element, or stands in another's way.
    InvalidRequestParameter,
    /// The object is compressed.
    InvalidCompressionFormat,
    /// The scan range of the body is none.
    InvalidScanRange,
    /// A scan range over an input whose records can't be told from their first byte.
    UnsupportedScanRangeInput,
    /// No token of SQL stands there.
    Lexer,
    /// No query goes on so, or the expression ends too early.
    Syntax,
    /// A name before `(` that is no function.
    UnknownFunction,
    /// A word that is no type, or a number with an exponent.
    UnsupportedType,
    /// An aggregate where none may stand, or an item of the other kind than the first one.
    AggregateMixed,
    /// An escape that isn't one character, or that the pattern doesn't fit.
    BadEscape,
    /// An expression of more than 262,144 bytes.
    TooLong,
    /// More than 64 open `(` and CASE.
    TooDeep,
    /// An item, a member of an IN, a primary or a step of the source more than there may be.
    TooMany,
    /// The request or its expression is of a kind that isn't built yet.
    NotBuilt,
    /// A path of the query names no column.
    UnknownColumn,
    /// A path in FROM over an input whose records have no members.
    UnsupportedSource,
    /// A column that the query uses is of a type that isn't read.
    UnsupportedParquetType,
    /// A column that the query uses is compressed.
    UnsupportedParquetCodec,
    /// The query uses more than 128 columns of Parquet.
    TooManyColumns,
    /// The object doesn't begin and end as Parquet does.
    NotParquet,
    /// The footer is longer than 16,777,216 bytes.
    FooterTooLarge,
    /// The footer isn't spelled as its format says.
    BadFooter,
    /// The schema isn't one tree with a leaf.
    BadSchema,
    /// A chunk of the footer isn't its leaf's, or lies outside the object.
    BadPlaces,
    /// The row groups don't start in ascending order.
    GroupsOutOfOrder,
    /// A record, or its output, is longer than the record limit.
    OverMaxRecordSize,
    /// A record isn't UTF-8.
    InvalidTextEncoding,
    /// A record has over 65,536 fields.
    TooManyFields,
    /// A record is no JSON text.
    JSONParsingError,
    /// A record has brackets more than 64 deep.
    JSONTooDeep,
    /// A page isn't spelled as its format says.
    BadPage,
    /// A page is longer than 4,194,304 bytes.
    PageTooLarge,
    /// A page is in an encoding that isn't read.
    UnsupportedParquetEncoding,
    /// A value isn't of the type that it is read as.
    CastFailed,
    /// A whole number doesn't fit 64 bits.
    IntegerOverflow,
    /// A decimal doesn't fit 38 digits.
    NumberOverflow,
    /// A number is divided by zero.
    DivideByZero,
    /// A timestamp outside the years 1 to 9999.
    TimestampOutOfRange,
    /// An operand is of a kind that the operator doesn't take.
    InvalidOperands,
}

impl Code {
    /// The code as the reply writes it.
    pub fn text(&self) -> &'static str
        ensures text { result.now ≡ code_text self.now }
        ensures short { length result.now ≤ 26 }
    {
        match self {
            Code::MalformedXML => "MalformedXML",
            Code::MissingRequiredParameter => "MissingRequiredParameter",
            Code::InvalidExpressionType => "InvalidExpressionType",
            Code::InvalidRequestParameter => "InvalidRequestParameter",
            Code::InvalidCompressionFormat => "InvalidCompressionFormat",
            Code::InvalidScanRange => "InvalidScanRange",
            Code::UnsupportedScanRangeInput => "UnsupportedScanRangeInput",
            Code::Lexer => "Lexer",
            Code::Syntax => "Syntax",
            Code::UnknownFunction => "UnknownFunction",
            Code::UnsupportedType => "UnsupportedType",
            Code::AggregateMixed => "AggregateMixed",
            Code::BadEscape => "BadEscape",
            Code::TooLong => "TooLong",
            Code::TooDeep => "TooDeep",
            Code::TooMany => "TooMany",
            Code::NotBuilt => "NotBuilt",
            Code::UnknownColumn => "UnknownColumn",
            Code::UnsupportedSource => "UnsupportedSource",
            Code::UnsupportedParquetType => "UnsupportedParquetType",
            Code::UnsupportedParquetCodec => "UnsupportedParquetCodec",
            Code::TooManyColumns => "TooManyColumns",
            Code::NotParquet => "NotParquet",
            Code::FooterTooLarge => "FooterTooLarge",
            Code::BadFooter => "BadFooter",
            Code::BadSchema => "BadSchema",
            Code::BadPlaces => "BadPlaces",
            Code::GroupsOutOfOrder => "GroupsOutOfOrder",
            Code::OverMaxRecordSize => "OverMaxRecordSize",
            Code::InvalidTextEncoding => "InvalidTextEncoding",
            Code::TooManyFields => "TooManyFields",
            Code::JSONParsingError => "JSONParsingError",
            Code::JSONTooDeep => "JSONTooDeep",
            Code::BadPage => "BadPage",
            Code::PageTooLarge => "PageTooLarge",
            Code::UnsupportedParquetEncoding => "UnsupportedParquetEncoding",
            Code::CastFailed => "CastFailed",
            Code::IntegerOverflow => "IntegerOverflow",
            Code::NumberOverflow => "NumberOverflow",
            Code::DivideByZero => "DivideByZero",
            Code::TimestampOutOfRange => "TimestampOutOfRange",
            Code::InvalidOperands => "InvalidOperands",
        }
    }
}

/// The message of an Error event: the code, and the place in bytes.
pub fn message(code: Code, at: u64) -> ArrayString<64>
    ensures { result.bytes ≡ message code at }
{
    let mut digits = Buffer::new();
    let mut message = ArrayString::new();
    message.push_str(code.text());
    message.push_str(" at byte ");
    message.push_str(digits.format(at));
    message
}
