//! What a column's values are.
ghost use Rattle.std.specs.Prelude.{◌≡◌, pos};
ghost use Rattle.parquet_metadata.specs.Kinds.{between, or_zero, timed, signed_as, annotation_of_logical, annotation_of_converted, annotated, decimal_in, boolean_kind, word_kind, int96_kind, bytes_kind, fixed_in, fixed_kind, physical_kind, is_group, occurs_once, kind_by_type, kind_of_element};

use crate::element::SchemaElement;
use crate::logical::{LogicalType, TimeUnit};

/// The width of a little-endian word.
#[derive(Clone, Copy, Debug, PartialEq, Eq)]
pub enum Width {
    Bits32,
    Bits64,
}

/// How a decimal's unscaled value is stored.
#[derive(Clone, Copy, Debug, PartialEq, Eq)]
pub enum Form {
    Word(Width),
    /// Big-endian bytes in two's complement, with a length before them.
    Bytes,
    /// So many such bytes.
    Fixed(u32),
}

/// What a column's values are (Apache Parquet, "Logical Types").
#[derive(Clone, Copy, Debug, PartialEq, Eq)]
pub enum ColumnKind {
    Bool,
    Signed(Width),
    Unsigned(Width),
    Date,
    /// Milliseconds, microseconds and nanoseconds since 1970-01-01, in 64 bits.
    Millis,
    Micros,
    Nanos,
    /// Nanoseconds of the day and the Julian day.
    Int96,
    Text,
    Decimal { form: Form, scale: u8 },
    /// None of these: the column can't be read.
    Unsupported,
}

/// What annotates a physical type.
#[derive(Clone, Copy, Debug, PartialEq, Eq)]
pub(crate) enum Annotation {
    Absent,
    Unknown,
    Text,
    Signed,
    Unsigned,
    Date,
    Millis,
    Micros,
    Nanos,
    /// With the scale as it is told.
    Decimal(i64),
}

fn between(low: i64, high: i64, number: i64) -> bool
    ensures { result ≡ between low high number }
{
    low <= number && number <= high
}

fn or_zero(scale: Option<i64>) -> i64
    ensures { result ≡ or_zero scale }
{
    match scale {
        None => 0,
        Some(scale) => scale,
    }
}

fn timed(unit: Option<TimeUnit>) -> Annotation
    ensures { result ≡ timed unit }
{
    match unit {
        None => Annotation::Unknown,
        Some(TimeUnit::Millis) => Annotation::Millis,
        Some(TimeUnit::Micros) => Annotation::Micros,
        Some(TimeUnit::Nanos) => Annotation::Nanos,
    }
}

fn signed_as(signed: Option<bool>) -> Annotation
    ensures { result ≡ signed_as signed }
{
    match signed {
        None => Annotation::Unknown,
        Some(true) => Annotation::Signed,
        Some(false) => Annotation::Unsigned,
    }
}

fn annotation_of_logical(logical: LogicalType) -> Annotation
    ensures { result ≡ annotation_of_logical logical }
{
    match logical {
        LogicalType::Other => Annotation::Unknown,
        LogicalType::Text => Annotation::Text,
        LogicalType::Decimal(scale) => Annotation::Decimal(or_zero(scale)),
        LogicalType::Date => Annotation::Date,
        LogicalType::Timestamp(unit) => timed(unit),
        LogicalType::Integer(signed) => signed_as(signed),
    }
}

fn annotation_of_converted(converted: i64, scale: Option<i64>) -> Annotation
    ensures { result ≡ annotation_of_converted converted scale }
{
    match converted {
        0 | 4 | 19 => Annotation::Text,
        5 => Annotation::Decimal(or_zero(scale)),
        6 => Annotation::Date,
        9 => Annotation::Millis,
        10 => Annotation::Micros,
        _ => {
            if between(11, 14, converted) {
                Annotation::Unsigned
            } else if between(15, 18, converted) {
                Annotation::Signed
            } else {
                Annotation::Unknown
            }
        }
    }
}

fn annotated(logical: Option<LogicalType>, converted: Option<i64>, scale: Option<i64>) -> Annotation
    ensures { result ≡ annotated logical converted scale }
{
    match logical {
        Some(logical) => annotation_of_logical(logical),
        None => match converted {
            Some(converted) => annotation_of_converted(converted, scale),
            None => Annotation::Absent,
        },
    }
}

fn decimal_in(form: Form, scale: i64) -> ColumnKind
    ensures { result ≡ decimal_in form scale }
{
    match u8::try_from(scale) {
        Ok(scale) => {
            if scale <= 38 {
                ColumnKind::Decimal { form, scale }
            } else {
                ColumnKind::Unsupported
            }
        }
        Err(_) => ColumnKind::Unsupported,
    }
}

fn boolean_kind(annotation: Annotation) -> ColumnKind
    ensures { result ≡ boolean_kind annotation }
{
    match annotation {
        Annotation::Absent => ColumnKind::Bool,
        _ => ColumnKind::Unsupported,
    }
}

fn word_kind(width: Width, annotation: Annotation) -> ColumnKind
    ensures { result ≡ word_kind width annotation }
{
    match annotation {
        Annotation::Absent | Annotation::Signed => ColumnKind::Signed(width),
        Annotation::Unsigned => ColumnKind::Unsigned(width),
        Annotation::Decimal(scale) => decimal_in(Form::Word(width), scale),
        _ => match (width, annotation) {
            (Width::Bits32, Annotation::Date) => ColumnKind::Date,
            (Width::Bits64, Annotation::Millis) => ColumnKind::Millis,
            (Width::Bits64, Annotation::Micros) => ColumnKind::Micros,
            (Width::Bits64, Annotation::Nanos) => ColumnKind::Nanos,
            _ => ColumnKind::Unsupported,
        },
    }
}

fn int96_kind(annotation: Annotation) -> ColumnKind
    ensures { result ≡ int96_kind annotation }
{
    match annotation {
        Annotation::Absent => ColumnKind::Int96,
        _ => ColumnKind::Unsupported,
    }
}

fn bytes_kind(annotation: Annotation) -> ColumnKind
    ensures { result ≡ bytes_kind annotation }
{
    match annotation {
        Annotation::Absent | Annotation::Text => ColumnKind::Text,
        Annotation::Decimal(scale) => decimal_in(Form::Bytes, scale),
        _ => ColumnKind::Unsupported,
    }
}

fn fixed_in(length: i64, scale: i64) -> ColumnKind
    ensures { result ≡ fixed_in length scale }
{
    match u32::try_from(length) {
        Ok(length) => {
            if 0 < length && length <= 0x7fff_ffff {
                decimal_in(Form::Fixed(length), scale)
            } else {
                ColumnKind::Unsupported
            }
        }
        Err(_) => ColumnKind::Unsupported,
    }
}

fn fixed_kind(length: Option<i64>, annotation: Annotation) -> ColumnKind
    ensures { result ≡ fixed_kind length annotation }
{
    let Some(length) = length else {
        return ColumnKind::Unsupported;
    };
    match annotation {
        Annotation::Decimal(scale) => fixed_in(length, scale),
        _ => ColumnKind::Unsupported,
    }
}

fn physical_kind(physical: i64, length: Option<i64>, annotation: Annotation) -> ColumnKind
    ensures { result ≡ physical_kind physical length annotation }
{
    match physical {
        0 => boolean_kind(annotation),
        1 => word_kind(Width::Bits32, annotation),
        2 => word_kind(Width::Bits64, annotation),
        3 => int96_kind(annotation),
        6 => bytes_kind(annotation),
        7 => fixed_kind(length, annotation),
        _ => ColumnKind::Unsupported,
    }
}

/// Whether an element is a group of others.
pub(crate) fn is_group(children: Option<i64>) -> bool
    ensures { result ≡ is_group children }
{
    match children {
        None => false,
        Some(number) => number > 0,
    }
}

fn occurs_once(repetition: Option<i64>) -> bool
    ensures { result ≡ occurs_once repetition }
{
    match repetition {
        None => false,
        Some(repetition) => between(0, 1, repetition),
    }
}

fn kind_by_type(physical: Option<i64>, length: Option<i64>, annotation: Annotation) -> ColumnKind
    ensures { result ≡ kind_by_type physical length annotation }
{
    match physical {
        None => ColumnKind::Unsupported,
        Some(physical) => physical_kind(physical, length, annotation),
    }
}

impl SchemaElement {
    /// What the values of a column with this element are. A group, and a column that is neither required nor
    /// optional, can't be read.
    pub fn kind(&self) -> ColumnKind
        ensures { result ≡ kind_of_element self.now }
    {
        if is_group(self.children) || !occurs_once(self.repetition) {
            return ColumnKind::Unsupported;
        }
        let annotation = annotated(self.logical, self.converted, self.scale);
        kind_by_type(self.physical, self.length, annotation)
    }
}
