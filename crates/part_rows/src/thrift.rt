//! Structs of the footer of a Parquet file.

use case_tables::{Row, part, show};
use std::alloc::Global;
use std::test::Fail;
use thrift_compact::{Kind, Reader, ThriftFault, varint};

/// A footer, and the place of a struct in it: its fields, each with its number, its kind and its value, and the place behind it
/// from its front on. A value that is no number stands as the count of its bytes, which are passed over.
pub(crate) fn tell_struct(alloc: Global, row: &Row) -> Result<String, Fail> {
    let mut text = String::new(alloc);
    let start = usize::try_from(row.number(1)?)?;
    let bytes = row.bytes(0)?.get(start..).unwrap_or(&[]);
    let mut found = [(0, Kind::Struct, 0); 12];
    match find_fields(bytes, &mut found) {
        Ok((count, len)) => {
            for (number, kind, value) in found.iter().take(count) {
                part(&mut text)?;
                write!(text, "{number} {kind:?} {value}")?;
            }
            write!(text, ", {len} bytes")?;
        }
        Err(fault) => write!(text, "{fault:?}")?,
    }
    Ok(text)
}

type Found = (i16, Kind, i64);

/// Finds the fields of the struct at the front of the bytes, as many as there is room for: how many, and the place behind them.
fn find_fields(bytes: &[u8], found: &mut [Found]) -> Result<(usize, usize), ThriftFault> {
    let mut reader = Reader::over(bytes);
    let mut count = 0usize;
    for entry in found.iter_mut() {
        let Some((number, kind)) = reader.field()? else {
            break;
        };
        let before = reader.at();
        let value = if kind == Kind::I32 || kind == Kind::I64 {
            reader.int(kind)?
        } else {
            reader.skip(kind)?;
            i64::try_from(reader.at() - before).unwrap_or(0)
        };
        *entry = (number, kind, value);
        count = count.saturating_add(1);
    }
    Ok((count, reader.at()))
}

/// A footer, whose second field is a list of structs, the first of which holds a name and a number: what each call gives.
pub(crate) fn tell_calls(alloc: Global, row: &Row) -> Result<String, Fail> {
    let mut text = String::new(alloc);
    let mut reader = Reader::over(row.bytes(0)?);
    let Some((number, kind)) = reader.field()? else {
        return Err(Fail::new("no version"));
    };
    let version = reader.int(kind)?;
    write!(text, "{number} {kind:?} {version}")?;
    let Some((number, kind)) = reader.field()? else {
        return Err(Fail::new("no schema"));
    };
    let (member, size) = reader.list()?;
    write!(text, ", {number} {kind:?} of {size} {member:?}")?;
    reader.enter()?;
    let Some((number, kind)) = reader.field()? else {
        return Err(Fail::new("no name"));
    };
    write!(text, ", {number} {kind:?} ")?;
    show(&mut text, reader.bytes()?)?;
    let Some((number, kind)) = reader.field()? else {
        return Err(Fail::new("no number"));
    };
    reader.skip(kind)?;
    let last = reader.field()?;
    let at = reader.at();
    write!(text, ", {number} {kind:?}, {last:?} at {at}")?;
    Ok(text)
}

/// Bytes: the number of the varint in front, and its length.
pub(crate) fn tell_varint(alloc: Global, row: &Row) -> Result<String, Fail> {
    let (number, len) = varint(row.bytes(0)?)?;
    Ok(format!(in alloc; "{number}, {len} bytes")?)
}
