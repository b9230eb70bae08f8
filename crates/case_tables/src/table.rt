//! Tables of cases, which are files of the folder that the program runs in.
//!
//! A row is a line that doesn't begin with `#`, and its fields are parted by tabs. In a field `\n`, `\r`, `\t` and `\xHH` stand
//! for a byte, and `\e` for none. A field `@NAME` is the bytes of the file NAME, and `@NAME:COUNT` the first of them.

use std::alloc::Global;
use std::fs;
use std::rt::Files;
use std::str::from_utf8;
use std::test::Fail;

/// A case: the bytes of its fields, and the number of its line.
#[derive(Debug, Drop)]
pub struct Row {
    /// The number of its line in the table's file.
    pub line: usize,
    fields: Vec<Vec<u8>>,
}

impl Row {
    /// How many fields there are.
    pub fn count(&self) -> usize {
        self.fields.len()
    }

    /// The bytes of a field.
    pub fn bytes(&self, field: usize) -> Result<&[u8], Fail> {
        match self.fields.get(field) {
            Some(bytes) => Ok(bytes.as_slice()),
            None => Err(Fail::new("a field is missing")),
        }
    }

    /// A field as a text.
    pub fn text(&self, field: usize) -> Result<&str, Fail> {
        let bytes = self.bytes(field)?;
        Ok(from_utf8(bytes)?)
    }

    /// A field as a number.
    pub fn number(&self, field: usize) -> Result<u64, Fail> {
        let text = self.text(field)?;
        Ok(text.parse::<u64>()?)
    }

    /// The bytes of the fields from one on, one after another.
    pub fn joined(&self, alloc: Global, first: usize) -> Result<Vec<u8>, Fail> {
        let mut all = Vec::new(alloc);
        for bytes in self.fields.iter().skip(first) {
            all.extend_from_slice(bytes.as_slice())?;
        }
        Ok(all)
    }
}

/// The cases of a table.
pub fn rows(rt: &(impl Files + AllocGlobal), table: &str) -> Result<Vec<Row>, Fail> {
    let text = fs::read_to_string(rt, table)?;
    let mut rows = Vec::new(rt.alloc());
    let mut line = 0usize;
    for spelled in text.as_str().lines() {
        line = line.saturating_add(1);
        if !spelled.starts_with('#') {
            let fields = fields(rt, spelled)?;
            rows.push(Row { line, fields })?;
        }
    }
    Ok(rows)
}

fn fields(rt: &(impl Files + AllocGlobal), row: &str) -> Result<Vec<Vec<u8>>, Fail> {
    let mut fields = Vec::new(rt.alloc());
    for field in row.split('\t') {
        let bytes = match field.strip_prefix('@') {
            Some(file) => contents(rt, file)?,
            None => spelled(rt.alloc(), field)?,
        };
        fields.push(bytes)?;
    }
    Ok(fields)
}

/// The bytes of a file, or so many of the first of them.
fn contents(rt: &(impl Files + AllocGlobal), file: &str) -> Result<Vec<u8>, Fail> {
    let Some((name, count)) = file.split_once(':') else {
        return Ok(fs::read(rt, file)?);
    };
    let mut bytes = fs::read(rt, name)?;
    bytes.truncate(count.parse::<usize>()?);
    Ok(bytes)
}

/// The bytes that a field spells.
fn spelled(alloc: Global, field: &str) -> Result<Vec<u8>, Fail> {
    let mut bytes = Vec::new(alloc);
    let mut is_first = true;
    for part in field.split('\\') {
        if is_first {
            bytes.extend_from_slice(part.as_bytes())?;
        } else {
            add_escaped(&mut bytes, part.as_bytes())?;
        }
        is_first = false;
    }
    Ok(bytes)
}

/// Adds the byte of an escape and the bytes behind it.
fn add_escaped(bytes: &mut Vec<u8>, part: &[u8]) -> Result<(), Fail> {
    let rest = match part {
        [b'n', rest @ ..] => {
            bytes.push(b'\n')?;
            rest
        }
        [b'r', rest @ ..] => {
            bytes.push(b'\r')?;
            rest
        }
        [b't', rest @ ..] => {
            bytes.push(b'\t')?;
            rest
        }
        [b'x', high, low, rest @ ..] => {
            bytes.push(byte_of(*high, *low)?)?;
            rest
        }
        [b'e', rest @ ..] => rest,
        _ => return Err(Fail::new("no escape")),
    };
    bytes.extend_from_slice(rest)?;
    Ok(())
}

/// The byte of two hexadecimal digits.
fn byte_of(high: u8, low: u8) -> Result<u8, Fail> {
    let high = char::from(high).to_digit(16).ok_or("no digit")?;
    let low = char::from(low).to_digit(16).ok_or("no digit")?;
    Ok(u8::try_from(high * 16 + low)?)
}
