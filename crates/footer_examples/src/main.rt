//! What no clause says of the footers of Parquet files: reading one on its happy path and each error of it, over files
//! that were worked out elsewhere. Each file is a row of a table in data/, and what comes of it is a line of stdout.
#![tactic(auto)]

ghost use Rattle.std.specs.Prelude.{◌<◌, length};

use case_tables::{Row, Tell, part, tell_tables};
use parquet_footer::{Bounds, Column, ColumnKind, Footer, FooterError, Form, Width};
use select_ports::{Found, MemObject, MemStore, Store};
use std::alloc::Global;
use std::rt::Files;
use std::test::Fail;

/// A row: the most bytes of a read, the number of the call that fails or 0, and the bytes of the file.
struct File;

impl Tell for File {
    fn tell<R: Files + AllocGlobal>(&self, rt: &R, row: &Row) -> Result<String, Fail> {
        let alloc = rt.alloc();
        let mut store = store_of(alloc, row)?;
        let mut told = String::new(alloc);
        match store.open("f") {
            Ok(Found::Size(size)) => match Footer::read(alloc, &mut store, size) {
                Ok(footer) => tell_footer(&mut told, &footer)?,
                Err(error) => tell_error(&mut told, error)?,
            },
            Ok(Found::Missing) | Err(_) => return Err(Fail::new("no object")),
        }
        Ok(told)
    }
}

fn store_of(alloc: Global, row: &Row) -> Result<MemStore, Fail> {
    let most = row.number(0)? as usize;
    if most == 0 {
        return Err(Fail::new("no length"));
    }
    let name = String::from_str(alloc, "f")?;
    let bytes = row.joined(alloc, 2)?;
    let objects = vec![in alloc; MemObject { name, bytes }]?;
    let fails = vec![in alloc; row.number(1)?]?;
    Ok(MemStore::new(objects, vec![in alloc; most]?, fails))
}

fn tell_error(told: &mut String, error: FooterError) -> Result<(), Fail> {
    match error {
        FooterError::Failed => told.push_str("Failed")?,
        FooterError::OutOfMemory => return Err(Fail::new("out of memory")),
        FooterError::NotParquet => told.push_str("NotParquet")?,
        FooterError::FooterTooLarge => told.push_str("FooterTooLarge")?,
        FooterError::BadFooter { at } => write!(told, "BadFooter {at}")?,
        FooterError::BadSchema => told.push_str("BadSchema")?,
        FooterError::BadPlaces => told.push_str("BadPlaces")?,
        FooterError::GroupsOutOfOrder => told.push_str("GroupsOutOfOrder")?,
    }
    Ok(())
}

fn tell_footer(told: &mut String, footer: &Footer) -> Result<(), Fail> {
    for column in footer.columns() {
        part(told)?;
        tell_column(told, column)?;
    }
    for k in 0..footer.groups() {
        part(told)?;
        tell_group(told, footer, k)?;
    }
    Ok(())
}

fn tell_column(told: &mut String, column: &Column) -> Result<(), Fail> {
    told.push_str(column.name.text())?;
    told.push(' ')?;
    tell_kind(told, column.kind)?;
    if column.optional {
        told.push_str(" optional")?;
    }
    if column.compressed {
        told.push_str(" compressed")?;
    }
    Ok(())
}

fn tell_kind(told: &mut String, kind: ColumnKind) -> Result<(), Fail> {
    let name = match kind {
        ColumnKind::Bool => "Bool",
        ColumnKind::Signed(width) => return tell_width(told, "Signed", width),
        ColumnKind::Unsigned(width) => return tell_width(told, "Unsigned", width),
        ColumnKind::Date => "Date",
        ColumnKind::Millis => "Millis",
        ColumnKind::Micros => "Micros",
        ColumnKind::Nanos => "Nanos",
        ColumnKind::Int96 => "Int96",
        ColumnKind::Text => "Text",
        ColumnKind::Decimal { form, scale } => return tell_decimal(told, form, scale),
        ColumnKind::Unsupported => "Unsupported",
    };
    told.push_str(name)?;
    Ok(())
}

fn tell_width(told: &mut String, name: &str, width: Width) -> Result<(), Fail> {
    let width = match width {
        Width::Bits32 => "Bits32",
        Width::Bits64 => "Bits64",
    };
    write!(told, "{name} {width}")?;
    Ok(())
}

fn tell_decimal(told: &mut String, form: Form, scale: u8) -> Result<(), Fail> {
    match form {
        Form::Word(width) => tell_width(told, "Decimal", width)?,
        Form::Bytes => told.push_str("Decimal Bytes")?,
        Form::Fixed(length) => write!(told, "Decimal Fixed {length}")?,
    }
    write!(told, " {scale}")?;
    Ok(())
}

fn tell_group(told: &mut String, footer: &Footer, k: usize) -> Result<(), Fail>
    requires { k < length footer.now.groups }
{
    let rows = footer.group_rows(k);
    let start = footer.group_start(k);
    write!(told, "rows {rows} start {start}:")?;
    for column in 0..footer.columns().len() {
        let start = footer.chunk_start(k, column);
        let bytes = footer.chunk_bytes(k, column);
        write!(told, " {start}+{bytes}")?;
        tell_bounds(told, footer.bounds(k, column))?;
    }
    Ok(())
}

fn tell_bounds(told: &mut String, bounds: Bounds<'_>) -> Result<(), Fail> {
    if let Some(nulls) = bounds.nulls {
        write!(told, " nulls {nulls}")?;
    }
    if let Some(least) = bounds.least {
        told.push_str(" least ")?;
        tell_bytes(told, least)?;
    }
    if let Some(most) = bounds.most {
        told.push_str(" most ")?;
        tell_bytes(told, most)?;
    }
    Ok(())
}

fn tell_bytes(told: &mut String, bytes: &[u8]) -> Result<(), Fail> {
    for byte in bytes {
        let byte = *byte;
        write!(told, "{byte:02x}")?;
    }
    Ok(())
}

fn main(rt: HostRuntime) -> Result<(), Fail> {
    tell_tables(&rt, &[("files.tsv", File)])
}
