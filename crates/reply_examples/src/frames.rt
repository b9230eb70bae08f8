//! Frames that are written, and frames that are read back.

use case_tables::{Row, show};
use event_frame::{Counts, EventView, FrameReader, FrameWriter, crc32};
use select_ports::{MemSink, Plain};
use std::alloc::Global;
use std::test::Fail;

/// Bytes: their CRC.
pub(crate) fn tell_crc(alloc: Global, row: &Row) -> Result<String, Fail> {
    let crc = crc32(row.bytes(0)?);
    Ok(format!(in alloc; "{crc:08x}")?)
}

/// Calls of one writer: the frames.
pub(crate) fn tell_frames(alloc: Global, row: &Row) -> Result<String, Fail> {
    let mut text = String::new(alloc);
    let mut sink = MemSink::new(Vec::new(alloc), Vec::new(alloc), Vec::new(alloc));
    let mut writer = FrameWriter::make(alloc)?;
    for field in 0..row.count() {
        write_frame(&mut writer, &mut sink, row.text(field)?)?;
    }
    show(&mut text, sink.written())?;
    Ok(text)
}

/// A call of the writer: the name of an event and what it holds.
fn write_frame(writer: &mut FrameWriter, sink: &mut MemSink, call: &str) -> Result<(), Fail> {
    let mut out = Plain { sink };
    let (name, holds) = call.split_once(' ').unwrap_or((call, ""));
    match name {
        "records" if holds.len() <= 65_536 => writer.records(&mut out, holds.as_bytes())?,
        "stats" => writer.stats(&mut out, &counts(holds)?)?,
        "progress" => writer.progress(&mut out, &counts(holds)?)?,
        "end" => writer.end(&mut out)?,
        "error" => write_error(writer, sink, holds)?,
        _ => return Err(Fail::new("no event")),
    }
    Ok(())
}

/// A code and a message.
fn write_error(writer: &mut FrameWriter, sink: &mut MemSink, holds: &str) -> Result<(), Fail> {
    let (code, message) = holds.split_once(' ').ok_or("no message")?;
    if code.len() <= 256 && message.len() <= 256 {
        writer.error(&mut Plain { sink }, code, message)?;
    }
    Ok(())
}

/// Three counts.
fn counts(holds: &str) -> Result<Counts, Fail> {
    let (scanned, rest) = holds.split_once(' ').ok_or("one count")?;
    let (processed, returned) = rest.split_once(' ').ok_or("two counts")?;
    Ok(Counts {
        scanned: scanned.parse::<u128>()?,
        processed: processed.parse::<u128>()?,
        returned: returned.parse::<u128>()?,
    })
}

/// A frame: how many bytes are taken and its event, or its fault.
pub(crate) fn tell_event(alloc: Global, row: &Row) -> Result<String, Fail> {
    let mut text = String::new(alloc);
    let mut reader = FrameReader::make(alloc)?;
    match reader.feed(row.bytes(0)?) {
        Ok(count) => {
            let inside = reader.inside();
            write!(text, "{count} bytes, inside {inside}, ")?;
            show_event(&mut text, reader.take())?;
        }
        Err(fault) => {
            let code = fault.code;
            let at = fault.at;
            write!(text, "{code:?} at {at}")?;
        }
    }
    Ok(text)
}

fn show_event(text: &mut String, event: Option<EventView<'_>>) -> Result<(), Fail> {
    let Some(event) = event else {
        text.push_str("no event")?;
        return Ok(());
    };
    match event {
        EventView::Records(payload) => {
            text.push_str("Records ")?;
            show(text, payload)?;
        }
        EventView::Cont => text.push_str("Cont")?,
        EventView::Progress(payload) => show_counts(text, "Progress", payload)?,
        EventView::Stats(payload) => show_counts(text, "Stats", payload)?,
        EventView::End => text.push_str("End")?,
        EventView::Error { code, message } => {
            text.push_str("Error ")?;
            show(text, code)?;
            text.push(' ')?;
            show(text, message)?;
        }
    }
    Ok(())
}

fn show_counts(text: &mut String, name: &str, payload: &[u8]) -> Result<(), Fail> {
    match Counts::read(payload, name) {
        Some(counts) => {
            let scanned = counts.scanned;
            let processed = counts.processed;
            let returned = counts.returned;
            write!(text, "{name} {scanned} {processed} {returned}")?;
        }
        None => write!(text, "{name} without counts")?,
    }
    Ok(())
}
