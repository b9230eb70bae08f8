//! The order of calls on the outside as a whole, and the real things.
ghost use Rattle.std.specs.Prelude.{◌≤◌, IfOk, IfSome, length};

use case_tables::{Row, part, show};
use select_ports::{
    Failed, FileStore, Found, MemObject, MemSink, MemSource, MemStore, Sink, Source, StdSink,
    StdSource, Store, write_all,
};
use std::alloc::Global;
use std::io;
use std::io::{ErrorKind, Read};
use std::rt::Files;
use std::test::Fail;

/// Opens an object and reads from a place of it on; nothing where it is missing or shorter.
fn open_and_read<S: Store>(
    store: &mut S,
    name: &str,
    at: u64,
    buf: &mut [u8],
) -> Result<Option<usize>, Failed>
    ensures { IfOk result (λ o. IfSome o (λ n. n ≤ length buf.new)) }
{
    match store.open(name)? {
        Found::Size(size) => {
            if size < at {
                return Ok(None);
            }
            let n = store.read_at(at, buf)?;
            Ok(Some(n))
        }
        Found::Missing => Ok(None),
    }
}

/// Adds the bytes that were read, or a word for what came in their place.
fn show_read(
    text: &mut String,
    outcome: Result<Option<usize>, Failed>,
    buf: &[u8],
) -> Result<(), Fail>
    requires { IfOk outcome (λ o. IfSome o (λ n. n ≤ length buf.now)) }
{
    part(text)?;
    match outcome {
        Ok(Some(n)) => show(text, &buf[..n])?,
        Ok(None) => text.push_str("missing")?,
        Err(Failed) => text.push_str("failed")?,
    }
    Ok(())
}

/// What a store gives for the fields of a row from one on: a name, `:` and a place, from which at most ten bytes are read.
fn show_reads<S: Store>(
    store: &mut S,
    row: &Row,
    first: usize,
    text: &mut String,
) -> Result<(), Fail> {
    for field in first..row.count() {
        let (name, at) = row.text(field)?.split_once(':').ok_or("no place")?;
        let mut buf = [0u8; 10];
        let outcome = open_and_read(store, name, at.parse::<u64>()?, &mut buf);
        show_read(text, outcome, &buf)?;
    }
    Ok(())
}

/// Reads of two objects of one name in memory, in pieces of 3, 1 and then 4 bytes; the third and the seventh call fail.
pub(crate) fn tell_memory(alloc: Global, row: &Row) -> Result<String, Fail> {
    let mut text = String::new(alloc);
    let first = object(alloc, "a", b"abcdefghij")?;
    let second = object(alloc, "a", b"zz")?;
    let objects = Vec::from_array(alloc, [first, second])?;
    let lengths = Vec::from_array(alloc, [3, 1, 4])?;
    let fails = Vec::from_array(alloc, [3, 7])?;
    let mut store = MemStore::new(objects, lengths, fails);
    show_reads(&mut store, row, 0, &mut text)?;
    Ok(text)
}

fn object(alloc: Global, name: &str, bytes: &[u8]) -> Result<MemObject, Fail> {
    let name = String::from_str(alloc, name)?;
    let bytes = Vec::from_slice(alloc, bytes)?;
    Ok(MemObject { name, bytes })
}

/// Reads of the files of a folder.
pub(crate) fn tell_files(rt: &(impl Files + AllocGlobal), row: &Row) -> Result<String, Fail> {
    let mut text = String::new(rt.alloc());
    let mut store = FileStore::new(rt, rt.alloc(), row.text(0)?);
    show_reads(&mut store, row, 1, &mut text)?;
    Ok(text)
}

/// What an input gives in so many reads of at most four bytes.
fn show_given<I: Source>(source: &mut I, reads: u64, text: &mut String) -> Result<(), Fail> {
    for _ in 0..reads {
        let mut buf = [0u8; 4];
        let outcome = source.read(&mut buf).map(Some);
        show_read(text, outcome, &buf)?;
    }
    Ok(())
}

/// A kind of input, the bytes that it holds, and how many reads there are.
pub(crate) fn tell_input(alloc: Global, row: &Row) -> Result<String, Fail> {
    let mut text = String::new(alloc);
    let bytes = row.bytes(1)?;
    let reads = row.number(2)?;
    match row.text(0)? {
        // In pieces of two bytes and then one; the second read fails.
        "memory" => {
            let bytes = Vec::from_slice(alloc, bytes)?;
            let lengths = Vec::from_array(alloc, [2, 1])?;
            let fails = Vec::from_array(alloc, [2])?;
            show_given(&mut MemSource::new(bytes, lengths, fails), reads, &mut text)?;
        }
        "reader" => show_given(&mut StdSource::new(bytes), reads, &mut text)?,
        "interrupted" => {
            show_given(
                &mut StdSource::new(Interrupted { times: 2 }),
                reads,
                &mut text,
            )?;
        }
        _ => return Err(Fail::new("no input")),
    }
    Ok(text)
}

/// A reader whose reads a signal interrupts so many times before the end.
#[derive(Drop)]
struct Interrupted {
    times: u8,
}

impl Read for Interrupted {
    fn read(&mut self, _buf: &mut [u8]) -> io::Result<usize> {
        if self.times == 0 {
            return Ok(0);
        }
        self.times -= 1;
        Err(io::Error::from(ErrorKind::Interrupted))
    }
}

/// How many bytes an output takes of each field from the second on.
fn show_taken<O: Sink>(sink: &mut O, row: &Row, text: &mut String) -> Result<(), Fail> {
    for field in 1..row.count() {
        part(text)?;
        match sink.write(row.bytes(field)?) {
            Ok(count) => write!(text, "{count}")?,
            Err(Failed) => text.push_str("failed")?,
        }
    }
    Ok(())
}

/// A kind of output, and the bytes of each write: how many are taken, and what is held in the end.
pub(crate) fn tell_output(alloc: Global, row: &Row) -> Result<String, Fail> {
    let mut text = String::new(alloc);
    match row.text(0)? {
        // Behind an `x`, in pieces of one byte and then three; the second write fails. Seven bytes more are then written whole.
        "memory" => {
            let written = Vec::from_slice(alloc, b"x")?;
            let lengths = Vec::from_array(alloc, [1, 3])?;
            let fails = Vec::from_array(alloc, [2])?;
            let mut sink = MemSink::new(written, lengths, fails);
            show_taken(&mut sink, row, &mut text)?;
            write_all(&mut sink, b"1234567")?;
            part(&mut text)?;
            show(&mut text, sink.written())?;
        }
        // With room for three bytes.
        "room" => {
            let mut room = [0u8; 3];
            show_taken(&mut StdSink::new(room.as_mut_slice()), row, &mut text)?;
            part(&mut text)?;
            show(&mut text, &room)?;
        }
        _ => return Err(Fail::new("no output")),
    }
    Ok(text)
}
