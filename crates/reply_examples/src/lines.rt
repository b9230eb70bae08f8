//! Lines of small objects in memory, over reads of several lengths, and the bytes ahead.
ghost use Rattle.std.specs.Prelude.{◌≡◌, ◌<◌, ◌≤◌};
ghost use Rattle.select_ports.specs.Stored.{IsOpen};

use case_tables::{Row, part, show};
use line_window::{Line, Window, is_delimiter};
use select_ports::{Failed, Found, Limits, MemObject, MemStore, Range, Store};
use std::alloc::Global;
use std::test::Fail;

/// An object, its delimiter, the record limit, the first and the last place of a range, and how many bytes are passed as they
/// stand ahead: the next four answers, at reads of each of the lengths.
pub(crate) fn tell_lines(alloc: Global, row: &Row) -> Result<String, Fail> {
    let mut text = String::new(alloc);
    for length in [1, 2, 65_536] {
        part(&mut text)?;
        write!(text, "at {length}:")?;
        show_lines(alloc, row, length, &mut text)?;
    }
    Ok(text)
}

/// A store of one object, named `o`, whose reads hand out so many bytes.
fn store_of(alloc: Global, object: &[u8], length: usize) -> Result<MemStore, Fail>
    requires { 0 < length }
{
    let name = String::from_str(alloc, "o")?;
    let bytes = Vec::from_slice(alloc, object)?;
    let objects = vec![in alloc; MemObject { name, bytes }]?;
    let lengths = vec![in alloc; length]?;
    Ok(MemStore::new(objects, lengths, Vec::new(alloc)))
}

fn show_lines(alloc: Global, row: &Row, length: usize, text: &mut String) -> Result<(), Fail>
    requires { 0 < length }
{
    let mut store = store_of(alloc, row.bytes(0)?, length)?;
    let delimiter = row.bytes(1)?;
    let longest = usize::try_from(row.number(2)?)?;
    if !is_delimiter(delimiter) || longest > 1024 {
        return Err(Fail::new("no delimiter or limit"));
    }
    let mut window = Window::open(alloc, Limits { longest }, delimiter)?;
    let first = row.number(3)?;
    let last = row.number(4)?;
    let passed = usize::try_from(row.number(5)?)?;
    let Ok(Found::Size(size)) = store.open("o") else {
        return Err(Fail::new("no object"));
    };
    if first > last || last >= size || passed > 1024 {
        return Err(Fail::new("no range"));
    }
    window.seek(&mut store, size, Range { first, last })?;
    pass(&mut window, &mut store, passed, text)?;
    answers(&mut window, &mut store, 4, text)
}

/// Passes bytes that stand ahead, where there are some to pass.
fn pass<S: Store>(
    window: &mut Window,
    store: &mut S,
    count: usize,
    text: &mut String,
) -> Result<(), Fail>
    requires object { IsOpen (S.current store.old) window.old.size }
    requires room { count ≤ 1024 }
    ensures current { S.current store.new ≡ S.current store.old }
    ensures size { window.new.size ≡ window.old.size }
{
    if count == 0 {
        return Ok(());
    }
    let lent = window.ahead(store, count)?.len();
    if lent >= count {
        window.pass(count);
    }
    let place = window.place();
    write!(text, " place {place}")?;
    Ok(())
}

/// The next answers, up to the end or a failure, of which there are so many at most.
fn answers<S: Store>(
    window: &mut Window,
    store: &mut S,
    most: usize,
    text: &mut String,
) -> Result<(), Fail>
    requires { IsOpen (S.current store.old) window.old.size }
    ensures current { S.current store.new ≡ S.current store.old }
    ensures size { window.new.size ≡ window.old.size }
{
    for _ in 0..most {
        match window.next(store) {
            Ok(line) => show_line(&line, text)?,
            Err(Failed) => text.push_str(" failed")?,
        }
    }
    Ok(())
}

/// Adds `START+WHOLE=BYTES` for a line, and `START!` for one that is too long.
fn show_line(line: &Line<'_>, text: &mut String) -> Result<(), Fail> {
    match line {
        Line::At {
            start,
            bytes,
            whole,
        } => {
            write!(text, " {start}+{whole}=")?;
            show(text, bytes)?;
        }
        Line::TooLong { start } => write!(text, " {start}!")?,
        Line::End => text.push_str(" .")?,
    }
    Ok(())
}
