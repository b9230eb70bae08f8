//! A store over the files of a folder.
ghost use Rattle.std.specs.Prelude.{◌≡◌, ◌-◌, ◌<◌, ◌≤◌, None, Ok, IfOk, length, not};
ghost use Rattle.std.specs.Bool.{OnTrue};
ghost use Rattle.select_ports.specs.Causes.{HasCause, Counted};
ghost use Rattle.select_ports.specs.Memory.{CountsFailure, size_left};
ghost use Rattle.select_ports.specs.Names.{is_plain};
ghost use Rattle.select_ports.specs.Stored.{IsWithin, Opens, CountsMissing, ReadsAt};

use crate::count::fault;
use crate::retry::read_once;
use crate::{Failed, Found, Store, is_plain_name};
use std::alloc::Global;
use std::fs::OpenFile;
use std::io::{ErrorKind, Read, Seek, SeekFrom};
use std::marker::Model;
use std::path::Path;
use std::rt::Files;
use std::{fs, io};

/// An open file, and its size when it was opened.
#[derive(Drop)]
struct OpenedFile<F> {
    file: F,
    size: u64,
}

impl<F: Read + Seek> OpenedFile<F> {
    /// Reads from a place on, and no further than the size. To read nothing where there should be something is an error.
    fn read(&mut self, at: u64, buf: &mut [u8]) -> io::Result<usize>
        requires { at ≤ self.old.size }
        ensures size { self.new.size ≡ self.old.size }
        ensures within { IfOk result (λ n. n ≤ length buf.old) }
        ensures below { IfOk result (λ n. n ≤ self.old.size - at) }
        ensures some { IfOk result (λ n. at < self.old.size → 0 < length buf.old → 0 < n) }
    {
        let room = (self.size - at).min(buf.len() as u64) as usize;
        if room == 0 {
            return Ok(0);
        }
        self.file.seek(SeekFrom::Start(at))?;
        match read_once(&mut self.file, &mut buf[..room]) {
            Ok(0) => Err(io::Error::from(ErrorKind::UnexpectedEof)),
            result => result,
        }
    }
}

/// The files of a folder and of the folders in it, by their paths from the folder on, with `/` between the segments.
///
/// A name is missing where it isn't plain, where no file has it, and where what has it is no file, such as a folder. Every
/// other error of the system, and want of memory for the path, is a failure.
#[derive(Drop)]
pub struct FileStore<'a, R: Files> {
    rt: &'a R,
    alloc: Global,
    folder: &'a str,
    opened: Option<OpenedFile<R::File>>,
    faults: u64,
    taken: u64,
    absent: u64,
}

impl<'a, R: Files> Model for FileStore<'a, R> {
    ghost use Rattle.std.specs.Prelude.{None};
    ghost use Rattle.std.specs.Option.{option_map};
    ghost use Rattle.select_ports.specs.Real.{FileState};

    ghost Value = { FileState };

    ghost view = { λ s. record {
      current = option_map (λ file. (file.size, None)) s.opened;
      faults = s.faults;
      taken = s.taken;
      absent = s.absent;
    } };
}

impl<'a, R: Files> FileStore<'a, R> {
    /// A store over the folder, of which nothing is open. An empty text stands for the working folder. The allocator serves the path of each name that is opened.
    pub fn new(rt: &'a R, alloc: Global, folder: &'a str) -> FileStore<'a, R>
        ensures current { result.current ≡ None }
        ensures faults { result.faults ≡ 0 }
        ensures taken { result.taken ≡ 0 }
        ensures absent { result.absent ≡ 0 }
    {
        FileStore {
            rt,
            alloc,
            folder,
            opened: None,
            faults: 0,
            taken: 0,
            absent: 0,
        }
    }

    /// The file of the name, or nothing where none has it.
    fn find(&self, name: &str) -> io::Result<Option<OpenedFile<R::File>>> {
        let path = Path::new(self.folder).join(self.alloc, name)?;
        match open_file(self.rt, path.as_path()) {
            Err(error) if is_absence(&error) => Ok(None),
            result => result,
        }
    }
}

/// The file at the path, or nothing where something else is there.
fn open_file<R: Files>(rt: &R, path: Path<'_>) -> io::Result<Option<OpenedFile<R::File>>> {
    if !fs::metadata(rt, path)?.is_file() {
        return Ok(None);
    }
    let file = fs::open(rt, path)?;
    let size = file.metadata()?.len();
    Ok(Some(OpenedFile { file, size }))
}

/// Whether the error says that no file has the path: there is none, a file stands where a folder should, or the path is
/// longer than any.
fn is_absence(error: &io::Error) -> bool {
    matches!(
        error.kind(),
        ErrorKind::NotFound | ErrorKind::NotADirectory | ErrorKind::InvalidFilename
    )
}

impl<'a, R: Files> Store for FileStore<'a, R> {
    ghost use Rattle.std.specs.Prelude.{None};

    ghost held = { λ s. None };

    ghost current = { λ s. s.current };

    ghost faults = { λ s. s.faults };

    ghost taken = { λ s. s.taken };

    ghost absent = { λ s. s.absent };

    fn open(&mut self, name: &str) -> Result<Found, Failed>
        ensures found { Opens None name.now result self.new.current }
        ensures faults { HasCause self.old.faults self.new.faults result }
        ensures taken { self.new.taken ≡ self.old.taken }
        ensures absent { CountsMissing self.old.absent self.new.absent result }
        ensures failures { CountsFailure self.old.faults self.new.faults result }
        ensures barred { OnTrue (not (is_plain name.now)) (result ≡ Ok Found.Missing) }
    {
        self.opened = None;
        if !is_plain_name(name) {
            self.absent = self.absent.saturating_add(1);
            return Ok(Found::Missing);
        }
        let Ok(found) = self.find(name) else {
            return Err(fault(&mut self.faults));
        };
        let Some(object) = found else {
            self.absent = self.absent.saturating_add(1);
            return Ok(Found::Missing);
        };
        let size = object.size;
        self.opened = Some(object);
        Ok(Found::Size(size))
    }

    fn read_at(&mut self, at: u64, buf: &mut [u8]) -> Result<usize, Failed>
        requires { IsWithin self.old.current at }
        ensures current { self.new.current ≡ self.old.current }
        ensures bytes { IfOk result (λ n. ReadsAt self.old.current at n buf.new) }
        ensures faults { HasCause self.old.faults self.new.faults result }
        ensures taken { Counted self.old.taken self.new.taken result }
        ensures absent { self.new.absent ≡ self.old.absent }
        ensures failures { CountsFailure self.old.faults self.new.faults result }
        ensures below { IfOk result (λ n. n ≤ size_left self.old.current at) }
    {
        let Some(mut object) = self.opened.take() else {
            unreachable!();
        };
        let result = object.read(at, buf);
        self.opened = Some(object);
        let Ok(n) = result else {
            return Err(fault(&mut self.faults));
        };
        self.taken = self.taken.saturating_add(n as u64);
        Ok(n)
    }
}
