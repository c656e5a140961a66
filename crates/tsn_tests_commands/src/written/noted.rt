//! A file system that notes the calls which change it, and of which some fail.

use std::alloc::{AllocError, Allocator, Global};
use std::cell::RefCell;
use std::fs::{Metadata, OpenFile, OpenOptions, Permissions};
use std::io;
use std::io::{Error, ErrorKind, Read, Seek, SeekFrom, Write};
use std::os::unix::fs::PermissionsExt;
use std::path::PathBuf;
use std::rc::Rc;
use std::rt::Files;

/// The file that is made beside `plan` first; it is noted as `new`.
const UNFINISHED: &str = "plan.tsn-unfinished-10";

/// What is at the path `plan`, and at the paths that are numbers: `1` is a link to `plan`, and each greater one to the next lower one.
#[derive(Clone, Copy, PartialEq, Eq)]
pub enum There {
    Nothing,
    /// A file `plan`, which all links lead to.
    File,
    /// A file that all paths open, and that none names.
    Elsewhere,
}

/// The calls that fail, by how they are noted, between semicolons, and how they fail.
#[derive(Clone, Copy)]
pub struct Failing {
    pub calls: &'static str,
    pub kind: ErrorKind,
}

/// The calls so far.
#[derive(Drop)]
struct Notes {
    alloc: Global,
    there: There,
    failing: Failing,
    calls: RefCell<String>,
}

impl Notes {
    /// Notes a call, which may fail.
    fn note(&self, call: &str) -> io::Result<()> {
        self.push(call)?;
        for failing in self.failing.calls.split("; ") {
            if failing == call {
                return Err(Error::from(self.failing.kind));
            }
        }
        Ok(())
    }

    fn push(&self, call: &str) -> Result<(), AllocError> {
        match self.calls.try_borrow_mut() {
            Ok(mut calls) => {
                calls.push_str(call)?;
                calls.push_str("; ")
            }
            Err(_) => Ok(()),
        }
    }

    fn note_path(&self, verb: &str, path: &str) -> io::Result<()> {
        let name = name_of(path);
        self.note(format!(in self.alloc; "{verb} {name}")?.as_str())
    }

    fn note_paths(&self, verb: &str, from: &str, to: &str) -> io::Result<()> {
        let from = name_of(from);
        let to = name_of(to);
        self.note(format!(in self.alloc; "{verb} {from} {to}")?.as_str())
    }
}

fn name_of(path: &str) -> &str {
    if path == UNFINISHED { "new" } else { path }
}

/// The number of a link.
fn number_of(path: &str) -> Option<u32> {
    path.parse().ok()
}

/// The permissions of a file that is made, which `OpenOptions` shows in its `Debug` alone.
fn mode_of(alloc: Global, how: &OpenOptions) -> io::Result<u32> {
    let shown = format!(in alloc; "{how:?}")?;
    let mode = match shown.as_str().split_once("mode: ") {
        Some((_, mode)) => mode.trim_end_matches(" }").parse().ok(),
        None => None,
    };
    mode.ok_or(Error::from(ErrorKind::Unsupported))
}

/// A file system that is noted.
#[derive(Drop)]
pub struct NotedFiles {
    notes: Rc<Notes>,
}

impl NotedFiles {
    /// There was no call yet.
    pub fn new(alloc: Global, there: There, failing: Failing) -> Result<NotedFiles, AllocError> {
        let notes = Notes {
            alloc,
            there,
            failing,
            calls: RefCell::new(String::new(alloc)),
        };
        Ok(NotedFiles {
            notes: Rc::new(alloc, notes)?,
        })
    }

    /// The calls, each before a semicolon.
    pub fn calls(&self) -> String {
        let nothing = String::new(self.notes.alloc);
        match self.notes.calls.try_replace(nothing) {
            Ok(calls) => calls,
            Err(nothing) => nothing,
        }
    }

    /// A file that is noted.
    fn file(&self) -> io::Result<NotedFile> {
        Ok(NotedFile {
            notes: self.notes.clone()?,
        })
    }
}

/// A file of it.
#[derive(Drop)]
pub struct NotedFile {
    notes: Rc<Notes>,
}

impl Read for NotedFile {
    fn read(&mut self, _buffer: &mut [u8]) -> io::Result<usize> {
        Ok(0)
    }
}

impl Write for NotedFile {
    fn write(&mut self, bytes: &[u8]) -> io::Result<usize> {
        let count = bytes.len();
        let call = format!(in self.notes.alloc; "write {count}")?;
        self.notes.note(call.as_str())?;
        Ok(count)
    }

    fn flush(&mut self) -> io::Result<()> {
        Ok(())
    }
}

impl Seek for NotedFile {
    fn seek(&mut self, _to: SeekFrom) -> io::Result<u64> {
        Err(Error::from(ErrorKind::Unsupported))
    }
}

impl OpenFile for NotedFile {
    fn metadata(&self) -> io::Result<Metadata> {
        Ok(Metadata::of_file(0))
    }

    fn set_len(&self, _size: u64) -> io::Result<()> {
        self.notes.note("cut")
    }

    fn sync_all(&self) -> io::Result<()> {
        self.notes.note("sync")
    }

    fn sync_data(&self) -> io::Result<()> {
        self.notes.note("sync data")
    }

    fn set_permissions(&self, permissions: Permissions) -> io::Result<()> {
        let mode = permissions.mode();
        let call = format!(in self.notes.alloc; "mode {mode:o}")?;
        self.notes.note(call.as_str())
    }
}

impl Files for NotedFiles {
    type File = NotedFile;

    type Dir = NotedFile;

    fn open_file(&self, how: &OpenOptions, path: &str) -> io::Result<NotedFile> {
        if how.asks_create_new() {
            let mode = mode_of(self.notes.alloc, how)?;
            let verb = format!(in self.notes.alloc; "make {mode:o}")?;
            self.notes.note_path(verb.as_str(), path)?;
        } else {
            let verb = if how.asks_create() { "create" } else { "open" };
            self.notes.note_path(verb, path)?;
        }
        self.file()
    }

    fn open_dir(&self, _path: &str) -> io::Result<NotedFile> {
        Err(Error::from(ErrorKind::Unsupported))
    }

    fn metadata(&self, _path: &str) -> io::Result<Metadata> {
        if self.notes.there == There::Nothing {
            return Err(Error::from(ErrorKind::NotFound));
        }
        Ok(Metadata::of_file(4))
    }

    fn symlink_metadata(&self, path: &str) -> io::Result<Metadata> {
        if self.notes.there != There::File {
            return Err(Error::from(ErrorKind::NotFound));
        }
        match number_of(path) {
            Some(_) => Ok(Metadata::of_symlink(4)),
            None => Ok(Metadata::of_file(4)),
        }
    }

    fn copy(&self, from: &str, to: &str) -> io::Result<u64> {
        self.notes.note_paths("copy", from, to)?;
        Ok(4)
    }

    fn rename(&self, from: &str, to: &str) -> io::Result<()> {
        self.notes.note_paths("rename", from, to)
    }

    fn remove_file(&self, path: &str) -> io::Result<()> {
        self.notes.note_path("remove", path)
    }

    fn create_dir(&self, path: &str) -> io::Result<()> {
        self.notes.note_path("make folder", path)
    }

    fn remove_dir(&self, path: &str) -> io::Result<()> {
        self.notes.note_path("remove folder", path)
    }

    fn remove_dir_all<B: Allocator>(&self, _alloc: B, path: &str) -> io::Result<()> {
        self.notes.note_path("remove folder", path)
    }

    fn read_link<B: Allocator>(&self, alloc: B, path: &str) -> io::Result<PathBuf<B>> {
        match number_of(path) {
            Some(number) if number > 1 => {
                let next = number - 1;
                let name = format!(in self.notes.alloc; "{next}")?;
                Ok(PathBuf::from_str(alloc, name.as_str())?)
            }
            _ => Ok(PathBuf::from_str(alloc, "plan")?),
        }
    }

    fn chown(&self, path: &str, owner: Option<u32>, group: Option<u32>) -> io::Result<()> {
        let name = name_of(path);
        let owner = id_of(owner);
        let group = id_of(group);
        let call = format!(in self.notes.alloc; "own {name} {owner} {group}")?;
        self.notes.note(call.as_str())
    }
}

/// The number of an owner or a group; the greatest, where it is left as it is.
fn id_of(id: Option<u32>) -> u32 {
    id.unwrap_or(u32::MAX)
}
