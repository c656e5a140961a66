//! Where a path leads to, and how a file there is replaced.
ghost use Rattle.std.specs.Prelude.{◌≡◌, true, false};

use std::alloc::{AllocError, Global};
use std::fmt::Write;
use std::fs::{Metadata, OpenFile, OpenOptions, Permissions};
use std::io::{Error, ErrorKind};
use std::os::unix::fs::{MetadataExt, OpenOptionsExt, PermissionsExt, chown};
use std::path::{Path, PathBuf};
use std::rt::Files;
use std::{fs, io};

// The most links that a path leads through, as Linux has it.
const MOST_LINKS: usize = 40;

// The longest name of a file that the name of an unfinished one is made of, in bytes.
const LONGEST_NAME: usize = 200;

// The numbers of unfinished files, which all have as many digits.
const FIRST_NUMBER: u32 = 10;

const PAST_NUMBERS: u32 = 100;

// What a new file has of the old one that it replaces.
#[derive(Clone, Copy)]
struct Old {
    mode: u32,
    owner: u32,
    group: u32,
}

/// A file that is made anew beside the one that it replaces, or beside none, and then takes its place.
#[derive(Drop)]
pub struct Replacement {
    /// The file that is replaced.
    target: String,
    /// The path of an unfinished file, but for its number.
    stem: String,
    /// The path of the unfinished file.
    path: String,
    old: Option<Old>,
    /// Whether the unfinished file is there.
    is_there: bool,
}

/// Where the bytes for a path go: into a file that replaces what is there; none where that is a device or a pipe, which is
/// opened as it is. It is tried whether they can go there, and nothing is left of it.
pub fn place_of<R: Files>(rt: &R, alloc: Global, path: &str) -> io::Result<Option<Replacement>> {
    match fs::metadata(rt, path) {
        Ok(metadata) if metadata.is_file() => place_of_file(rt, alloc, path, &metadata),
        Ok(metadata) if metadata.is_dir() => {
            // (a folder can't be made as a file, and the system says why)
            fs::create(rt, path)?;
            Ok(None)
        }
        Ok(_) => Ok(None),
        Err(error) if error.kind() == ErrorKind::NotFound && !path.is_empty() => {
            let target = follow(rt, alloc, path)?;
            Ok(Some(tried(rt, alloc, target, None)?))
        }
        Err(error) => Err(error),
    }
}

// A file that is there is replaced, unless its path leads to it by other ways than links.
fn place_of_file<R: Files>(
    rt: &R,
    alloc: Global,
    path: &str,
    metadata: &Metadata,
) -> io::Result<Option<Replacement>> {
    // (who may not write to the file may not replace it)
    drop(OpenOptions::new().write(true).open(rt, path)?);
    let target = follow(rt, alloc, path)?;
    match fs::symlink_metadata(rt, target.as_path()) {
        Ok(found) if is_one(&found, metadata) => {
            let old = Old {
                mode: metadata.mode(),
                owner: metadata.uid(),
                group: metadata.gid(),
            };
            Ok(Some(tried(rt, alloc, target, Some(old))?))
        }
        _ => Ok(None),
    }
}

// Whether both are of one file.
fn is_one(left: &Metadata, right: &Metadata) -> bool {
    left.dev() == right.dev() && left.ino() == right.ino()
}

// The path that links lead to from this one, whether a file is there or not. Behind the last link that it may lead through
// it is looked once more whether that is one.
fn follow<R: Files>(rt: &R, alloc: Global, path: &str) -> io::Result<PathBuf> {
    let mut path = PathBuf::from_str(alloc, path)?;
    for _ in 0..=MOST_LINKS {
        match fs::symlink_metadata(rt, path.as_path()) {
            Ok(metadata) if metadata.is_symlink() => path = step(rt, alloc, path.as_path())?,
            _ => return Ok(path),
        }
    }
    Err(Error::from(ErrorKind::FilesystemLoop))
}

// The path that a link names.
fn step<R: Files>(rt: &R, alloc: Global, link: Path<'_>) -> io::Result<PathBuf> {
    let named = rt.read_link(alloc, link.as_str())?;
    match link.parent() {
        Some(folder) => Ok(folder.join(alloc, named.as_path())?),
        None => Ok(named),
    }
}

// A file that is to replace another, after it was tried whether it can be made.
fn tried<R: Files>(
    rt: &R,
    alloc: Global,
    target: PathBuf,
    old: Option<Old>,
) -> io::Result<Replacement> {
    let stem = stem_of(alloc, target.as_path())?;
    let mut replacement = Replacement {
        target: target.into_string(),
        stem,
        path: String::new(alloc),
        old,
        is_there: false,
    };
    let made = replacement.make(rt);
    replacement.discard(rt);
    drop(made?);
    Ok(replacement)
}

// The path of an unfinished file, but for its number: the target's own, unless its name is so long that it has no room for more.
fn stem_of(alloc: Global, target: Path<'_>) -> Result<String, AllocError> {
    let name = target.file_name().unwrap_or("");
    let base = match target.parent() {
        Some(folder) if name.len() > LONGEST_NAME => folder.join(alloc, "long-name")?,
        _ => target.to_path_buf(alloc)?,
    };
    let mut stem = base.into_string();
    stem.push_str(".tsn-unfinished-")?;
    Ok(stem)
}

impl Replacement {
    /// Makes the unfinished file anew, under a name that no file has, with the permissions of the old one.
    pub fn make<R: Files>(&mut self, rt: &R) -> io::Result<R::File> {
        for number in FIRST_NUMBER..PAST_NUMBERS {
            self.name(number)?;
            match self.made(rt) {
                Err(error) if error.kind() == ErrorKind::AlreadyExists => {}
                made => {
                    self.is_there = made.is_ok();
                    return self.alike(rt, made?);
                }
            }
        }
        Err(Error::from(ErrorKind::AlreadyExists))
    }

    // Gives the unfinished file its number. It takes no memory but the first time.
    fn name(&mut self, number: u32) -> Result<(), AllocError> {
        self.path.clear();
        self.path.push_str(self.stem.as_str())?;
        write!(self.path, "{number}")
    }

    // Makes the file. Until it has the old one's permissions nobody else may read it.
    fn made<R: Files>(&self, rt: &R) -> io::Result<R::File> {
        let mode = if self.old.is_some() { 0o600 } else { 0o666 };
        OpenOptions::new()
            .write(true)
            .create_new(true)
            .mode(mode)
            .open(rt, self.path.as_str())
    }

    // Gives the file the old one's permissions, and its owner and group where the system allows that.
    fn alike<R: Files>(&self, rt: &R, file: R::File) -> io::Result<R::File> {
        if let Some(old) = self.old {
            let _ = chown(rt, self.path.as_str(), Some(old.owner), Some(old.group));
            file.set_permissions(Permissions::from_mode(old.mode))?;
        }
        Ok(file)
    }

    /// Whether the unfinished file is there.
    pub fn is_there(&self) -> bool
        ensures { result ≡ self.now.is_there }
    {
        self.is_there
    }

    /// Puts the unfinished file, which is whole, into its place. A file that is mounted alone can't be replaced, and is written
    /// over.
    pub fn put<R: Files>(&mut self, rt: &R, file: &R::File) -> io::Result<()> {
        file.sync_all()?;
        match fs::rename(rt, self.path.as_str(), self.target.as_str()) {
            Err(error) if error.kind() == ErrorKind::ResourceBusy => {
                fs::copy(rt, self.path.as_str(), self.target.as_str())?;
                self.discard(rt);
            }
            renamed => renamed?,
        }
        self.is_there = false;
        Ok(())
    }

    /// Removes the unfinished file, if it is there.
    pub fn discard<R: Files>(&mut self, rt: &R)
        ensures { self.new.is_there ≡ false }
    {
        if self.is_there {
            let _ = fs::remove_file(rt, self.path.as_str());
            self.is_there = false;
        }
    }
}

/// Whether two paths lead to one file, that is there or is to be made. Devices and pipes are no files.
pub fn are_one_file<R: Files>(
    rt: &R,
    alloc: Global,
    left: &str,
    right: &str,
) -> Result<bool, AllocError> {
    match (fs::metadata(rt, left), fs::metadata(rt, right)) {
        (Ok(left), Ok(right)) => Ok(left.is_file() && is_one(&left, &right)),
        (Err(_), Err(_)) => will_be_one_file(rt, alloc, left, right),
        _ => Ok(false),
    }
}

// Whether two paths at which there is no file lead to the same name in one folder.
fn will_be_one_file<R: Files>(
    rt: &R,
    alloc: Global,
    left: &str,
    right: &str,
) -> Result<bool, AllocError> {
    let left = followed(rt, alloc, left)?;
    let right = followed(rt, alloc, right)?;
    let (left, right) = (left.as_path(), right.as_path());
    Ok(
        left.file_name().is_some()
            && left.file_name() == right.file_name()
            && are_one_folder(rt, folder_of(left), folder_of(right)),
    )
}

// The path that links lead to from this one, or the path itself where they can't be followed.
fn followed<R: Files>(rt: &R, alloc: Global, path: &str) -> Result<PathBuf, AllocError> {
    match follow(rt, alloc, path) {
        Err(error) if error.kind() == ErrorKind::OutOfMemory => Err(AllocError),
        Err(_) => PathBuf::from_str(alloc, path),
        Ok(path) => Ok(path),
    }
}

fn folder_of(path: Path<'_>) -> &str {
    match path.parent() {
        Some(folder) if folder.as_str() != "" => folder.as_str(),
        _ => ".",
    }
}

fn are_one_folder<R: Files>(rt: &R, left: &str, right: &str) -> bool {
    match (fs::metadata(rt, left), fs::metadata(rt, right)) {
        (Ok(left), Ok(right)) => is_one(&left, &right),
        _ => false,
    }
}
