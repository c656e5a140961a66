//! Files in memory.
ghost use Rattle.std.specs.Prelude.{◌≡◌, option_map};
ghost use Rattle.tsn_rows.specs.Folder.{bytes_in};

use std::alloc::{AllocError, Global};

// A file.
#[derive(Drop)]
struct File {
    name: String,
    bytes: Vec<u8>,
    /// Whether what it holds is still to be compared.
    is_new: bool,
}

/// The files that the commands of a row read and write.
#[derive(Drop)]
pub struct Folder {
    alloc: Global,
    files: Vec<File>,
}

impl Folder {
    /// A folder without a file.
    pub fn new(alloc: Global) -> Folder {
        Folder {
            alloc,
            files: Vec::new(alloc),
        }
    }

    /// What memory is taken from.
    pub fn alloc(&self) -> Global {
        self.alloc
    }

    /// What the file of this name holds, where there is one.
    pub fn bytes(&self, name: &str) -> Option<&[u8]>
        ensures { option_map (λ bytes. bytes.now) result ≡ bytes_in self.now.files.items name.now }
    {
        bytes_of(&self.files, name)
    }

    /// Puts a file in, in the place of one of its name.
    pub fn put(&mut self, name: &str, bytes: Vec<u8>) -> Result<(), AllocError> {
        self.replace(name, bytes, false)
    }

    /// Puts a file in that a command wrote.
    pub fn write(&mut self, name: &str, bytes: Vec<u8>) -> Result<(), AllocError> {
        self.replace(name, bytes, true)
    }

    fn replace(&mut self, name: &str, bytes: Vec<u8>, is_new: bool) -> Result<(), AllocError> {
        let name = String::from_str(self.alloc, name)?;
        self.files
            .retain(|file| file.name.as_str() != name.as_str());
        self.files.push(File {
            name,
            bytes,
            is_new,
        })?;
        Ok(())
    }

    /// Whether a command wrote the file of this name since this was last asked.
    pub fn take_new(&mut self, name: &str) -> bool {
        for file in &mut self.files {
            if file.name.as_str() == name && file.is_new {
                file.is_new = false;
                return true;
            }
        }
        false
    }

    /// A file that a command wrote, and that is still to be compared.
    pub fn first_new(&self) -> Option<&str> {
        for file in &self.files {
            if file.is_new {
                return Some(file.name.as_str());
            }
        }
        None
    }
}

// What the first file of this name holds, where there is one.
fn bytes_of<'a>(files: &'a [File], name: &str) -> Option<&'a [u8]>
    ensures { option_map (λ bytes. bytes.now) result ≡ bytes_in files.now name.now }
{
    match files {
        [] => None,
        [file, rest @ ..] => {
            if file.name.as_str() == name {
                Some(&file.bytes)
            } else {
                bytes_of(rest, name)
            }
        }
    }
}
