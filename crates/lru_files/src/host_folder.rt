// A folder of the system.
ghost use Rattle.std.specs.Prelude.{◌≡◌, ◌≤◌, ◌^◌, ◌↔◌, None, IsOk, IsTrue, true};
ghost use Rattle.std.specs.Fs.{new_options, with_write, with_create_new, file_type, metadata_len, IsFile};
ghost use Rattle.lru_files.specs.Told.{Counts};

use crate::folder::{Folder, FolderFault, ListFault};
use std::fs::{Metadata, OpenFile, OpenOptions};
use std::io::{Read, Write};
use std::rt::Files;
use std::{fs, io};

// No shard's file has more bytes.
const MOST_BYTES: u64 = 1 << 34;

// How a file is created: only where its path has nothing, so that no link is followed and no file of another's is written.
fn new_file() -> OpenOptions
    ensures { result ≡ with_create_new (with_write new_options true) true }
{
    let mut options = OpenOptions::new();
    options.write(true).create_new(true);
    options
}

// Whether it is a regular file. A folder, a pipe, a device or a link isn't.
fn is_regular(found: &Metadata) -> bool
    ensures { IsTrue result ↔ IsFile (file_type found.now) }
{
    found.is_file()
}

// Whether a file isn't too long to be read.
fn is_readable(found: &Metadata) -> bool
    ensures { IsTrue result ↔ (metadata_len found.now ≤ 2 ^ 34) }
{
    found.len() <= MOST_BYTES
}

// Whether an open file isn't too long.
fn has_readable_length<F: OpenFile>(file: &F) -> bool {
    match file.metadata() {
        Ok(found) => is_readable(&found),
        Err(_) => false,
    }
}

// The directory of a path; of a name alone the one in which the program runs.
fn directory_of(path: &str) -> &str {
    match path.rsplit_once('/') {
        None => ".",
        Some((dir, _)) if dir.is_empty() => "/",
        Some((dir, _)) => dir,
    }
}

/// A folder of the system's files. No clause says what they hold: that is left to tests.
///
/// A file's bytes are on the disk once `flush` returns, and its name once `rename` does: they wait for it, and fail where the system says
/// that it isn't so. `read` takes a file of 2^34 bytes at most, and reads nothing of a longer one.
///
/// `create` follows no link and takes no name that is there; `open` opens regular files alone. Another process that puts something
/// else in a file's place between the look at its name and its opening isn't reported.
#[derive(Drop)]
pub struct HostFolder<R: Files + AllocGlobal + Clone + Drop> {
    rt: R,
    file: Option<R::File>,
    failures: u64,
}

impl<R: Files + AllocGlobal + Clone + Drop> HostFolder<R> {
    /// The files that this runtime reaches.
    pub fn new(rt: R) -> HostFolder<R>
        ensures { result.failures ≡ 0 }
    {
        HostFolder {
            rt,
            file: None,
            failures: 0,
        }
    }

    // Counts a call that failed.
    fn counted(&mut self, done: bool) -> Result<(), FolderFault>
        ensures counted { Counts result self.old.failures self.new.failures }
        ensures done { IsTrue done ↔ IsOk result }
    {
        if done {
            return Ok(());
        }
        self.failures = self.failures.saturating_add(1);
        Err(FolderFault)
    }

    // Has the names in a directory written to the disk, and returns whether they are.
    fn is_synced(&self, dir: &str) -> bool {
        match fs::open(&self.rt, dir) {
            Ok(opened) => opened.sync_all().is_ok(),
            Err(_) => false,
        }
    }

    // The names of the directory's entries. One that isn't UTF-8 is no name of ours.
    fn names(&self, dir: &str) -> Result<Vec<String>, ListFault> {
        let Ok(entries) = fs::read_dir(&self.rt, dir) else {
            return Err(ListFault::Dir);
        };
        let mut names = Vec::new(self.rt.alloc());
        for entry in entries {
            let entry = match entry {
                Ok(entry) => entry,
                Err(e) if e.kind() == io::ErrorKind::InvalidFilename => continue,
                Err(_) => return Err(ListFault::Entry),
            };
            let Ok(name) = String::from_str(self.rt.alloc(), entry.file_name()) else {
                return Err(ListFault::Entry);
            };
            let Ok(()) = names.push(name) else {
                return Err(ListFault::Entry);
            };
        }
        Ok(names)
    }
}

impl<R: Files + AllocGlobal + Clone + Drop> Folder for HostFolder<R> {
    ghost keeps = { ⊥ };

    ghost files = { λ folder path. None };

    ghost opened = { λ folder. None };

    ghost failures_of = { λ folder. folder.failures };

    ghost did = { λ before call outcome after. Unit {0} };

    fn make(&mut self, dir: &str) -> Result<(), FolderFault> {
        let done = fs::create_dir_all(&self.rt, dir).is_ok();
        self.counted(done)
    }

    fn create(&mut self, path: &str) -> Result<(), FolderFault> {
        self.file = new_file().open(&self.rt, path).ok();
        let done = self.file.is_some();
        self.counted(done)
    }

    fn write(&mut self, bytes: &[u8]) -> Result<(), FolderFault> {
        let done = match &mut self.file {
            Some(file) => file.write_all(bytes).is_ok(),
            None => false,
        };
        self.counted(done)
    }

    fn flush(&mut self) -> Result<(), FolderFault> {
        let done = match &mut self.file {
            Some(file) => file.flush().is_ok() && file.sync_all().is_ok(),
            None => false,
        };
        self.counted(done)
    }

    fn rename(&mut self, from: &str, to: &str) -> Result<(), FolderFault> {
        self.file = None;
        let done = fs::rename(&self.rt, from, to).is_ok() && self.is_synced(directory_of(to));
        self.counted(done)
    }

    fn open(&mut self, path: &str) -> Result<bool, FolderFault> {
        self.file = None;
        // The name is looked at first: opening a pipe waits for a writer.
        let opened = match fs::symlink_metadata(&self.rt, path) {
            Ok(found) if !is_regular(&found) => {
                self.counted(false)?;
                return Ok(false);
            }
            Ok(_) => fs::open(&self.rt, path),
            Err(e) => Err(e),
        };
        match opened {
            Ok(file) => {
                self.file = Some(file);
                Ok(true)
            }
            Err(e) => {
                let absent = e.kind() == io::ErrorKind::NotFound;
                self.counted(absent)?;
                Ok(false)
            }
        }
    }

    fn read(&mut self) -> Result<Vec<u8>, FolderFault> {
        let mut bytes = Vec::new(self.rt.alloc());
        let done = match &mut self.file {
            Some(file) => has_readable_length(file) && file.read_to_end(&mut bytes).is_ok(),
            None => false,
        };
        self.counted(done)?;
        Ok(bytes)
    }

    fn list(&mut self, dir: &str) -> Result<Vec<String>, ListFault> {
        let names = self.names(dir);
        let Ok(()) = self.counted(names.is_ok()) else {
            return names;
        };
        names
    }

    fn remove(&mut self, path: &str) -> Result<(), FolderFault> {
        self.file = None;
        let done = fs::remove_file(&self.rt, path).is_ok();
        self.counted(done)
    }

    fn failures(&self) -> u64 {
        self.failures
    }
}
