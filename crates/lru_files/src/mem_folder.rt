// A folder in memory, which keeps exactly what its calls did.
ghost use Rattle.std.specs.Prelude.{◌≡◌, ◌↔◌, ◌∷◌, ◌++◌, OnOk, OnErr, IfOk, IfNone, IfSome, IsSome, IsTrue, false, List, ℕ, map, string_bytes, Contains};
ghost use Rattle.std.specs.Option.{option_map};
ghost use Rattle.lru_files.specs.Folder.{IsName, path_in};

use crate::folder::{Folder, FolderFault, ListFault};
use std::alloc::{AllocError, Global};
use std::collections::HashMap;

// The name that this path has in the directory.
fn name_in<'a>(dir: &str, path: &'a str) -> Option<&'a str>
    ensures found { IfSome result (λ name. (path.now ≡ path_in dir.now name.now) × IsName name.now) }
    ensures none { IfNone result ((name : List ℕ) → path.now ≡ path_in dir.now name → IsName name → ⊥) }
{
    let name = path.strip_prefix(dir)?.strip_prefix("/")?;
    if is_path(name) {
        return None;
    }
    Some(name)
}

// Whether the text has a '/'.
fn is_path(text: &str) -> bool
    ensures { IsTrue result ↔ Contains text.now 47 }
{
    text.as_bytes().contains(&b'/')
}

/// A folder in memory. Each path has its file; directories need not be made.
#[derive(Drop)]
pub struct MemFolder {
    alloc: Global,
    files: HashMap<String, Vec<u8>>,
    opened: Option<String>,
    failures: u64,
}

impl MemFolder {
    ghost use Rattle.lru_files.specs.MemFolder.{files_of, opened_of};
    ghost use Rattle.lru_files.specs.Folder.{IsSame, IsPut};
    ghost use Rattle.lru_files.specs.Told.{raised};

    /// A folder without files, of which none is open.
    pub fn new(alloc: Global) -> MemFolder
        ensures files { (path : _) → files_of result path ≡ None }
        ensures opened { opened_of result ≡ None }
        ensures failures { result.failures ≡ 0 }
    {
        MemFolder {
            alloc,
            files: HashMap::new(alloc),
            opened: None,
            failures: 0,
        }
    }

    /// Returns the bytes of the file at this path.
    pub fn bytes(&self, path: &str) -> Option<&[u8]>
        ensures { option_map (λ bytes. bytes.now) result ≡ files_of self.now path.now }
    {
        match self.files.get(path) {
            Some(bytes) => Some(bytes.as_slice()),
            None => None,
        }
    }

    /// Puts a file with these bytes at this path.
    pub fn put(&mut self, path: &str, bytes: &[u8]) -> Result<(), AllocError>
        ensures ok { OnOk result (IsPut (files_of self.old) (files_of self.new) path.now bytes.now) }
        ensures err { OnErr result (IsSame (files_of self.old) (files_of self.new)) }
        ensures opened { opened_of self.new ≡ opened_of self.old }
        ensures failures { self.new.failures ≡ self.old.failures }
    {
        let key = String::from_str(self.alloc, path)?;
        let bytes = bytes.to_vec(self.alloc)?;
        self.files.insert(key, bytes)?;
        Ok(())
    }

    // Opens a path, where memory suffices for its name.
    fn set_open(&mut self, path: &str) -> Result<(), AllocError>
        ensures ok { OnOk result (opened_of self.new ≡ Some path.now) }
        ensures files { IsSame (files_of self.old) (files_of self.new) }
        ensures failures { self.new.failures ≡ self.old.failures }
    {
        self.opened = Some(String::from_str(self.alloc, path)?);
        Ok(())
    }

    // Counts a failed call.
    pub(crate) fn fail(&mut self)
        ensures counted { self.new.failures ≡ raised self.old.failures 1 }
        ensures files { IsSame (files_of self.old) (files_of self.new) }
        ensures opened { opened_of self.new ≡ opened_of self.old }
    {
        self.failures = self.failures.saturating_add(1);
    }
}

impl MemFolder {
    ghost use Rattle.lru_files.specs.MemFolder.{files_of, opened_of};
    ghost use Rattle.lru_files.specs.Folder.{IsGone, IsListing, IsMoved, IsSame, Writes};

    // Appends to the open file; false where none is open, or it is no more.
    pub(crate) fn append(&mut self, bytes: &[u8]) -> Result<bool, AllocError>
        ensures ok { IfOk result (λ done. IsTrue done → Writes bytes.now (opened_of self.old) (files_of self.old) (files_of self.new)) }
        ensures refused { IfOk result (λ done. done ≡ false → IsSame (files_of self.old) (files_of self.new)) }
        ensures err { OnErr result (IsSame (files_of self.old) (files_of self.new)) }
        ensures opened { opened_of self.new ≡ opened_of self.old }
        ensures failures { self.new.failures ≡ self.old.failures }
    {
        let Some(path) = &self.opened else {
            return Ok(false);
        };
        let path = path.clone()?;
        let Some(file) = self.bytes(path.as_str()) else {
            return Ok(false);
        };
        let mut grown = file.to_vec(self.alloc)?;
        grown.extend_from_slice(bytes)?;
        self.put(path.as_str(), grown.as_slice())?;
        Ok(true)
    }

    // Reads the open file; none where none is open, or it is no more.
    fn read_open(&self) -> Result<Option<Vec<u8>>, AllocError>
        ensures { IfOk result (λ read. IfSome read (λ bytes. (path : _) → opened_of self.now ≡ Some path → files_of self.now path ≡ Some bytes.items)) }
    {
        let Some(path) = &self.opened else {
            return Ok(None);
        };
        let Some(file) = self.bytes(path.as_str()) else {
            return Ok(None);
        };
        Ok(Some(file.to_vec(self.alloc)?))
    }

    // Lists the names of the files in a directory.
    fn names(&self, dir: &str) -> Result<Vec<String>, AllocError>
        ensures { IfOk result (λ names. IsListing (files_of self.now) dir.now (map string_bytes names.items)) }
    {
        let mut names = Vec::new(self.alloc);
        for path in self.files.keys() {
            if let Some(name) = name_in(dir, path.as_str()) {
                names.push(String::from_str(self.alloc, name)?)?;
            }
        }
        Ok(names)
    }

    // Removes a file; false where there is none.
    fn take_away(&mut self, path: &str) -> bool
        ensures gone { IsTrue result → IsGone (files_of self.old) (files_of self.new) path.now }
        ensures none { result ≡ false → IsSame (files_of self.old) (files_of self.new) }
        ensures there { IsTrue result ↔ IsSome (files_of self.old path.now) }
        ensures opened { opened_of self.new ≡ opened_of self.old }
        ensures failures { self.new.failures ≡ self.old.failures }
    {
        self.files.remove(path).is_some()
    }

    // Gives a file another path; false where there is none.
    fn relocate(&mut self, from: &str, to: &str) -> Result<bool, AllocError>
        ensures ok { IfOk result (λ done. IsTrue done → IsMoved (files_of self.old) (files_of self.new) from.now to.now) }
        ensures refused { IfOk result (λ done. done ≡ false → IsSame (files_of self.old) (files_of self.new)) }
        ensures err { OnErr result (IsSame (files_of self.old) (files_of self.new)) }
        ensures failures { self.new.failures ≡ self.old.failures }
    {
        let Some(file) = self.bytes(from) else {
            return Ok(false);
        };
        if from == to {
            return Ok(true);
        }
        let file = file.to_vec(self.alloc)?;
        self.put(to, file.as_slice())?;
        self.take_away(from);
        Ok(true)
    }
}

impl Folder for MemFolder {
    ghost use Rattle.lru_files.specs.MemFolder.{files_of, opened_of};
    ghost use Rattle.lru_files.specs.Folder.{Ends};

    ghost keeps = { Unit {0} };

    ghost files = { λ folder. files_of folder };

    ghost opened = { λ folder. opened_of folder };

    ghost failures_of = { λ folder. folder.failures };

    ghost did = { λ before call outcome after. Ends call outcome (opened_of before) (files_of before) (files_of after) };

    fn make(&mut self, dir: &str) -> Result<(), FolderFault> {
        // Directories need not be made.
        let _ = dir;
        Ok(())
    }

    fn create(&mut self, path: &str) -> Result<(), FolderFault> {
        if self.bytes(path).is_some() {
            self.fail();
            return Err(FolderFault);
        }
        let Ok(()) = self.set_open(path) else {
            self.fail();
            return Err(FolderFault);
        };
        let Ok(()) = self.put(path, &[]) else {
            self.fail();
            return Err(FolderFault);
        };
        Ok(())
    }

    fn write(&mut self, bytes: &[u8]) -> Result<(), FolderFault> {
        if let Ok(true) = self.append(bytes) {
            return Ok(());
        }
        self.fail();
        Err(FolderFault)
    }

    fn flush(&mut self) -> Result<(), FolderFault> {
        Ok(())
    }

    fn rename(&mut self, from: &str, to: &str) -> Result<(), FolderFault> {
        if let Ok(true) = self.relocate(from, to) {
            return Ok(());
        }
        self.fail();
        Err(FolderFault)
    }

    fn open(&mut self, path: &str) -> Result<bool, FolderFault> {
        if self.bytes(path).is_none() {
            return Ok(false);
        }
        let Ok(()) = self.set_open(path) else {
            self.fail();
            return Err(FolderFault);
        };
        Ok(true)
    }

    fn read(&mut self) -> Result<Vec<u8>, FolderFault> {
        if let Ok(Some(bytes)) = self.read_open() {
            return Ok(bytes);
        }
        self.fail();
        Err(FolderFault)
    }

    fn list(&mut self, dir: &str) -> Result<Vec<String>, ListFault> {
        let Ok(names) = self.names(dir) else {
            self.fail();
            return Err(ListFault::Dir);
        };
        Ok(names)
    }

    fn remove(&mut self, path: &str) -> Result<(), FolderFault> {
        if self.take_away(path) {
            return Ok(());
        }
        self.fail();
        Err(FolderFault)
    }

    fn failures(&self) -> u64 {
        self.failures
    }
}
