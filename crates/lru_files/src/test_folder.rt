// A folder in memory whose calls fail by a plan, for tests.
ghost use Rattle.std.specs.Prelude.{◌≡◌, ◌≤◌, ◌+◌, ◌-◌, ◌^◌, min};

use crate::folder::{Folder, FolderFault, ListFault};
use crate::mem_folder::MemFolder;

// Which calls are refused. Calls are counted from 1.
#[derive(Clone, Copy, Debug, PartialEq, Eq)]
enum Plan {
    // Each rename.
    Renames,
    // Each call after these; the first of them, if it is a write, leaves so many of its bytes.
    After { calls: usize, bytes: usize },
    // This one call.
    Once { call: usize },
}

/// A folder in memory that refuses some calls.
#[derive(Drop)]
pub struct TestFolder {
    folder: MemFolder,
    plan: Plan,
    calls: usize,
}

impl TestFolder {
    ghost use Rattle.lru_files.specs.TestFolder.{is_refused};
    ghost use Rattle.lru_files.specs.declared.test_folder.Plan.TheVariants as plans;

    /// A folder that refuses each rename.
    pub fn renames_fail(folder: MemFolder) -> TestFolder
        ensures folder { result.folder ≡ folder }
        ensures plan { (result.plan ≡ plans.Renames) × (result.calls ≡ 0) }
    {
        TestFolder {
            folder,
            plan: Plan::Renames,
            calls: 0,
        }
    }

    /// A folder that stops after so many calls: it refuses all others. If the first refused one is a write, so many of its bytes are written.
    pub fn stops_after(folder: MemFolder, calls: usize, bytes: usize) -> TestFolder
        ensures folder { result.folder ≡ folder }
        ensures plan { (result.plan ≡ plans.After calls bytes) × (result.calls ≡ 0) }
    {
        TestFolder {
            folder,
            plan: Plan::After { calls, bytes },
            calls: 0,
        }
    }

    /// A folder that refuses this one call, counted from 1.
    pub fn fails_once(folder: MemFolder, call: usize) -> TestFolder
        ensures folder { result.folder ≡ folder }
        ensures plan { (result.plan ≡ plans.Once call) × (result.calls ≡ 0) }
    {
        TestFolder {
            folder,
            plan: Plan::Once { call },
            calls: 0,
        }
    }

    /// Returns the folder in memory.
    pub fn into_inner(self) -> MemFolder
        ensures { result ≡ self.folder }
    {
        let TestFolder { folder, .. } = self;
        folder
    }

    // Counts the call, and says whether it is refused.
    fn refuses(&mut self, is_rename: bool) -> bool
        ensures refused { result ≡ is_refused self.old.plan self.new.calls is_rename }
        ensures calls { self.new.calls ≡ min (self.old.calls + 1) (2 ^ 64 - 1) }
        ensures plan { self.new.plan ≡ self.old.plan }
        ensures folder { self.new.folder ≡ self.old.folder }
    {
        self.calls = self.calls.saturating_add(1);
        match self.plan {
            Plan::Renames => is_rename,
            Plan::After { calls, .. } => self.calls > calls,
            Plan::Once { call } => self.calls == call,
        }
    }

    // How many bytes of a refused write are written.
    fn part(&self, len: usize) -> usize
        ensures { result ≤ len }
    {
        match self.plan {
            Plan::After { calls, bytes } if self.calls == calls.saturating_add(1) => bytes.min(len),
            _ => 0,
        }
    }
}

impl Folder for TestFolder {
    ghost use Rattle.lru_files.specs.MemFolder.{files_of, opened_of};
    ghost use Rattle.lru_files.specs.TestFolder.{EndsByPlan};

    ghost keeps = { Unit {0} };

    ghost files = { λ folder. files_of folder.folder };

    ghost opened = { λ folder. opened_of folder.folder };

    ghost failures_of = { λ folder. folder.folder.failures };

    ghost did = { EndsByPlan };

    fn make(&mut self, dir: &str) -> Result<(), FolderFault> {
        if self.refuses(false) {
            self.folder.fail();
            return Err(FolderFault);
        }
        self.folder.make(dir)
    }

    fn create(&mut self, path: &str) -> Result<(), FolderFault> {
        if self.refuses(false) {
            self.folder.fail();
            return Err(FolderFault);
        }
        self.folder.create(path)
    }

    fn write(&mut self, bytes: &[u8]) -> Result<(), FolderFault> {
        if !self.refuses(false) {
            return self.folder.write(bytes);
        }
        let part = self.part(bytes.len());
        if part > 0 {
            let _ = self.folder.append(&bytes[..part]);
        }
        self.folder.fail();
        Err(FolderFault)
    }

    fn flush(&mut self) -> Result<(), FolderFault> {
        if self.refuses(false) {
            self.folder.fail();
            return Err(FolderFault);
        }
        self.folder.flush()
    }

    fn rename(&mut self, from: &str, to: &str) -> Result<(), FolderFault> {
        if self.refuses(true) {
            self.folder.fail();
            return Err(FolderFault);
        }
        self.folder.rename(from, to)
    }

    fn open(&mut self, path: &str) -> Result<bool, FolderFault> {
        if self.refuses(false) {
            self.folder.fail();
            return Err(FolderFault);
        }
        self.folder.open(path)
    }

    fn read(&mut self) -> Result<Vec<u8>, FolderFault> {
        if self.refuses(false) {
            self.folder.fail();
            return Err(FolderFault);
        }
        self.folder.read()
    }

    fn list(&mut self, dir: &str) -> Result<Vec<String>, ListFault> {
        if self.refuses(false) {
            self.folder.fail();
            return Err(ListFault::Dir);
        }
        self.folder.list(dir)
    }

    fn remove(&mut self, path: &str) -> Result<(), FolderFault> {
        if self.refuses(false) {
            self.folder.fail();
            return Err(FolderFault);
        }
        self.folder.remove(path)
    }

    fn failures(&self) -> u64 {
        self.folder.failures()
    }
}
