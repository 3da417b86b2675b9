// A folder of files as the saves and loads see it.
ghost use Rattle.std.specs.Prelude.{◌≡◌, List, ℕ, Option, OnOk, OnErr, IfOk, string_bytes, map};
ghost use Rattle.lru_files.specs.Folder.{Files, FolderCall, Outcome, DoesFolderCall, Refuses, IsListing, IsSame, OpensFile};
ghost use Rattle.lru_files.specs.Told.{Counts, list_outcome, outcome_of};
ghost use Rattle.lru_files.specs.Folder.FolderCall.{Make, Create, Write, Flush, Rename, Open, Read, Names, Remove};

/// A call of a folder failed. The folder counts it.
#[derive(Clone, Copy, Debug, PartialEq, Eq)]
pub struct FolderFault;

/// Listing a directory failed. The folder counts it.
#[derive(Clone, Copy, Debug, PartialEq, Eq)]
pub enum ListFault {
    /// The directory could not be read.
    Dir,
    /// One of its entries could not be read.
    Entry,
}

/// A folder of files under paths, of which one is open at a time.
///
/// What its clauses say of the files they say only of a folder that keeps what its calls did (`keeps`).
pub trait Folder {
    /// That the folder keeps what its calls did, and nobody else writes it.
    ghost keeps: { Type 0 };

    /// The bytes under each path.
    ghost files: { Self → Files };

    /// The path of the open file.
    ghost opened: { Self → Option (List ℕ) };

    /// How many calls failed; it stays at the greatest u64.
    ghost failures_of: { Self → ℕ };

    /// That this call, which ended so, led from the one state to the other.
    ghost did: { Self → FolderCall → Outcome → Self → Type 0 };

    /// Makes the directory, and those above it, where it isn't there.
    fn make(&mut self, dir: &str) -> Result<(), FolderFault>
        ensures did { did self.old (Make dir.now) (outcome_of result) self.new }
        ensures files { keeps → IsSame (files self.old) (files self.new) }
        ensures counted { Counts result (failures_of self.old) (failures_of self.new) };

    /// Creates the file, without bytes; it is then the open one. Fails where the path has a file.
    fn create(&mut self, path: &str) -> Result<(), FolderFault>
        ensures did { did self.old (Create path.now) (outcome_of result) self.new }
        ensures absent { keeps → OnOk result (files self.old path.now ≡ Option.None) }
        ensures ok { keeps → OnOk result (DoesFolderCall (Create path.now) (opened self.old) (files self.old) (files self.new)) }
        ensures opened { keeps → OnOk result (opened self.new ≡ Option.Some path.now) }
        ensures err { keeps → OnErr result (IsSame (files self.old) (files self.new)) }
        ensures counted { Counts result (failures_of self.old) (failures_of self.new) };

    /// Writes at the end of the open file. A failed write may leave a beginning of the bytes there.
    fn write(&mut self, bytes: &[u8]) -> Result<(), FolderFault>
        ensures did { did self.old (Write bytes.now) (outcome_of result) self.new }
        ensures ok { keeps → OnOk result (DoesFolderCall (Write bytes.now) (opened self.old) (files self.old) (files self.new)) }
        ensures opened { keeps → OnOk result (opened self.new ≡ opened self.old) }
        ensures err { keeps → OnErr result (Refuses (Write bytes.now) (opened self.old) (files self.old) (files self.new)) }
        ensures counted { Counts result (failures_of self.old) (failures_of self.new) };

    /// Flushes the open file.
    fn flush(&mut self) -> Result<(), FolderFault>
        ensures did { did self.old Flush (outcome_of result) self.new }
        ensures files { keeps → IsSame (files self.old) (files self.new) }
        ensures counted { Counts result (failures_of self.old) (failures_of self.new) };

    /// Gives the file another path, in the place of what is there.
    fn rename(&mut self, from: &str, to: &str) -> Result<(), FolderFault>
        ensures did { did self.old (Rename from.now to.now) (outcome_of result) self.new }
        ensures ok { keeps → OnOk result (DoesFolderCall (Rename from.now to.now) (opened self.old) (files self.old) (files self.new)) }
        ensures err { keeps → OnErr result (IsSame (files self.old) (files self.new)) }
        ensures counted { Counts result (failures_of self.old) (failures_of self.new) };

    /// Opens the file to be read; false if there is none. Fails where the path has anything else.
    fn open(&mut self, path: &str) -> Result<bool, FolderFault>
        ensures did { did self.old (Open path.now) (outcome_of result) self.new }
        ensures ok { keeps → IfOk result (λ found. OpensFile path.now (files self.old) found (opened self.new)) }
        ensures files { keeps → IsSame (files self.old) (files self.new) }
        ensures counted { Counts result (failures_of self.old) (failures_of self.new) };

    /// Reads the whole open file.
    fn read(&mut self) -> Result<Vec<u8>, FolderFault>
        ensures did { did self.old Read (outcome_of result) self.new }
        ensures ok { keeps → IfOk result (λ bytes. (path : List ℕ) → opened self.old ≡ Option.Some path → files self.old path ≡ Option.Some bytes.items) }
        ensures files { keeps → IsSame (files self.old) (files self.new) }
        ensures counted { Counts result (failures_of self.old) (failures_of self.new) };

    /// Lists the names of the directory's files.
    fn list(&mut self, dir: &str) -> Result<Vec<String>, ListFault>
        ensures did { did self.old (Names dir.now) (list_outcome result) self.new }
        ensures ok { keeps → IfOk result (λ names. IsListing (files self.old) dir.now (map string_bytes names.items)) }
        ensures files { keeps → IsSame (files self.old) (files self.new) }
        ensures counted { Counts result (failures_of self.old) (failures_of self.new) };

    /// Removes the file.
    fn remove(&mut self, path: &str) -> Result<(), FolderFault>
        ensures did { did self.old (Remove path.now) (outcome_of result) self.new }
        ensures ok { keeps → OnOk result (DoesFolderCall (Remove path.now) (opened self.old) (files self.old) (files self.new)) }
        ensures err { keeps → OnErr result (IsSame (files self.old) (files self.new)) }
        ensures counted { Counts result (failures_of self.old) (failures_of self.new) };

    /// Returns how many calls failed. At the greatest u64 it stays.
    fn failures(&self) -> u64
        ensures { result ≡ failures_of self.now };
}
