//! The formats of requests.
ghost use Rattle.std.specs.Prelude.{◌≡◌};
ghost use Rattle.curve_lines.specs.ColumnLines.{is_timed};

use curve_keys::Part;
use curve_timed::Every;
use curve_words::Columns;

/// What a stream of requests is made of.
#[derive(Clone, Copy)]
pub enum Format {
    /// Lines of three words: a time, a key, and the bytes of its body, a dash where the key is removed, or a question mark where they
    /// aren't told. Or lines of columns.
    Text,
    /// Records of 16 bytes: the key's number and the bytes, little endian. All bits set in the bytes: the key is removed.
    Records,
    /// Records of 24 bytes, little endian: a time of 4 bytes, the key's number of 8, the bytes of 4, and 8 that are passed over.
    OracleGeneral,
}

/// How a stream of requests is read.
#[derive(Drop)]
pub struct Rules {
    /// What it is made of.
    pub format: Format,
    /// Which columns of a line say what; without them it is three words.
    pub columns: Option<Columns>,
    /// What each entry takes beside its body.
    pub overhead: u64,
    /// The parts of the keys of which each is counted by itself; without a part all are.
    pub parts: Vec<Option<Part>>,
    /// Whether they are a sample: it is told how many requests there are in all.
    pub is_sample: bool,
    /// For how many seconds each response is fresh, where no column says that. Without either no times are read, and fresh finds
    /// aren't counted.
    pub lifetime: Option<u64>,
    /// How long spans are, where it is told what was found up to each.
    pub by: Option<Every>,
    /// The limit, by its place, of which the lines are copied that go on to the next cache; without one none are.
    pub misses: Option<usize>,
}

impl Rules {
    /// Whether fresh finds are counted.
    pub fn is_timed(&self) -> bool
        ensures { result ≡ is_timed self.now.lifetime self.now.columns }
    {
        match &self.columns {
            None => self.lifetime.is_some(),
            Some(columns) => self.lifetime.is_some() || columns.ttl.is_some(),
        }
    }
}
