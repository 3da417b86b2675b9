//! The directives of all lines, each name once.
use crate::key::DirectiveKey;
use crate::value::DirectiveValue;
use cache_words::blake::Blake2b128;
use http_header::{GetAll, HeaderValue};
use indexmap::IndexMap;
use std::hash::{BuildHasher, DefaultHasher, Hasher};

// Lines of so many bytes together hold few names: it does no harm if they collide.
const SHORT: usize = 256;

// Whether the lines are short together.
fn are_short(lines: &GetAll<'_, HeaderValue>) -> bool {
    let mut bytes = 0usize;
    for line in lines.iter() {
        bytes = bytes.saturating_add(line.as_bytes().len());
    }
    bytes <= SHORT
}

/// The directives by name, in the order in which the names first came.
pub type DirectiveMap = IndexMap<DirectiveKey, Option<DirectiveValue>, BuildDirectiveHasher>;

/// Makes the hashers of a map of directives.
///
/// The hashers of a map that was read start from a digest of all its lines, so whoever writes the
/// lines cannot choose names that collide; lines of at most 256 bytes together hold too few names
/// for that to matter, and start alike. This needs neither randomness nor memory.
#[derive(Clone, Copy)]
pub struct BuildDirectiveHasher {
    start: DefaultHasher,
}

impl Default for BuildDirectiveHasher {
    /// Hashers that start alike in each map: for names that no attacker chooses.
    fn default() -> Self {
        BuildDirectiveHasher {
            start: DefaultHasher::new(),
        }
    }
}

impl BuildHasher for BuildDirectiveHasher {
    type Hasher = DefaultHasher;

    ghost build_hasher = { λ b. b.start };

    fn build_hasher(&self) -> DefaultHasher {
        self.start
    }
}

impl BuildDirectiveHasher {
    // For the lines of a map.
    pub(crate) fn of_lines(lines: &GetAll<'_, HeaderValue>) -> Self {
        if are_short(lines) {
            return BuildDirectiveHasher::default();
        }
        let mut digest = Blake2b128::new();
        for line in lines.iter() {
            digest.update(line.as_bytes());
        }
        let mut start = DefaultHasher::new();
        start.write(&digest.finalize());
        BuildDirectiveHasher { start }
    }
}
