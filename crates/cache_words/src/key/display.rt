//! Keys as text for people.
ghost use Rattle.std.specs.Prelude.{Some};
ghost use Rattle.std.specs.Fmt.{DisplaysOnOk};
ghost use Rattle.hex.specs.Hex.{encode_lower};
ghost use Rattle.cache_words.specs.Key.{key_of, shown};
ghost use Rattle.cache_words.specs.CompactKey.{compact_view};

use super::{CacheHashKey, CacheKey, CompactCacheKey, HashBinary};
use std::{fmt, str};

// A hash in lower-case hex.
#[derive(Clone, Copy)]
struct Hex {
    hash: HashBinary,
}

impl fmt::Display for Hex {
    ghost output = { λ x. Some (encode_lower x.hash) };

    fn fmt<W: fmt::Write>(&self, f: &mut fmt::Formatter<W>) -> fmt::Result {
        let mut digits = [0u8; 32];
        if hex::encode_to_slice(self.hash, &mut digits).is_err() {
            return Err(fmt::Error);
        }
        match str::from_utf8(&digits) {
            Ok(text) => f.write_str(text),
            Err(_) => Err(fmt::Error),
        }
    }
}

fn show<K: CacheHashKey, W: fmt::Write>(key: &K, f: &mut fmt::Formatter<W>) -> fmt::Result
    ensures { DisplaysOnOk W.write_str_gives f.old result (Some (shown (K.key key.now))) f.new }
{
    let primary = Hex {
        hash: key.primary_bin(),
    };
    let user_tag = key.user_tag();
    match key.variance_bin() {
        Some(hash) => {
            let variance = Hex { hash };
            write!(f, "{primary}, variance: {variance}, user_tag: {user_tag}")
        }
        None => write!(f, "{primary}, user_tag: {user_tag}"),
    }
}

impl fmt::Display for CompactCacheKey {
    ghost output = { λ c. Some (shown (compact_view c)) };

    fn fmt<W: fmt::Write>(&self, f: &mut fmt::Formatter<W>) -> fmt::Result {
        show(self, f)
    }
}

impl fmt::Display for CacheKey {
    ghost output = { λ k. Some (shown (key_of k)) };

    fn fmt<W: fmt::Write>(&self, f: &mut fmt::Formatter<W>) -> fmt::Result {
        show(self, f)
    }
}
