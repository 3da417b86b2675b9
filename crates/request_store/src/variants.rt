//! By what a response varies.
ghost use Rattle.std.specs.Prelude.{◌≡◌};
ghost use Rattle.request_store.specs.Variants.{same_variance, varied};

use cache_heads::CacheMeta;
use cache_words::key::{CacheKey, HashBinary};

/// Returns whether two responses vary by the same, or both by nothing.
pub fn same_variance(a: Option<HashBinary>, b: Option<HashBinary>) -> bool
    ensures { result ≡ same_variance a b }
{
    match (a, b) {
        (None, None) => true,
        (Some(a), Some(b)) => a.as_slice() == b.as_slice(),
        _ => false,
    }
}

/// Returns the variance of a key.
pub fn variance_of(key: &CacheKey) -> Option<HashBinary>
    ensures { result ≡ key.now.variance }
{
    match key.get_variance_key() {
        Some(variance) => Some(*variance),
        None => None,
    }
}

/// Gives a meta that variance; where it begins a family of variants, it goes back to its own creation.
pub fn vary_meta(meta: &mut CacheMeta, variance: Option<HashBinary>, anew: bool)
    ensures { meta.new ≡ varied variance anew meta.old }
{
    match variance {
        Some(variance) => meta.set_variance_key(variance),
        None => meta.remove_variance(),
    }
    if anew {
        meta.reset_provenance_to_created();
    }
}
