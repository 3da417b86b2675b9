//! What is stored, as the rules look at it.
ghost use Rattle.std.specs.Prelude.{◌≡◌, option_map, length};
ghost use Rattle.gateway_rules.specs.Stored.{block_of, found_of};

use crate::values::no_head;
use head_packed::SharedHead;
use rules_ffi_arguments::shapes::HeadShape;

/// The head of what is stored, shared with the tier.
#[derive(Drop)]
pub struct Stored {
    pub shape: HeadShape,
    pub head: SharedHead,
}

impl Stored {
    /// Its lines, each with CR LF at its end.
    pub fn block(&self) -> &[u8]
        ensures { result.now ≡ block_of self.now }
    {
        self.head.text()
    }
}

/// The head of what is stored, or none.
pub fn shape_of(stored: Option<&Stored>) -> HeadShape
    ensures { result ≡ (found_of (option_map (λ s. s.now) stored.entry)).0 }
{
    match stored {
        Some(stored) => stored.shape,
        None => no_head(),
    }
}

/// And its lines.
pub fn block_of(stored: Option<&Stored>) -> &[u8]
    ensures { result.now ≡ (found_of (option_map (λ s. s.now) stored.entry)).1 }
{
    match stored {
        Some(stored) => stored.block(),
        None => &[],
    }
}

/// How many bytes these have.
pub fn block_len(stored: Option<&Stored>) -> usize
    ensures { result ≡ length (found_of (option_map (λ s. s.now) stored.entry)).1 }
{
    block_of(stored).len()
}
