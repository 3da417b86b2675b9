//! What keeps the bytes that are lent.
ghost use Rattle.std.specs.Prelude.{◌≡◌, None, Some};

use bytes::Bytes;
use head_packed::SharedHead;

/// Shares of a body and of a head: what they lend stays while they are kept, whatever becomes of the tier.
#[derive(Drop)]
pub struct Keep {
    body: Option<Bytes>,
    head: Option<SharedHead>,
}

impl Keep {
    /// Keeps nothing.
    pub fn nothing() -> Keep
        ensures { result ≡ record { body = None; head = None } }
    {
        Keep {
            body: None,
            head: None,
        }
    }

    // Keeps a body.
    pub(crate) fn body(body: Bytes) -> Keep
        ensures { result ≡ record { body = Some body; head = None } }
    {
        Keep {
            body: Some(body),
            head: None,
        }
    }

    // Keeps a head, and a body if there is one.
    pub(crate) fn head(head: SharedHead, body: Option<Bytes>) -> Keep
        ensures { result ≡ record { body = body; head = Some head } }
    {
        Keep {
            body,
            head: Some(head),
        }
    }
}

// A value that may go to another thread.
fn sent<T: Send>(value: T) -> T
    ensures { result ≡ value }
{
    value
}

/// Lets go of what is kept. Any thread may do so.
pub fn release(keep: Keep) {
    let _released = sent(keep);
}
