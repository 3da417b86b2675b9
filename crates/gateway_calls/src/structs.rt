//! The structs that programs in C share: their fields are words of 8 bytes, in this order. Reserved words are 0.

ghost use Rattle.std.specs.Prelude.{◌≡◌, length};

use rules_ffi_arguments::shapes::Moment;

/// What a gateway is made with, beside the rules' options and a secret.
#[repr(C)]
#[derive(Clone, Copy, Debug)]
pub struct GatewayOptions {
    pub max_bytes: u64,
    pub lock_age: u64,
    pub lock_timeout: u64,
    pub max_exchanges: u64,
    pub max_body_bytes: u64,
    pub max_relay_bytes: u64,
    pub max_unread: u64,
    pub max_interim_responses: u64,
    pub first_byte_timeout: u64,
    pub between_bytes_timeout: u64,
    pub max_predicted: u64,
    pub predicted_seconds: u64,
    /// Starts the hashes.
    pub hash_start: u64,
    /// Of what came of a body past `max_body_bytes`, and its own client hasn't taken.
    pub max_tail: u64,
    pub reserved: [u64; 2],
}

/// Bytes that are lent to a program in C.
#[repr(C)]
#[derive(Drop)]
pub struct LentBytes {
    pub at: *const u8,
    pub len: usize,
}

/// A request's head.
#[repr(C)]
#[derive(Drop)]
pub struct RequestShown {
    pub status: u64,
    /// Bytes of the head.
    pub used: u64,
    /// Whether it is refused: `start` answers it.
    pub rejected: u64,
    /// Names the partition: the last four bytes of the digest of its key.
    pub place: u64,
    /// Its key; this and what follows is empty where it is refused.
    pub key: LentBytes,
    pub method: LentBytes,
    pub host: LentBytes,
    pub target: LentBytes,
    pub reserved: [u64; 2],
}

/// What a call answers. Of its lists the lengths are here.
#[repr(C)]
#[derive(Drop)]
pub struct OutShown {
    pub status: u64,
    pub exchange: u64,
    pub used: u64,
    pub client: u64,
    pub origin: u64,
    pub body_follows: u64,
    pub last: u64,
    pub found: u64,
    /// Whether `at` says a moment.
    pub timed: u64,
    pub at: Moment,
    pub to_origin: LentBytes,
    pub pieces: u64,
    pub wakes: u64,
    pub evicted: u64,
    pub purges: u64,
    pub events: u64,
    pub reserved: [u64; 4],
}

/// An item of a list that a call answered.
#[repr(C)]
#[derive(Drop)]
pub struct ItemShown {
    pub status: u64,
    /// Of a wake its exchange; of an event what it is.
    pub number: u64,
    pub first: u64,
    pub second: u64,
    /// Of a piece its bytes, of a purge its key, of what was evicted or done the digest of its key.
    pub bytes: LentBytes,
    pub reserved: [u64; 2],
}

/// What a gateway holds.
#[repr(C)]
#[derive(Clone, Copy, Debug)]
pub struct GatewayCounts {
    pub status: u64,
    pub exchanges: u64,
    pub weight: u64,
    pub tracked: u64,
}

/// Lends no bytes.
pub(crate) fn nothing() -> LentBytes
    ensures { result.len ≡ 0 }
{
    LentBytes {
        at: std::ptr::null(),
        len: 0,
    }
}

/// Lends bytes.
pub(crate) fn lent(bytes: &[u8]) -> LentBytes
    ensures { result.len ≡ length bytes.now }
{
    match bytes.first() {
        Some(first) => LentBytes {
            at: std::ptr::from_ref(first),
            len: bytes.len(),
        },
        None => nothing(),
    }
}
