//! The bounds of a gateway.
ghost use Rattle.std.specs.Prelude.{◌≡◌};
ghost use Rattle.gateway_exchanges.specs.Limits.{usual_limits, each_at_least_one};

/// Bounds of one partition; each is at least 1.
#[derive(Clone, Copy, Debug)]
pub struct Limits {
    /// Of the tier; of what is in flight, half of that.
    pub max_bytes: u64,
    /// Seconds that a permit to fetch holds.
    pub lock_age: u64,
    /// Seconds that an exchange waits for others' permits, in all.
    pub lock_timeout: u64,
    /// One more is answered 503.
    pub max_exchanges: u64,
    /// Of a body that is stored.
    pub max_body_bytes: u64,
    /// Of what grew past that, and its own client hasn't taken.
    pub max_tail: u64,
    /// Relayed, and not taken.
    pub max_relay_bytes: u64,
    /// Of a body that comes for nobody.
    pub max_unread: u64,
    /// Heads from 100 to 199 of one response.
    pub max_interim_responses: u64,
    /// Seconds up to a response's first byte.
    pub first_byte_timeout: u64,
    /// Seconds between its bytes.
    pub between_bytes_timeout: u64,
    /// Keys whose next response won't be stored, as their last one wasn't.
    pub max_predicted: u64,
    /// For so many seconds.
    pub predicted_seconds: u64,
}

impl Limits {
    /// The usual ones.
    pub fn usual() -> Limits
        ensures { result ≡ usual_limits }
    {
        Limits {
            max_bytes: 1 << 28,
            lock_age: 10,
            lock_timeout: 60,
            max_exchanges: 4096,
            max_body_bytes: 1 << 24,
            max_tail: 1 << 20,
            max_relay_bytes: 1 << 17,
            max_unread: 1 << 24,
            max_interim_responses: 16,
            first_byte_timeout: 60,
            between_bytes_timeout: 60,
            max_predicted: 1024,
            predicted_seconds: 120,
        }
    }

    /// The same, each at least 1.
    pub fn at_least_one(self) -> Limits
        ensures { result ≡ each_at_least_one self }
    {
        Limits {
            max_bytes: self.max_bytes.max(1),
            lock_age: self.lock_age.max(1),
            lock_timeout: self.lock_timeout.max(1),
            max_exchanges: self.max_exchanges.max(1),
            max_body_bytes: self.max_body_bytes.max(1),
            max_tail: self.max_tail.max(1),
            max_relay_bytes: self.max_relay_bytes.max(1),
            max_unread: self.max_unread.max(1),
            max_interim_responses: self.max_interim_responses.max(1),
            first_byte_timeout: self.first_byte_timeout.max(1),
            between_bytes_timeout: self.between_bytes_timeout.max(1),
            max_predicted: self.max_predicted.max(1),
            predicted_seconds: self.predicted_seconds.max(1),
        }
    }
}
