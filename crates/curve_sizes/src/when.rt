//! Moments of requests.

/// When an entry is asked for, and for how many seconds a response that is loaded then is fresh.
#[derive(Clone, Copy, PartialEq, Eq, Debug)]
pub struct When {
    pub moment: u64,
    pub lifetime: u64,
}
