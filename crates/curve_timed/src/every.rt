//! Spans of a fixed length, which begin at its multiples.
ghost use Rattle.std.specs.Prelude.{◌≡◌, ◌↔◌, ◌<◌, ◌*◌, ◌/◌, ◌+◌, nat_lt, IfSome, IsSome};
ghost use Rattle.curve_timed.specs.Spans.{span_from};

/// The length of spans, in seconds.
#[derive(Clone, Copy)]
pub struct Every {
    seconds: u64,
    ghost some: { 0 < seconds },
}

impl Every {
    /// So many seconds, if they aren't 0.
    pub fn new(seconds: u64) -> Option<Every>
        ensures value { IfSome result (λ e. e.seconds ≡ seconds) }
        ensures variant { IsSome result ↔ (0 < seconds) }
    {
        if seconds > 0 {
            return Some(Every { seconds });
        }
        None
    }

    // Where the span begins in which a moment lies.
    pub(crate) fn from(&self, moment: u64) -> u64
        ensures { result ≡ span_from self.now.seconds moment }
    {
        moment / self.seconds * self.seconds
    }

    // Whether a moment lies in a span, or before it.
    pub(crate) fn has(&self, span: u64, moment: u64) -> bool
        ensures { result ≡ nat_lt moment (span + self.now.seconds) }
    {
        moment < span || moment - span < self.seconds
    }
}
