//! When requests are made.
ghost use Rattle.std.specs.Prelude.{◌≡◌};
ghost use Rattle.curve_lines.specs.Lines.{when_at, when_in};

use curve_sizes::When;
use curve_words::moment;

// When a request is made, where bodies may have a lifetime.
pub(crate) fn when_at(lifetime: Option<u64>, moment: u64) -> When
    ensures { result ≡ when_at lifetime moment }
{
    match lifetime {
        None => When {
            moment: 0,
            lifetime: 0,
        },
        Some(lifetime) => When { moment, lifetime },
    }
}

// When a request of that time is made. Without lifetimes any word is a time.
pub(crate) fn when_of(lifetime: Option<u64>, time: &[u8]) -> Option<When>
    ensures { result ≡ when_in lifetime time.now }
{
    if lifetime.is_none() {
        return Some(when_at(None, 0));
    }
    match moment(time) {
        None => None,
        Some(moment) => Some(when_at(lifetime, moment)),
    }
}
