//! Metas as bytes. A case has the seconds of fresh_until, created and updated, both windows, the variance in hex, and the seconds
//! of epoch_override and provenance, `-` where one is absent; its outcome is the bytes in hex. The first line is that of the
//! format's description, the others were written by the original cache's own meta.rs.
use cache_words::key::str2hex;
use cache_words::time::Moment;
use head_metas::internal;
use head_metas::versions::InternalMetaV2;
use std::alloc::{AllocError, Global};
use std::str::SplitWhitespace;

fn number(words: &mut SplitWhitespace<'_>) -> Option<i64> {
    words.next()?.parse::<i64>().ok()
}

// The moment of the next word; none for `-`.
fn moment(words: &mut SplitWhitespace<'_>) -> Option<Moment> {
    match number(words) {
        Some(seconds) => Some(Moment::from_seconds(seconds)),
        None => None,
    }
}

// A window; one that no meta of the table has where the next word is no number.
fn window(words: &mut SplitWhitespace<'_>) -> u32 {
    match number(words) {
        Some(seconds) => u32::try_from(seconds).unwrap_or(u32::MAX),
        None => u32::MAX,
    }
}

// The meta of a case; with moments that are not written where they are missing.
fn parsed(case: &str) -> InternalMetaV2 {
    let mut words = case.split_whitespace();
    let never = Moment::from_seconds(-1);
    InternalMetaV2 {
        fresh_until: moment(&mut words).unwrap_or(never),
        created: moment(&mut words).unwrap_or(never),
        updated: moment(&mut words).unwrap_or(never),
        stale_while_revalidate_sec: window(&mut words),
        stale_if_error_sec: window(&mut words),
        variance: str2hex(words.next().unwrap_or("-")),
        epoch_override: moment(&mut words),
        provenance: moment(&mut words),
    }
}

/// Returns the meta of a case as it is written, in hex, or that it isn't written, or isn't read as the same meta again.
pub fn outcome(alloc: Global, case: &str) -> Result<String, AllocError> {
    let meta = parsed(case);
    match internal::write(alloc, &meta) {
        Ok(bytes) => {
            if internal::read(bytes.as_slice()) == Ok(meta) {
                hex::encode(alloc, bytes.as_slice())
            } else {
                String::from_str(alloc, "read as another")
            }
        }
        Err(_) => String::from_str(alloc, "refused"),
    }
}
