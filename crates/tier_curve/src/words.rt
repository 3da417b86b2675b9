//! What single options say.
use crate::fault::Fault;
use clap::ArgMatches;
use curve_words::size;

/// Whether an option is given.
pub(crate) fn has(matches: &ArgMatches<'_>, name: &'static str) -> bool {
    matches.get_str(name).is_some()
}

/// The size that an option says, where it is given.
pub(crate) fn size_of(
    matches: &ArgMatches<'_>,
    name: &'static str,
    wrong: &'static str,
) -> Result<Option<u64>, Fault> {
    let Some(text) = matches.get_str(name) else {
        return Ok(None);
    };
    match size(text.as_bytes()) {
        Some(number) => Ok(Some(number)),
        None => Err(Fault::Wrong(wrong)),
    }
}
