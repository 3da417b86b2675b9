//! Tests of words, entries, directives, metas, heads and responses against values from outside.
#![tactic(auto)]

#[cfg(test)]
mod directives;
#[cfg(test)]
mod entries;
#[cfg(test)]
mod heads;
#[cfg(test)]
mod made;
#[cfg(test)]
mod metas;
#[cfg(test)]
mod responses;
#[cfg(test)]
mod words;
