//! Tests of the tier without memory, of a tier that threads share, of what its definitions stand on, and of trace lines and the program that replays
//! them. What the tier answers with memory is in the traces of `traces`.
#![tactic(auto)]

#[cfg(test)]
mod asks;
mod drops;
#[cfg(test)]
mod ends;
#[cfg(test)]
mod given_up;
#[cfg(test)]
mod hits;
#[cfg(test)]
mod model;
#[cfg(test)]
mod outcomes;
#[cfg(test)]
mod refusals;
#[cfg(test)]
mod restarts;
#[cfg(test)]
mod runs;
#[cfg(test)]
mod shared;
#[cfg(test)]
mod stops;
#[cfg(test)]
mod traces;
#[cfg(test)]
mod trials;
#[cfg(test)]
mod whole;
