//! Tests of stores, and of puts into them; of managers; and of locks.
#![tactic(auto)]

#[cfg(test)]
mod chosen;
#[cfg(test)]
mod copies;
#[cfg(test)]
mod decisions;
#[cfg(test)]
mod fresh;
#[cfg(test)]
mod heads;
#[cfg(test)]
mod locks;
#[cfg(test)]
mod managers;
#[cfg(test)]
mod memory;
#[cfg(test)]
mod nothing;
#[cfg(test)]
mod packed;
#[cfg(test)]
mod puts;
#[cfg(test)]
mod samples;
#[cfg(test)]
mod targets;
#[cfg(test)]
mod tracing;
