//! Tests of lists, shards and cores, of the files that keep them, of lists under locks, of actors, and of entries weighed anew.
#![tactic(auto)]

#[cfg(test)]
mod actors;
#[cfg(test)]
mod anew;
#[cfg(test)]
mod cores;
#[cfg(test)]
mod files;
#[cfg(test)]
mod lists;
#[cfg(test)]
mod locked;
#[cfg(test)]
mod refused;
#[cfg(test)]
mod secrets;
#[cfg(test)]
mod shards;
#[cfg(test)]
mod walks;
