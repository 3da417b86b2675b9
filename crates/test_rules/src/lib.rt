//! Tests of the calls of HTTP's rules: each once, as a program in C makes them.
#![tactic(auto)]

#[cfg(test)]
mod asked;
#[cfg(test)]
mod bodies;
#[cfg(test)]
mod exchanges;
#[cfg(test)]
mod good;
#[cfg(test)]
mod heads;
#[cfg(test)]
mod made;
#[cfg(test)]
mod odd;
#[cfg(test)]
mod predicted;
#[cfg(test)]
mod sets;
#[cfg(test)]
mod words;
