//! Tests of the calls that programs in C make.
#![tactic(auto)]

#[cfg(test)]
mod bounds;
#[cfg(test)]
mod days;
#[cfg(test)]
mod given_up;
#[cfg(test)]
mod heads;
#[cfg(test)]
mod made;
#[cfg(test)]
mod plays;
#[cfg(test)]
mod short;
#[cfg(test)]
mod sizes;
