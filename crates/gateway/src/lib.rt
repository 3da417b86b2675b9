//! A gateway: the protocol between HTTP's rules and a tier as one value, without a socket, a clock or a thread. It is given bytes and moments, and answers
//! with bytes to send.
//!
//! What a call does: generated answers, what passes, look-ups with sets of Vary, hits, waits, what is read on as another stores it, what a client is sent
//! and how its side ends, purges of a key and of all, a stop. What comes from an origin is `gateway_responses`.
#![tactic(auto)]

mod acts;
mod asking;
mod calling;
pub mod calls;
mod lookups;
mod purges;
mod requested;
mod responded;
mod sending;
mod sharing;
mod verdicts;
mod waiting;
