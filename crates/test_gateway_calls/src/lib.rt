//! Tests of the calls of the gateway, each once, as rows.
#![tactic(auto)]

#[cfg(test)]
mod calls;
