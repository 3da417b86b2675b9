//! The whole promise of a tier in one file.
//!
//! `specs/Promise` says, with few words from elsewhere, what a tier answers: what calls change, what an open request is, and for each event
//! its row, the one answer and the changes that it makes, by the calls before it. The first law says that each lawful history (`IsLawful` of
//! `tier_model`, which `Tier::step` and `Tier::run` keep) keeps all of its `Promise`: each call is answered by its row, a key is found
//! exactly where a write of it is alive, bodies keep both limits, and each body's entry is tracked with at least what the body takes.
//!
//! That a key is found so, and that bodies are tracked, holds after whatever calls are so answered (`proofs/NowCalls`). The limits are kept since the state
//! after a lawful history keeps them, and its bodies are the same (`proofs/NowWithin`).
//!
//! Three more laws explain its words. A permit that waits by the changes (`waiting`) waits by the answers, and the tracked entries (`rows`) are
//! the order of use of `tier_model`, both after each lawful history. And what a request read, joined, is a beginning of the bytes of its
//! write, or of a whole body nothing or all (`specs/Readers`), whenever each call was answered by its row.
//!
//! The others say in a user's words what follows of one or two calls: after a purge, of a find, of a permit, of a find and the read after
//! it, of the limit, of a put that finished, of a 304, of what goes. And the words of the generator that the evictions of a lawful history
//! drew by its states (`specs/Draws`) are those that picked from the rows (`proofs/Drawn`).
#![tactic(auto)]

pub mod laws;
