//! What a cache of one list finds, by its requests alone: the ground of capacity planning.
//!
//! The **load** of an entry is the entry itself and all entries asked for since it was last, each once, without those removed since
//! they were last asked for. It is counted by weight and by number, and no limit is in it.
//!
//! The law, for a cache that holds one list, latest used first, and whose entries each have one weight: an entry is held exactly
//! where it was asked for, not removed since, and its load was within the weight limit and the watermark after each request
//! from that last one on (`laws::loads_tell_what_is_held`). Without removals its load now decides alone.
//!
//! So what the cache holds under lesser limits is a front of what it holds under greater ones: the same entries in the same order,
//! with the same weights, and then some more. A request that finds its entry in a cache finds it in each greater one, and a greater
//! limit loses nothing (`laws::lesser_lists_are_fronts`). Neither holds of several shards, nor where the weight of an entry changes.
//!
//! It is for those who choose a limit: one pass over a trace gives the finds of all limits, by the greatest load that each entry
//! had since it was last asked for (`laws::peaks_count_the_finds`).
//!
//! One pass over a trace shows all limits at once (`one_pass`). Keep the entries in the order of use, as cells. An entry that leaves
//! its place, by a removal or because it is asked for again, leaves a hole of its weight there; an ask takes its weight from the holes, the
//! latest first, as far as there are any, and puts its own cell in front. The height of an entry, what its cell and all cells in front of it
//! weigh, is its greatest load since it was last asked for. So a cache of one list holds the entry exactly where its heights, by weight
//! and by number, are within the limits. A removal doesn't make this harder: it changes no sum.
//!
//! Its contracts are the laws `laws::loads_tell_what_is_held` and `one_pass::heights_are_peaks`.
//! `tier_loads`, `curve_heights` and `curve_sizes` rest on it.
#![tactic(auto)]

pub mod laws;
pub mod one_pass;
