//! The store in memory: writes and their pieces, readers before and after these, purges, other metas, tags, and what is kept of finished bodies.
mod bench;
mod cuts;
mod ends;
mod names;
mod pieces;
mod reading;
mod refused;
mod rows;
mod sizes;

use bench::run;
use cuts::{CUTS, are_alike};
use ends::TOLD;
use refused::keeps_pieces;
use rows::{
    COUNTED, ELSEWHERE, ENDED, PARTED, PURGED, RENEWED, SOUGHT, STREAMED, TAGGED, WEIGHED, WHOLE,
};

#[test]
fn steps_give_what_they_must(rt: HostRuntime) {
    assert!(rt; run(rt.alloc(), STREAMED));
    assert!(rt; run(rt.alloc(), PARTED));
    assert!(rt; run(rt.alloc(), ENDED));
    assert!(rt; run(rt.alloc(), TOLD));
    assert!(rt; run(rt.alloc(), PURGED));
    assert!(rt; run(rt.alloc(), SOUGHT));
    assert!(rt; run(rt.alloc(), RENEWED));
    assert!(rt; run(rt.alloc(), WHOLE));
    assert!(rt; run(rt.alloc(), WEIGHED));
    assert!(rt; run(rt.alloc(), TAGGED));
    assert!(rt; run(rt.alloc(), ELSEWHERE));
    assert!(rt; run(rt.alloc(), COUNTED));
}

#[test]
fn each_cut_is_answered_alike(rt: HostRuntime) {
    assert!(rt; are_alike(rt.alloc(), CUTS));
}

#[test]
fn the_size_of_a_write_is_told(rt: HostRuntime) {
    assert!(rt; sizes::are_told(rt.alloc()) == Some(true));
}

#[test]
fn refused_memory_of_a_join_keeps_pieces(rt: HostRuntime) {
    assert!(rt; keeps_pieces(rt.alloc()));
}
