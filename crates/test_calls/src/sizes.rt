//! The sizes that `embed/cache_tier.h` states.
use std::mem::{align_of, size_of};
use tier_calls::keeps::Keep;
use tier_calls::structs::{
    CallAnswer, Counts, EntryShown, FileShown, FoundShown, HeadShown, MetaWords, Options,
};

#[test]
fn structs_have_the_sizes_of_the_header(rt: HostRuntime) {
    assert!(rt; size_of::<Options>() == 96);
    assert!(rt; size_of::<CallAnswer>() == 96);
    assert!(rt; size_of::<MetaWords>() == 96);
    assert!(rt; size_of::<Counts>() == 96);
    assert!(rt; size_of::<HeadShown>() == 128);
    assert!(rt; size_of::<FoundShown>() == 240);
    assert!(rt; size_of::<EntryShown>() == 72);
    assert!(rt; size_of::<FileShown>() == 24);
}

// The header has twelve words for it.
#[test]
fn what_is_kept_fits_into_its_words(rt: HostRuntime) {
    assert!(rt; size_of::<Keep>() <= 96);
    assert!(rt; align_of::<Keep>() <= 8);
}
