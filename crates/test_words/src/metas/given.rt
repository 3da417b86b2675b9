//! What a caller may say of a response in place of the judgement by its lines.
use cache_heads::GivenMeta;
use cache_words::time::Moment;

// How many bytes are said to be outside, and whether a meta can say so.
const OUTSIDE: &[(u64, bool)] = &[
    (0, true),
    (7, true),
    ((1 << 62) - 1, true),
    (1 << 62, false),
    (u64::MAX, false),
];

#[test]
fn no_meta_has_more_outside_than_can_be_weighed(rt: HostRuntime) {
    for &(external, is_said) in OUTSIDE {
        let (until, created) = (Moment::from_seconds(1300), Moment::from_seconds(900));
        let given = GivenMeta::new(until, created, 30, 60);
        assert!(rt; given.external() == 0);
        let said = given.with_external(external);
        assert!(rt; said.is_some() == is_said);
        if let Some(said) = said {
            assert!(rt; said.external() == external && said.fresh_until == until);
            assert!(rt;
                said.created == created && said.updated == created && said.provenance == created
            );
            assert!(rt; (said.stale_while_revalidate_sec, said.stale_if_error_sec) == (30, 60));
        }
    }
}
