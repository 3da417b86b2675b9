//! What tests of a shared tier let go of, let go of here too: a drop that has a proof in a crate must be there without its tests.
use rand_pcg::Pcg64;
use std::sync::ledger::Ledger;
use tier_shared::{Counted, CountedTier, NotShared, Recorded, SharedTier};

type Shared<L> = SharedTier<4, Pcg64, L>;

type Counting<L> = CountedTier<4, Pcg64, L>;

fn without_fault<L: Ledger>(made: Result<Shared<L>, NotShared<4, Pcg64>>) -> Option<Shared<L>> {
    made.ok()
}

fn without_tier<L: Ledger>(
    closed: Result<Recorded<4, Pcg64, L>, (u64, Shared<L>)>,
) -> Option<Recorded<4, Pcg64, L>> {
    closed.ok()
}

fn without_history<L: Ledger>(
    closed: Result<Recorded<4, Pcg64, L>, (u64, Shared<L>)>,
) -> Option<(u64, Shared<L>)> {
    closed.err()
}

fn without_counting<L: Ledger>(
    closed: Result<Counted<4, Pcg64, L>, (u64, Counting<L>)>,
) -> Option<Counted<4, Pcg64, L>> {
    closed.ok()
}

fn without_count<L: Ledger>(
    closed: Result<Counted<4, Pcg64, L>, (u64, Counting<L>)>,
) -> Option<(u64, Counting<L>)> {
    closed.err()
}
