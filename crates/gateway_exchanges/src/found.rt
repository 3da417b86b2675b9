//! What was found at the tier.
ghost use Rattle.std.specs.Prelude.{◌≡◌};
ghost use Rattle.gateway_exchanges.specs.Found.{shape_by, stored_by, nothing_found};

use bytes::Bytes;
use gateway_rules::moments::from_tier;
use gateway_rules::stored::Stored;
use gateway_types::looks::Permit;
use head_metas::versions::InternalMetaV2;
use head_packed::SharedHead;
use rules_ffi_arguments::shapes::{HeadShape, Lent};
use tier_single::FoundMeta;

/// What was found, as the rules look at it.
pub fn stored_of(meta: FoundMeta) -> Stored
    ensures { result ≡ stored_by meta }
{
    let shape = shape_of(&meta.head, &meta.internal, meta.external);
    Stored {
        shape,
        head: meta.head,
    }
}

fn shape_of(head: &SharedHead, internal: &InternalMetaV2, external: u64) -> HeadShape
    ensures { result ≡ shape_by (record { head = head.now; internal = internal.now; external = external }) }
{
    HeadShape {
        status: u64::from(head.status().as_u16()),
        lines: head.lines(),
        fresh_until: from_tier(internal.fresh_until),
        created: from_tier(internal.created),
        updated: from_tier(internal.updated),
        provenance: from_tier(internal.provenance.unwrap_or(internal.created)),
        stale_while_revalidate: u64::from(internal.stale_while_revalidate_sec),
        stale_if_error: u64::from(internal.stale_if_error_sec),
        external,
        block: Lent { at: 0, len: 0 },
        reserved: 0,
    }
}

/// What a look-up found.
#[derive(Drop)]
pub struct Look {
    pub found: Option<Stored>,
    /// Where it is whole.
    pub body: Bytes,
    pub fresh: bool,
    pub whole: bool,
    pub permit: Permit,
}

/// Nothing.
pub fn nothing(permit: Permit) -> Look
    ensures { result ≡ nothing_found permit }
{
    Look {
        found: None,
        body: Bytes::new(),
        fresh: false,
        whole: false,
        permit,
    }
}
