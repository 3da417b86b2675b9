//! An exchange: a state in which `IsExchange` holds.
ghost use Rattle.std.specs.Prelude.{◌≡◌, false};
ghost use Rattle.gateway_steps.specs.Invariant.{IsExchange};
ghost use Rattle.gateway_steps.specs.Sides.{first_state};

use crate::state::{AtTier, ClientSide, Ending, OriginSide, Source, State};
use gateway_types::states::{Client, Fetch, Origin};

/// A client's request, and how far what is done for it is.
#[derive(Clone, Copy)]
pub struct Exchange {
    /// Its state, which its steps change.
    pub state: State,
    pub ghost is_exchange: { IsExchange state },
}

impl Exchange {
    /// A request has come. Whether more of it comes, its body; and whether its connection ends behind the answer, since it wasn't read.
    pub fn new(owes_body: bool, closes: bool) -> Self
        ensures { result.state ≡ first_state owes_body closes }
    {
        Exchange {
            state: State {
                client: new_client(owes_body, closes),
                origin: new_origin(),
                tier: new_tier(),
            },
        }
    }
}

fn new_client(owes_body: bool, closes: bool) -> ClientSide
    ensures { result ≡ (first_state owes_body closes).client }
{
    ClientSide {
        phase: Client::Awaiting,
        began: false,
        closes,
        source: Source::Text,
        ending: Ending::GoesOn,
        place: 0,
        owes_body,
    }
}

fn new_origin() -> OriginSide
    ensures { result ≡ (first_state false false).origin }
{
    OriginSide {
        phase: Origin::Idle,
        fetch: Fetch::Pass,
        sequence: 0,
        leads: false,
        asked: 0,
        word: 0,
        came: None,
        spoke: false,
        body_sent: false,
        sent_again: false,
        blocked: false,
        purged: false,
        overtaken: false,
        superseded: false,
        close_delimited: false,
        reusable: false,
        length: None,
        size: 0,
        unread: 0,
        tailed: false,
        stored: 0,
    }
}

fn new_tier() -> AtTier
    ensures { result ≡ (first_state false false).tier }
{
    AtTier {
        held: false,
        writes: false,
        joinable: false,
        permit: None,
        alone: false,
        collapsed: false,
        since: None,
        holder: None,
        moved: false,
        writer: None,
        tailed: false,
        passing: false,
    }
}
