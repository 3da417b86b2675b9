//! Laws of the exchanges and of the tier. No code runs.
ghost use Rattle.std.specs.Prelude.{◌≡◌, None};
ghost use Rattle.gateway_exchanges.specs.declared.exchange.Exchange.{Exchange};
ghost use Rattle.gateway_state.specs.declared.state.Gateway.{Gateway};
ghost use Rattle.gateway_exchanges.specs.Tables.{exchange_at};
ghost use Rattle.gateway_state.specs.Openings.{is_open_at, KeepsOthersOpen, IsAgreed};

/// What is done at the tier for the exchange that a call is about leaves the others agreed with the tier, which hold a request there exactly where one is
/// open under their number; so all are, where that one is.
pub fn what_is_done_for_one_leaves_the_others_agreed()
    ensures { (old new : Gateway) (e left : Exchange) → left.x ≡ e.x → new.table ≡ old.table → exchange_at e.x old.table ≡ None → KeepsOthersOpen e.x old new
        → left.steps.state.tier.held ≡ is_open_at left.x new → IsAgreed old e → IsAgreed new left }
{}
