//! How many requests there were.
ghost use Rattle.std.specs.Prelude.{◌≡◌, ◌+◌, ◌-◌, ◌<◌, ◌≤◌, ◌*◌, ◌^◌, ◌==◌, if◌then◌else◌, OnOk, OnErr, IfErr};
ghost use Rattle.curve_sizes.specs.declared.fault.CurveFault.TheVariants.{TooMany};

use crate::fault::CurveFault;

/// How many requests were counted.
#[derive(Clone, Copy, PartialEq, Eq, Debug)]
pub struct Totals {
    /// Requests that ask.
    pub asks: u64,
    /// Requests that remove.
    pub removed: u64,
    /// Requests that ask for an entry by another weight than its own.
    pub odd: u64,
    /// What the entries weigh that are asked for.
    pub bytes: u128,
    /// What the requests that ask say that they weigh.
    pub said: u128,
    ghost fits: { (odd ≤ asks) × (bytes ≤ asks * 2 ^ 64) × (said ≤ asks * 2 ^ 64) },
}

// One request more that asks.
pub(crate) fn add_ask(totals: &mut Totals, own: u64, weight: u64)
    requires { totals.old.asks < 2 ^ 64 - 1 }
    ensures asks { totals.new.asks ≡ 1 + totals.old.asks }
    ensures removed { totals.new.removed ≡ totals.old.removed }
    ensures odd { totals.new.odd ≡ (if weight == own then 0 else 1) + totals.old.odd }
    ensures bytes { totals.new.bytes ≡ own + totals.old.bytes }
    ensures said { totals.new.said ≡ weight + totals.old.said }
{
    let odd = if weight == own { 0 } else { 1 };
    *totals = Totals {
        asks: 1 + totals.asks,
        removed: totals.removed,
        odd: odd + totals.odd,
        bytes: u128::from(own) + totals.bytes,
        said: u128::from(weight) + totals.said,
    };
}

// One request more that removes.
pub(crate) fn add_removal(totals: &mut Totals) -> Result<(), CurveFault>
    ensures asks { OnOk result (totals.new.asks ≡ totals.old.asks) }
    ensures removed { OnOk result (totals.new.removed ≡ 1 + totals.old.removed) }
    ensures odd { OnOk result (totals.new.odd ≡ totals.old.odd) }
    ensures bytes { OnOk result (totals.new.bytes ≡ totals.old.bytes) }
    ensures said { OnOk result (totals.new.said ≡ totals.old.said) }
    ensures err { OnErr result (totals.new ≡ totals.old) }
    ensures fault { IfErr result (λ fault. (fault ≡ TooMany) × (totals.old.removed ≡ 2 ^ 64 - 1)) }
    ensures counts { OnOk result (totals.old.removed < 2 ^ 64 - 1) }
{
    if totals.removed == u64::MAX {
        return Err(CurveFault::TooMany);
    }
    totals.removed += 1;
    Ok(())
}
