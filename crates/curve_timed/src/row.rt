//! Rows of what is found fresh.
ghost use Rattle.std.specs.Prelude.{◌≡◌, length, IfOk};
ghost use Rattle.curve_timed.specs.Zipped.{zipped};

use curve_sizes::CurveRow;
use std::alloc::{AllocError, Global};

/// What is found fresh under a limit: how many requests find their entry fresh, and what these entries weigh together.
#[derive(Clone, Copy, PartialEq, Eq, Debug)]
pub struct FreshRow {
    pub limit: u64,
    pub finds: u128,
    pub bytes: u128,
}

// Rows of these limits and counts.
pub(crate) fn zipped(
    alloc: Global,
    rows: &[CurveRow],
    finds: &[u128],
    bytes: &[u128],
) -> Result<Vec<FreshRow>, AllocError>
    requires { (length finds.now ≡ length rows.now) × (length bytes.now ≡ length rows.now) }
    ensures { IfOk result (λ zipped_rows. zipped_rows.items ≡ zipped rows.now finds.now bytes.now) }
{
    let mut all = Vec::with_capacity(alloc, rows.len())?;
    for i in 0..rows.len() {
        all.push(FreshRow {
            limit: rows[i].limit,
            finds: finds[i],
            bytes: bytes[i],
        })?;
    }
    Ok(all)
}
