//! Which keys are asked for again.
ghost use Rattle.std.specs.Prelude.{◌≡◌, ◌⊎◌, ℕ, ◌+◌, ◌-◌, ◌^◌, ◌≤◌, ◌<◌, ◌==◌, ◌&&◌, true, false, not, nat_lt, [], length, slice_index_or, if◌then◌else◌, IfErr, OnOk, OnErr};
ghost use Rattle.curve_sizes.specs.declared.fault.CurveFault.TheVariants.{TooMany};
ghost use Rattle.curve_keys.specs.Faults.{IsRepeatFault};
ghost use Rattle.curve_keys.specs.Repeats.{AreRepeats, CountsAsk, IsUncounted};

use curve_sizes::CurveFault;
use std::alloc::{AllocError, Global};

/// Which keys, by their numbers, are asked for more than once, as requests go on.
#[derive(Drop)]
pub struct Repeats {
    again: Vec<bool>,
    /// How many keys are.
    pub keys: u64,
    /// What they weigh together, each once.
    pub bytes: u128,
}

impl Repeats {
    /// No key was asked for.
    pub fn new(alloc: Global) -> Repeats
        ensures { AreRepeats [] result [] }
    {
        Repeats {
            again: Vec::new(alloc),
            keys: 0,
            bytes: 0,
        }
    }

    /// Counts a request for a key of that weight: one that was asked for, or the next number.
    ///
    /// # Errors
    ///
    /// `TooMany` where a key's second request comes and a count of those is spent, and `Memory` where it is the first of a key. Nothing
    /// was counted then.
    pub fn ask(&mut self, alloc: Global, entry: u32, weight: u64) -> Result<(), CurveFault>
        requires { entry ≤ length self.old.again.items }
        ensures counted { OnOk result (CountsAsk entry weight self.old self.new) }
        ensures fault { IfErr result (IsRepeatFault self.old entry weight) }
        ensures err { OnErr result (IsUncounted self.old self.new) }
    {
        let is_second = is_once(self.again.as_slice(), entry as usize);
        self.add(is_second, weight)?;
        enter(&mut self.again, entry as usize)?;
        Ok(())
    }

    // Counts a key of that weight, if its second request came.
    fn add(&mut self, is_second: bool, weight: u64) -> Result<(), CurveFault>
        ensures added { OnOk result (self.new ≡ record self.old { keys = self.old.keys + (if is_second then 1 else 0); bytes = self.old.bytes + (if is_second then weight else 0) }) }
        ensures fault { IfErr result (λ fault. (fault ≡ TooMany) × (is_second ≡ true) × ((self.old.keys ≡ 2 ^ 64 - 1) ⊎ (2 ^ 128 ≤ self.old.bytes + weight))) }
        ensures err { OnErr result (self.new ≡ self.old) }
    {
        if !is_second {
            return Ok(());
        }
        let Some(keys) = self.keys.checked_add(1) else {
            return Err(CurveFault::TooMany);
        };
        let Some(bytes) = self.bytes.checked_add(u128::from(weight)) else {
            return Err(CurveFault::TooMany);
        };
        self.keys = keys;
        self.bytes = bytes;
        Ok(())
    }
}

// Whether a key was asked for once.
fn is_once(again: &[bool], entry: usize) -> bool
    ensures { result ≡ (nat_lt entry (length again.now) && not (slice_index_or again.now entry false)) }
{
    if entry < again.len() {
        return !again[entry];
    }
    false
}

// Notes that a key is asked for. Only the first time that can fail.
fn enter(again: &mut Vec<bool>, entry: usize) -> Result<(), AllocError>
    requires { entry ≤ length again.old.items }
    ensures again { OnOk result ((n : ℕ) → slice_index_or again.new.items n false ≡ (if n == entry then nat_lt entry (length again.old.items) else slice_index_or again.old.items n false)) }
    ensures known { entry < length again.old.items → OnOk result (length again.new.items ≡ length again.old.items) }
    ensures next { entry ≡ length again.old.items → OnOk result (length again.new.items ≡ length again.old.items + 1) }
    ensures first { OnErr result (entry ≡ length again.old.items) }
    ensures err { OnErr result (again.new.items ≡ again.old.items) }
{
    if entry == again.len() {
        again.push(false)?;
        return Ok(());
    }
    again[entry] = true;
    Ok(())
}
