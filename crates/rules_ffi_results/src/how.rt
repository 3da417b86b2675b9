//! What Cache-Status says (RFC 9211).
ghost use Rattle.std.specs.Prelude.{◌≡◌, ◌++◌, ◌∷◌, [], map, IfOk, OnOk};
ghost use Rattle.std.specs.Fmt.{decimal};
ghost use Rattle.rules_ffi_arguments.specs.Given.{Gives, NeedsNoMemory};
ghost use Rattle.rules_ffi_results.specs.Reasons.{reason_name};
ghost use Rattle.rules_ffi_results.specs.Hows.{how_in, fetch_of, forward_name, seconds_in, time_to_live, of_hit, of_why, of_status, of_forward, of_flags, of_detail, said};
ghost use Rattle.rules_ffi_results.specs.Parameter.{texts_of};

use crate::heads::add_number;
use crate::reasons::reason_name;
use rules_ffi_arguments::bad::Bad;
use rules_ffi_arguments::shapes::How;
use rules_response::telling::Fetch;
use std::alloc::{AllocError, Global};

/// The parameters of an own element.
#[derive(Drop)]
pub struct Parameters {
    texts: Vec<Vec<u8>>,
}

impl Parameters {
    /// The parameters, lent.
    pub fn lent(&self, alloc: Global) -> Result<Vec<&[u8]>, AllocError>
        ensures { IfOk result (λ v. map (λ t. t.now) v.items ≡ texts_of self.now) }
    {
        let mut texts = Vec::with_capacity(alloc, self.texts.len())?;
        for text in &self.texts {
            texts.push(text.as_slice())?;
        }
        Ok(texts)
    }
}

/// How an answer came, in its range.
pub fn how_in(how: &How) -> Result<&How, Bad>
    ensures gives { Gives (λ h. h.now) result (how_in how.now) }
    ensures memory { NeedsNoMemory result }
{
    if how.forward < 8 && how.fetch < 5 && how.closes < 2 {
        Ok(how)
    } else {
        Err(Bad::Call)
    }
}

/// What went to the origin.
pub fn fetch_of(how: &How) -> Fetch
    ensures { result ≡ fetch_of how.now }
{
    match how.fetch {
        2 => Fetch::Fill,
        3 => Fetch::Confirm,
        4 => Fetch::Again,
        _ => Fetch::PassOn,
    }
}

// Why a request went to the origin.
fn forward_name(forward: u64) -> &'static [u8]
    ensures { result.now ≡ forward_name forward }
{
    match forward {
        1 => b"fwd=uri-miss",
        2 => b"fwd=vary-miss",
        3 => b"fwd=miss",
        4 => b"fwd=stale",
        5 => b"fwd=request",
        6 => b"fwd=method",
        _ => b"fwd=bypass",
    }
}

const SECOND: u128 = 1_000_000_000;

/// The whole seconds that what is stored is fresh from now on; less than none, past that.
#[derive(Clone, Copy)]
pub struct TimeToLive {
    /// Whether it is past that.
    pub late: bool,
    /// The seconds.
    pub seconds: u64,
}

// The whole seconds of nanoseconds; a clock of 64 bits shows no more.
fn seconds_in(nanoseconds: u128) -> u64
    ensures { result ≡ seconds_in nanoseconds }
{
    match u64::try_from(nanoseconds) {
        Ok(n) => n / 1_000_000_000,
        Err(_) => u64::MAX / 1_000_000_000,
    }
}

/// The seconds that are left of a lifetime in seconds, from an arrival on, rounded down.
pub fn time_to_live(arrival: u64, lifetime: u64, now: u64) -> TimeToLive
    ensures { result ≡ time_to_live arrival lifetime now }
{
    let until = arrival as u128 + lifetime as u128 * SECOND;
    let now = now as u128;
    if until >= now {
        TimeToLive {
            late: false,
            seconds: seconds_in(until - now),
        }
    } else {
        TimeToLive {
            late: true,
            seconds: seconds_in(now - until + (SECOND - 1)),
        }
    }
}

fn add(alloc: Global, texts: &mut Vec<Vec<u8>>, text: &[u8]) -> Result<(), AllocError>
    ensures { OnOk result (map (λ t. t.items) texts.new.items ≡ map (λ t. t.items) texts.old.items ++ (text.now ∷ [])) }
{
    texts.push(Vec::from_slice(alloc, text)?)?;
    Ok(())
}

fn add_named(
    alloc: Global,
    texts: &mut Vec<Vec<u8>>,
    name: &[u8],
    number: u64,
) -> Result<(), AllocError>
    ensures { OnOk result (map (λ t. t.items) texts.new.items ≡ map (λ t. t.items) texts.old.items ++ ((name.now ++ decimal number) ∷ [])) }
{
    let mut text = Vec::from_slice(alloc, name)?;
    add_number(&mut text, number)?;
    texts.push(text)?;
    Ok(())
}

fn add_hit(
    alloc: Global,
    texts: &mut Vec<Vec<u8>>,
    left: Option<TimeToLive>,
) -> Result<(), AllocError>
    ensures { OnOk result (map (λ t. t.items) texts.new.items ≡ map (λ t. t.items) texts.old.items ++ of_hit left) }
{
    add(alloc, texts, b"hit")?;
    match left {
        None => Ok(()),
        Some(left) => {
            let name: &[u8] = if left.late { b"ttl=-" } else { b"ttl=" };
            add_named(alloc, texts, name, left.seconds)
        }
    }
}

fn add_why(alloc: Global, texts: &mut Vec<Vec<u8>>, forward: u64) -> Result<(), AllocError>
    ensures { OnOk result (map (λ t. t.items) texts.new.items ≡ map (λ t. t.items) texts.old.items ++ of_why forward) }
{
    if forward == 0 {
        return Ok(());
    }
    add(alloc, texts, forward_name(forward))
}

fn add_status(alloc: Global, texts: &mut Vec<Vec<u8>>, status: u64) -> Result<(), AllocError>
    ensures { OnOk result (map (λ t. t.items) texts.new.items ≡ map (λ t. t.items) texts.old.items ++ of_status status) }
{
    if status == 0 {
        return Ok(());
    }
    add_named(alloc, texts, b"fwd-status=", status)
}

fn add_forward(alloc: Global, texts: &mut Vec<Vec<u8>>, how: &How) -> Result<(), AllocError>
    ensures { OnOk result (map (λ t. t.items) texts.new.items ≡ map (λ t. t.items) texts.old.items ++ of_forward how.now) }
{
    add_why(alloc, texts, how.forward)?;
    add_status(alloc, texts, how.forward_status)
}

fn add_flags(alloc: Global, texts: &mut Vec<Vec<u8>>, how: &How) -> Result<(), AllocError>
    ensures { OnOk result (map (λ t. t.items) texts.new.items ≡ map (λ t. t.items) texts.old.items ++ of_flags how.now) }
{
    if how.stored != 0 {
        add(alloc, texts, b"stored")?;
    }
    if how.collapsed != 0 {
        add(alloc, texts, b"collapsed")?;
    }
    Ok(())
}

fn add_detail(alloc: Global, texts: &mut Vec<Vec<u8>>, reason: u64) -> Result<(), AllocError>
    ensures { OnOk result (map (λ t. t.items) texts.new.items ≡ map (λ t. t.items) texts.old.items ++ of_detail (reason_name reason)) }
{
    let name = reason_name(reason);
    if name.is_empty() {
        return Ok(());
    }
    let mut text = Vec::from_slice(alloc, b"detail=")?;
    text.extend_from_slice(name)?;
    texts.push(text)?;
    Ok(())
}

/// The parameters of an own element: a hit with the seconds that are left, or why it went to the origin and with which status, and so on.
#[tactic(auto, unfolding(crate::specs::Hows::said))]
pub fn said(alloc: Global, how: &How, left: Option<TimeToLive>) -> Result<Parameters, AllocError>
    ensures { IfOk result (λ p. texts_of p ≡ said how.now left) }
{
    let mut texts = Vec::new(alloc);
    if how.hit != 0 {
        add_hit(alloc, &mut texts, left)?;
    } else {
        add_forward(alloc, &mut texts, how)?;
    }
    add_flags(alloc, &mut texts, how)?;
    add_detail(alloc, &mut texts, how.detail)?;
    Ok(Parameters { texts })
}
