//! A gateway.
ghost use Rattle.std.specs.Prelude.{◌≡◌, ◌≤◌, ◌++◌, [], decimal, IfOk, OnOk};
ghost use Rattle.std.specs.FinMap as finite;
ghost use Rattle.std.specs.NonZero.{non_zero_usize_get};
ghost use Rattle.lru.specs.LruCache.{lru_cache};
ghost use Rattle.gateway_exchanges.specs.Limits.{timeouts_by, each_at_least_one};
ghost use Rattle.gateway_state.specs.States.{secret_by, token_by, tracked_of, weight_of, IsNewGateway};
ghost use Rattle.gateway_steps.specs.Sides.{capped_sum};
ghost use Rattle.gateway_rules.specs.Options.{options_of, options_in};
ghost use Rattle.rules_ffi_arguments.specs.Given.{Gives};

use cache_words::key::{HashBinary, hash_key};
use cache_words::time::Duration;
use gateway_exchanges::limits::Limits;
use gateway_exchanges::table::Table;
use gateway_exchanges::tails::Tails;
use gateway_rules::Rules;
use gateway_rules::moments::Moment;
use gateway_steps::state::Timeouts;
use itoa::Buffer;
use lru::LruCache;
use rand_core::SeedableRng;
use rand_pcg::Pcg64;
use rules_ffi_arguments::bad::Bad;
use rules_ffi_arguments::shapes::OptionNumbers;
use seeded_hashing::SeededState;
use std::alloc::{AllocError, Global};
use std::num::NonZeroUsize;
use tier_single::tier::Tier;

/// What a gateway is made with.
#[derive(Clone, Copy)]
pub struct Chosen<'a> {
    pub numbers: OptionNumbers,
    /// The words of the rules' options, as an operator writes them.
    pub words: &'a [u8],
    /// 16 bytes or more, drawn.
    pub secret: &'a [u8],
    /// When it starts, so that nothing comes twice under one secret.
    pub started: Moment,
    pub limits: Limits,
    /// Starts the hashes of its tables.
    pub hash_start: u64,
}

/// The protocol between HTTP's rules and a tier.
pub struct Gateway {
    pub alloc: Global,
    pub rules: Rules,
    pub limits: Limits,
    pub timeouts: Timeouts,
    pub tier: Tier<1, SeededState>,
    pub rng: Pcg64,
    pub table: Table,
    pub tails: Tails,
    // Keys whose next response won't be stored, and since when. The one of which that was said the longest ago goes.
    pub predicted: LruCache<HashBinary, Moment, SeededState>,
    // How many exchanges there were, and how many requests to the origin.
    pub number: u64,
    pub sequence: u64,
    // Bytes of bodies in flight, as far as they are said, and of tails.
    pub flying: u64,
    // What tokens are made of, and how many there were.
    pub secret: HashBinary,
    pub tokens: u64,
    // When all was purged: what was stored until then is as if it weren't.
    pub floor: Option<Moment>,
    // The latest moment of a call that may ask the origin.
    pub latest: Moment,
    // Each exchange that begins says that its connection ends.
    pub stopping: bool,
}

impl Drop for Gateway {
    fn drop(self) {
        let Gateway {
            alloc: _,
            rules: _,
            limits: _,
            timeouts: _,
            tier: _,
            rng: _,
            table: _,
            tails: _,
            predicted: _,
            number: _,
            sequence: _,
            flying: _,
            secret: _,
            tokens: _,
            floor: _,
            latest: _,
            stopping: _,
        } = self;
    }
}

// What boundaries and tokens are made of.
fn secret_of(alloc: Global, chosen: &Chosen<'_>) -> Result<HashBinary, AllocError>
    ensures { IfOk result (λ secret. secret ≡ secret_by chosen.now.secret.now chosen.now.started) }
{
    let mut text = Vec::from_slice(alloc, chosen.secret)?;
    add_number(&mut text, chosen.started.seconds)?;
    text.push(b'.')?;
    add_number(&mut text, chosen.started.nanoseconds)?;
    Ok(hash_key(text.as_slice()))
}

fn add_number(text: &mut Vec<u8>, number: u64) -> Result<(), AllocError>
    ensures { OnOk result (text.new.items ≡ text.old.items ++ decimal number) }
{
    let mut digits = Buffer::new();
    text.extend_from_slice(digits.format(number).as_bytes())
}

fn token_of(alloc: Global, secret: &HashBinary, number: u64) -> Result<Vec<u8>, AllocError>
    ensures { IfOk result (λ token. token.items ≡ token_by secret.now number) }
{
    let mut text = Vec::from_slice(alloc, secret)?;
    add_number(&mut text, number)?;
    let digits = hex::encode(alloc, hash_key(text.as_slice()))?;
    Vec::from_slice(alloc, digits.as_bytes())
}

const SECOND: u64 = 1_000_000_000;

fn timeouts_of(limits: &Limits) -> Timeouts
    ensures { result ≡ timeouts_by limits.now }
{
    Timeouts {
        first_byte: limits.first_byte_timeout.saturating_mul(SECOND),
        between_bytes: limits.between_bytes_timeout.saturating_mul(SECOND),
        lock_age: limits.lock_age.saturating_mul(SECOND),
        lock_timeout: limits.lock_timeout.saturating_mul(SECOND),
    }
}

// As many as that, and memory for each when it comes.
fn no_predictions(
    alloc: Global,
    hasher: SeededState,
    most: u64,
) -> Result<LruCache<HashBinary, Moment, SeededState>, AllocError>
    requires { 1 ≤ most }
    ensures { IfOk result (λ predicted. predicted ≡ lru_cache [] most) }
{
    let mut predicted = LruCache::unbounded_with_hasher(alloc, hasher)?;
    predicted.resize(at_least_one(most as usize));
    Ok(predicted)
}

fn at_least_one(most: usize) -> NonZeroUsize
    requires { 1 ≤ most }
    ensures { non_zero_usize_get result ≡ most }
{
    match NonZeroUsize::new(most) {
        Some(most) => most,
        None => NonZeroUsize::MIN,
    }
}

impl Gateway {
    /// A gateway without an exchange, with an empty tier.
    pub fn new(alloc: Global, chosen: &Chosen<'_>) -> Result<Gateway, Bad>
        ensures new { IfOk result (λ g. IsNewGateway (each_at_least_one chosen.now.limits) g) }
        ensures secret { IfOk result (λ g. g.secret ≡ secret_by chosen.now.secret.now chosen.now.started) }
        ensures rules { Gives (λ g. options_of g.rules) result (options_in chosen.now.numbers chosen.now.words.now (secret_by chosen.now.secret.now chosen.now.started)) }
    {
        let limits = chosen.limits.at_least_one();
        let secret = secret_of(alloc, chosen)?;
        let hasher = SeededState {
            word: chosen.hash_start,
        };
        let limit = limits.max_bytes as usize;
        let age = Duration::from_seconds(limits.lock_age);
        let wait = Duration::from_seconds(limits.lock_timeout);
        Ok(Gateway {
            alloc,
            rules: Rules::new(alloc, chosen.numbers, chosen.words, &secret)?,
            limits,
            timeouts: timeouts_of(&limits),
            tier: Tier::with_hasher(alloc, hasher, limit, None, age, Some(wait))?,
            rng: Pcg64::seed_from_u64(0),
            table: Table::new(alloc, hasher),
            tails: Tails::new(alloc, hasher),
            predicted: no_predictions(alloc, hasher, limits.max_predicted)?,
            number: 0,
            sequence: 0,
            flying: 0,
            secret,
            tokens: 0,
            floor: None,
            latest: Moment {
                seconds: 0,
                nanoseconds: 0,
            },
            stopping: false,
        })
    }

    /// A token that names a set of Vary: it comes once.
    pub fn next_token(&mut self) -> Result<Vec<u8>, AllocError>
        ensures counted { self.new ≡ record self.old { tokens = capped_sum self.old.tokens 1 } }
        ensures token { IfOk result (λ token. token.items ≡ token_by self.old.secret (capped_sum self.old.tokens 1)) }
    {
        self.tokens = self.tokens.saturating_add(1);
        token_of(self.alloc, &self.secret, self.tokens)
    }

    /// How many exchanges are open.
    pub fn exchanges(&self) -> usize
        ensures { result ≡ finite.len self.now.table.places }
    {
        self.table.len()
    }

    /// What the whole bodies in its tier weigh, and how many these are, in constant time.
    pub fn weight(&self) -> (u64, u64)
        ensures { result ≡ (weight_of self.now, tracked_of self.now) }
    {
        self.tier.weight()
    }
}
