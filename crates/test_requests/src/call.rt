//! The calls, and their words.

/// A question of the request, answered by yes or no.
#[derive(Clone, Copy)]
pub enum Flag {
    Enabled,
    Bypassing,
    Upstream,
    HoldsLock,
    Releasable,
    ServesOnError,
    ServesUpdating,
    HasReader,
    HasWriter,
    CacheSpan,
    HitSpan,
    MissSpan,
}

/// A question of the request, answered by a word or a number.
#[derive(Clone, Copy)]
pub enum Told {
    OffFor,
    PredictedReason,
    Holds,
    Retries,
    Waited,
    Time,
    Decided,
    Abandoned,
    MaybeKey,
    KeyLent,
    KeyVariance,
    MaybeMeta,
    MetaLent,
    MetaVariance,
    Provenance,
    MostBytes,
    Exceeded,
}

/// What changes the request alone.
#[derive(Clone, Copy)]
pub enum Turn {
    Enable,
    Lock,
    Policy,
    Trace,
    Subrequest,
    Forget,
    AddTime,
    Miss,
    Updating,
    Limit,
}

/// What changes the request and a part of the cache, and answers nothing.
#[derive(Clone, Copy)]
pub enum Lead {
    Disable,
    Release,
    FinishReader,
    Bypass,
    BecameCacheable,
    Uncacheable,
    End,
}

/// What answers whether something was found, or fits.
#[derive(Clone, Copy)]
pub enum Find {
    Purge,
    SpawnPurge,
    Expire,
    Predicted,
    Track,
}

/// What sets a meta or what it varies by, or begins a write.
#[derive(Clone, Copy)]
pub enum Keep {
    Meta,
    Begin,
    Variance,
    Writer,
}

/// A call of a step; the page of the crate says what each means.
#[derive(Clone, Copy)]
pub enum Call {
    Flag(Flag),
    Told(Told),
    Turn(Turn),
    Lead(Lead),
    Find(Find),
    Keep(Keep),
    Read,
    ReadBack,
    Merge,
    Revalidate,
    Head,
    MovePermit,
    MoveReader,
    BecameUncacheable,
    Streams,
    Key,
    Look,
    LookAt,
    Vary,
    Write,
    Finish,
    MoveWriter,
    Wait,
    Publish,
    Tracked,
    ToldUntil,
    Burden,
    /// A word that names none: it is refused.
    Unknown,
}

const CALLS: &[(&str, Call)] = &[
    ("read", Call::Read),
    ("read-back", Call::ReadBack),
    ("merge", Call::Merge),
    ("head", Call::Head),
    ("move-permit", Call::MovePermit),
    ("enabled", Call::Flag(Flag::Enabled)),
    ("bypassing", Call::Flag(Flag::Bypassing)),
    ("upstream", Call::Flag(Flag::Upstream)),
    ("off-for", Call::Told(Told::OffFor)),
    ("predicted-reason", Call::Told(Told::PredictedReason)),
    ("holds", Call::Told(Told::Holds)),
    ("holds-lock", Call::Flag(Flag::HoldsLock)),
    ("releasable", Call::Flag(Flag::Releasable)),
    ("retries", Call::Told(Told::Retries)),
    ("waited", Call::Told(Told::Waited)),
    ("time", Call::Told(Told::Time)),
    ("decided", Call::Told(Told::Decided)),
    ("abandoned", Call::Told(Told::Abandoned)),
    ("maybe-key", Call::Told(Told::MaybeKey)),
    ("key-lent", Call::Told(Told::KeyLent)),
    ("key-variance", Call::Told(Told::KeyVariance)),
    ("maybe-meta", Call::Told(Told::MaybeMeta)),
    ("meta-lent", Call::Told(Told::MetaLent)),
    ("meta-variance", Call::Told(Told::MetaVariance)),
    ("provenance", Call::Told(Told::Provenance)),
    ("serves-on-error", Call::Flag(Flag::ServesOnError)),
    ("serves-updating", Call::Flag(Flag::ServesUpdating)),
    ("enable", Call::Turn(Turn::Enable)),
    ("disable", Call::Lead(Lead::Disable)),
    ("lock", Call::Turn(Turn::Lock)),
    ("policy", Call::Turn(Turn::Policy)),
    ("trace", Call::Turn(Turn::Trace)),
    ("subrequest", Call::Turn(Turn::Subrequest)),
    ("forget", Call::Turn(Turn::Forget)),
    ("add-time", Call::Turn(Turn::AddTime)),
    ("move-reader", Call::MoveReader),
    ("finish-reader", Call::Lead(Lead::FinishReader)),
    ("purge", Call::Find(Find::Purge)),
    ("spawn-purge", Call::Find(Find::SpawnPurge)),
    ("expire", Call::Find(Find::Expire)),
    ("predicted", Call::Find(Find::Predicted)),
    ("became-cacheable", Call::Lead(Lead::BecameCacheable)),
    ("became-uncacheable", Call::BecameUncacheable),
    ("limit", Call::Turn(Turn::Limit)),
    ("track", Call::Find(Find::Track)),
    ("most-bytes", Call::Told(Told::MostBytes)),
    ("exceeded", Call::Told(Told::Exceeded)),
    ("has-reader", Call::Flag(Flag::HasReader)),
    ("has-writer", Call::Flag(Flag::HasWriter)),
    ("streams", Call::Streams),
    ("cache-span", Call::Flag(Flag::CacheSpan)),
    ("hit-span", Call::Flag(Flag::HitSpan)),
    ("miss-span", Call::Flag(Flag::MissSpan)),
    ("key", Call::Key),
    ("end", Call::Lead(Lead::End)),
    ("bypass", Call::Lead(Lead::Bypass)),
    ("miss", Call::Turn(Turn::Miss)),
    ("updating", Call::Turn(Turn::Updating)),
    ("look", Call::Look),
    ("look-at", Call::LookAt),
    ("vary", Call::Vary),
    ("meta", Call::Keep(Keep::Meta)),
    ("begin", Call::Keep(Keep::Begin)),
    ("variance", Call::Keep(Keep::Variance)),
    ("writer", Call::Keep(Keep::Writer)),
    ("write", Call::Write),
    ("finish", Call::Finish),
    ("move-writer", Call::MoveWriter),
    ("wait", Call::Wait),
    ("release", Call::Lead(Lead::Release)),
    ("publish", Call::Publish),
    ("revalidate", Call::Revalidate),
    ("uncacheable", Call::Lead(Lead::Uncacheable)),
    ("tracked", Call::Tracked),
    ("told-until", Call::ToldUntil),
    ("burden", Call::Burden),
];

impl Call {
    /// The call of a word.
    pub fn of(word: &str) -> Call {
        for &(name, call) in CALLS {
            if name == word {
                return call;
            }
        }
        Call::Unknown
    }
}
