//! What calls leave of keys.
ghost use Rattle.tier_laws.specs.Others.{LetsAlone, StoresWhatItFinishes, BodiesStay};

/// Whether an event lets what is stored of another key alone, by whether its outcome lists an entry of that key as evicted. What is shown and
/// held of it is as before to the byte, or else gone; its permit and its open requests are as before in any case. Keys that differ by their
/// tag alone have one stored key, so they are not others.
pub fn others_are_let_alone(evicted: bool) -> bool
    ensures { LetsAlone evicted result }
{
    !evicted
}

/// Whether what was put or finished stays its key's, to the byte, until a purge of it, a put or a finish of it that is answered, a call of it
/// that is refused after something was stored, or a listed eviction of it. Its meta stays too, but for a revalidation of that key.
pub fn what_is_stored_stays() -> bool
    ensures stored { StoresWhatItFinishes result }
    ensures stays { BodiesStay result }
{
    true
}
