//! Laws of the definitions. No code runs.
ghost use Rattle.std.specs.Prelude.{◌≡◌, ◌≤◌, ℕ, ℤ, pos, ◌-ℤ◌, ◌<ℤ◌, int_le, ◌*◌, ◌==◌, nat_lt, List, Option, None, Some, true, false, bytes_eq, codes, Err, IfErr};
ghost use Rattle.std.specs.Int.{int_max};
ghost use Rattle.rules_fields.specs.Fields.{Field, has_line, tokens};
ghost use Rattle.rules_fields.specs.Says.{Said};
ghost use Rattle.rules_fields.specs.Tables.{among, needed};
ghost use Rattle.rules_fields.specs.Types.{Chosen, Asked, Answered, KeptHead};
ghost use Rattle.rules_storage.specs.Ages.{arrival, is_fresh, second, fresh_until};
ghost use Rattle.rules_storage.specs.Good.{is_good, says_gone};
ghost use Rattle.rules_storage.specs.Judge.{is_listed, kept_from, reason_of, judgement};
ghost use Rattle.rules_storage.specs.declared.reason.Reason.TheVariants.{StoredIsGood};
ghost use Rattle.rules_storage.specs.Selecting.{selecting, ascends};
ghost use Rattle.rules_storage.specs.Rfc.{current_age};

/// The time since `arrival` is the age of RFC 9111, 4.2.3, in its own terms; without its apparent_age where the operator doesn't trust Date.
pub fn arrival_gives_age()
    ensures { (lines : List Field) (asked came now : ℕ) (o : Chosen) → pos now -ℤ arrival lines asked came o ≡ current_age lines asked came now o }
{}

/// What is fresh has an age, in those terms and at least 0, below its lifetime.
pub fn fresh_is_younger()
    ensures { (lines : List Field) (asked came now life : ℕ) (o : Chosen) → is_fresh (arrival lines asked came o) life now ≡ true
        → int_max (pos 0) (current_age lines asked came now o) <ℤ pos (life * second) }
{}

/// What a store is told is fresh there, from second 1 on, just while the age is below the lifetime.
pub fn told_is_fresh()
    ensures { (arrival : ℤ) (life now : ℕ) → second ≤ now → int_le (pos now) (fresh_until arrival life) ≡ is_fresh arrival life now }
{}

/// What is stored has no Age and no Trailer.
pub fn kept_has_no_age()
    ensures age { (s : Said) (p : Answered) (asked came : ℕ) (o : Chosen) → has_line (codes "age") (kept_from s p asked came o).lines ≡ false }
    ensures trailer { (s : Said) (p : Answered) (asked came : ℕ) (o : Chosen) → has_line (codes "trailer") (kept_from s p asked came o).lines ≡ false }
{}

/// It has no field that private or no-cache lists, but for those that the cache itself reads.
pub fn kept_has_no_listed()
    ensures { (s : Said) (p : Answered) (asked came : ℕ) (o : Chosen) (name : List ℕ) → is_listed s.directives name ≡ true → among needed name ≡ false
        → has_line name (kept_from s p asked came o).lines ≡ false }
{}

/// It has no field that the response lacks, so none of the hop, where the response's lines are end to end.
pub fn kept_adds_nothing()
    ensures { (s : Said) (p : Answered) (asked came : ℕ) (o : Chosen) (name : List ℕ) → bytes_eq (codes "content-length") name ≡ false
        → has_line name p.lines ≡ false → has_line name (kept_from s p asked came o).lines ≡ false }
{}

/// It has no field that the operator drops.
pub fn kept_has_no_dropped()
    ensures { (s : Said) (p : Answered) (asked came : ℕ) (o : Chosen) (name : List ℕ) → among o.response_drops name ≡ true
        → bytes_eq (codes "content-length") name ≡ false → has_line name (kept_from s p asked came o).lines ≡ false }
{}

/// Unless the operator lets it, nothing is stored with Set-Cookie.
pub fn kept_has_no_cookie()
    ensures { (r : Asked) (method : List ℕ) (s : Said) (p : Answered) (asked came : ℕ) (o : Chosen) → o.stores_cookies ≡ false
        → reason_of r method p s (kept_from s p asked came o) o ≡ None
        → has_line (codes "set-cookie") (kept_from s p asked came o).lines ≡ false }
{}

/// What is stored answered a GET, byte for byte, and is no 304: what that confirms is judged anew, under the status that is stored.
pub fn kept_answers_a_get()
    ensures method { (r : Asked) (method : List ℕ) (s : Said) (p : Answered) (kept : KeptHead) (o : Chosen) → reason_of r method p s kept o ≡ None
        → bytes_eq method (codes "GET") ≡ true }
    ensures status { (r : Asked) (method : List ℕ) (s : Said) (p : Answered) (kept : KeptHead) (o : Chosen) → reason_of r method p s kept o ≡ None
        → (p.status == 304) ≡ false }
{}

/// What is good for others is taken away only by a response that says that there is nothing any more, and replaced by no error.
pub fn what_is_good_stays()
    ensures taken { (r : Asked) (method : List ℕ) (p : Answered) (asked came code : ℕ) (kept : KeptHead) (o : Chosen)
        → is_good kept came ≡ true → says_gone code ≡ false
        → IfErr (judgement r method p asked came (Some kept) code o) (λ why. why.1 ≡ false) }
    ensures replaced { (r : Asked) (method : List ℕ) (p : Answered) (asked came code : ℕ) (kept : KeptHead) (o : Chosen)
        → is_good kept came ≡ true → says_gone code ≡ false → nat_lt code 400 ≡ false
        → judgement r method p asked came (Some kept) code o ≡ Err (StoredIsGood, false) }
{}

/// The names by which a response varies stand in the order of the alphabet, and none stands twice.
pub fn selecting_ascends()
    ensures { (lines : List Field) → ascends (selecting lines) ≡ true }
{}

/// They are those of Vary.
pub fn selecting_has_the_names()
    ensures { (lines : List Field) (name : List ℕ) → among (selecting lines) name ≡ among (tokens (codes "vary") lines) name }
{}
