//! The host of a request (RFC 9112, 3.2).
ghost use Rattle.std.specs.Prelude.{◌≡◌, ◌≤◌, ℕ, List, Some, Ok, codes, length};
ghost use Rattle.rules_fields.specs.Fields.{all};
ghost use Rattle.rules_fields.specs.Types.{Chosen};
ghost use Rattle.http1_message.specs.Request.{ReadRequest, read_request};

/// A request that is read has at most one Host.
pub fn a_request_has_one_host()
    ensures { (bytes : List ℕ) (o : Chosen) (read : ReadRequest) (taken : ℕ) → read_request bytes o ≡ Some (Ok (read, taken)) → length (all (codes "host") read.0.lines) ≤ 1 }
{}
