//! Laws of the definitions. No code runs.
ghost use Rattle.std.specs.Prelude.{◌≡◌, ◌≤◌, ℕ, List, length, take, codes, Ok, None};
ghost use Rattle.http1_message_parts.specs.End.{end_behind, head_end};
ghost use Rattle.rules_fields.specs.Fields.{Field, all};
ghost use Rattle.rules_fields.specs.Types.{Chosen};
ghost use Rattle.rules_fields.specs.declared.types.Framing.{Framing};
ghost use Rattle.http1_message_parts.specs.Start.{RequestLine as StartLine};
ghost use Rattle.http1_message.specs.Request.{ReadRequest, placed};

/// A request that is read has at most one Host.
pub fn read_has_one_host()
    ensures { (line : StartLine) (lines : List Field) (o : Chosen) (f : Framing) (r : ReadRequest) → placed line lines o f ≡ Ok r → length (all (codes "host") r.0.lines) ≤ 1 }
{}

/// Where no head ended in the bytes that an earlier call of `head_end` was given, one that looks behind these finds the first of all.
pub fn earlier_looks_count()
    ensures { (bytes : List ℕ) (from : ℕ) → from ≤ length bytes → head_end (take from bytes) ≡ None → end_behind from bytes ≡ head_end bytes }
{}
