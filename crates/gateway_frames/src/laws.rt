//! Laws of what is sent. No code runs.
ghost use Rattle.std.specs.Prelude.{◌≡◌, ◌-◌, ◌<◌, ◌≤◌, ◌^◌, ◌++◌, Bool, true, List, Option, ℕ, length, map, take, slice_range};
ghost use Rattle.std.specs.List.{list_all, concat};
ghost use Rattle.gateway_frames.specs.declared.chunks.Framing.{Framing};
ghost use Rattle.gateway_frames.specs.Chunked.{is_line, trailer_section, IsChunkedBody};
ghost use Rattle.gateway_frames.specs.Frames.{front, behind, framed, content_taken, end_text, sent_trailers};
ghost use Rattle.gateway_frames.specs.declared.parts.Part.{Part};
ghost use Rattle.gateway_frames.specs.Parts.{part_pieces};
ghost use Rattle.gateway_frames.specs.declared.pieces.NextPiece.{NextPiece};
ghost use Rattle.gateway_frames.specs.Runs.{View, AreOf, BreaksOff, run, bytes_in};
ghost use Rattle.gateway_frames.specs.Sent.{sent, AreCounted, IsWhole, part_end, relayed_pieces, bytes_of, by_parts};

/// A chunked body is read in one way: of two that stand in front of something in the same bytes, content, trailers, and what follows are the same.
pub fn bodies_are_read_in_one_way()
    ensures { (text content trailers behind text' content' trailers' behind' : List ℕ) → IsChunkedBody text content trailers
        → IsChunkedBody text' content' trailers' → text ++ behind ≡ text' ++ behind'
        → (content ≡ content') × (trailers ≡ trailers') × (behind ≡ behind') }
{}

/// What is sent reads back: pieces, however a body was cut into them, and its end behind them, are a whole body of just these bytes.
pub fn what_is_sent_is_read()
    ensures { (framing : Framing) (accepts : Bool) (pieces lines : List (List ℕ)) → AreCounted pieces → list_all is_line lines ≡ true
        → (let trailers = sent_trailers framing accepts (trailer_section lines)
        in IsWhole framing (length (concat pieces)) (sent framing pieces ++ end_text framing trailers) (concat pieces) trailers) }
{}

/// What broke off is never whole, wherever the connection is cut: without the last chunk, or with fewer bytes than are stated.
pub fn what_breaks_off_is_not_whole()
    ensures chunked { (pieces : List (List ℕ)) (front rest content trailers : List ℕ) → AreCounted pieces → front ++ rest ≡ sent Framing.Chunked pieces
        → ¬ IsChunkedBody front content trailers }
    ensures stated { (pieces : List (List ℕ)) (front rest content trailers : List ℕ) (n : ℕ) → length (concat pieces) < n
        → front ++ rest ≡ sent Framing.Length pieces → ¬ IsWhole Framing.Length n front content trailers }
{}

/// A part of a body that is sent as it comes, call by call, however much is there and wanted at each: so far it is the part's bytes, each once and in
/// order; and where a call says that it is all, this is the whole part.
pub fn a_part_is_sent_as_it_comes()
    ensures so_far { (body : List ℕ) (to : Option ℕ) (from : ℕ) (views : List View) → AreOf body views → from ≤ part_end to body
        → concat (bytes_in body (run to from views).ranges) ≡ slice_range body from (run to from views).place }
    ensures whole { (framing : Framing) (accepts : Bool) (body : List ℕ) (to : Option ℕ) (from : ℕ) (views : List View) (lines : List (List ℕ))
        → length body < 2 ^ 64 → AreOf body views → from ≤ part_end to body → from ≤ length body → list_all is_line lines ≡ true
        → (run to from views).last ≡ NextPiece.End
        → (let trailers = sent_trailers framing accepts (trailer_section lines)
        in IsWhole framing (part_end to body - from) (sent framing (bytes_in body (run to from views).ranges) ++ end_text framing trailers)
        (slice_range body from (part_end to body)) trailers) }
    ensures broken { (body : List ℕ) (to : Option ℕ) (from : ℕ) (views : List View) → AreOf body views → from ≤ length body → BreaksOff body to views
        → ¬ (run to from views).last ≡ NextPiece.End }
{}

/// A part that is relayed of a body as that comes is the part of the whole, however the body is cut.
pub fn a_part_is_relayed_as_it_comes()
    ensures { (from : ℕ) (to : Option ℕ) (pieces : List (List ℕ)) → from ≤ part_end to (concat pieces)
        → concat (relayed_pieces from to 0 pieces) ≡ slice_range (concat pieces) from (part_end to (concat pieces)) }
{}

/// The pieces of an answer by parts, one after the other, are each text and the bytes of its part, and what stands behind the last.
pub fn parts_are_sent_in_order()
    ensures { (parts : List Part) (texts : List (List ℕ)) (body after : List ℕ) → length texts ≡ length parts
        → concat (map (bytes_of texts body after) (part_pieces 0 (length body) parts)) ≡ by_parts texts body after parts }
{}

/// Of a piece that was taken in part as it was sent, what was taken of the body are its first bytes, as many as `content_taken` says.
pub fn what_is_taken_is_found()
    ensures { (framing : Framing) (piece : List ℕ) (n : ℕ) → take n (framed framing piece)
        ≡ take n (front framing (length piece)) ++ (take (content_taken framing (length piece) n) piece
        ++ take (n - length (front framing (length piece)) - length piece) (behind framing (length piece))) }
{}
