//! Laws of what is read of a body. No code runs.
ghost use Rattle.std.specs.Prelude.{◌≡◌, ◌+◌, ◌^◌, ◌<◌, ◌∷◌, ◌++◌, ℕ, List, Option, Some, true, length};
ghost use Rattle.std.specs.List.{list_all};
ghost use Rattle.std.specs.Char.{is_ascii_hexdigit};
ghost use Rattle.rules_fields.specs.Texts.{is_filled};
ghost use Rattle.rules_ffi_arguments.specs.declared.shapes.BodyShape.{BodyShape};
ghost use Rattle.rules_ffi_results.specs.declared.chunk.Place.{Place};
ghost use Rattle.rules_ffi_results.specs.declared.chunk.Place.TheVariants.{Start};
ghost use Rattle.rules_ffi_results.specs.declared.chunk.Chunk.{Chunk};
ghost use Rattle.rules_ffi_results.specs.Chunks.{number, place_of, is_line, behind_line, lines_from, hex_value, chunk_at};
ghost use Rattle.rules_ffi_results.specs.Bodies.{Step, LiesIn, handed_on, of_length, in_data, decoded};

/// What is handed on of a body stands in the bytes that were given, whatever its struct holds.
pub fn pieces_lie_in_the_bytes()
    ensures { (body : BodyShape) (bytes : List ℕ) (t : List ℕ × Step) → decoded body bytes ≡ Some t → LiesIn t.1.0 (length bytes) }
{}

/// Of a body with a length exactly that many bytes are handed on: each call hands on what it takes from the length that is left, and the body is
/// over where nothing is left.
pub fn lengths_are_kept()
    ensures kept { (body : BodyShape) (len : ℕ) → handed_on (of_length body len).0 + (of_length body len).1.length ≡ body.length }
    ensures over { (body : BodyShape) (len : ℕ) → (of_length body len).0.status ≡ 72 → body.length ≡ 0 }
{}

/// Of a chunk exactly as many bytes are handed on as its size says.
pub fn chunk_sizes_are_kept()
    ensures { (body : BodyShape) (c : Chunk) (at len : ℕ) → handed_on (in_data body c at len).0 + (in_data body c at len).1.size ≡ c.size }
{}

/// Lines of chunks are read the same in pieces as at once.
pub fn lines_are_read_in_pieces()
    ensures { (n most : ℕ) (c : Chunk) (bytes more : List ℕ) → is_line (lines_from n most c bytes).0.place ≡ true
        → lines_from n most c (bytes ++ more) ≡ lines_from (lines_from n most c bytes).1 most (lines_from n most c bytes).0 more }
{}

/// A place in a struct is the place that was written there.
pub fn places_are_kept()
    ensures { (place : Place) → place_of (number place) ≡ Some place }
{}

/// A size that is written in hexadecimal digits, behind which the line ends, is read as that number: with data behind it, or trailers where it is 0.
pub fn written_sizes_are_read()
    ensures { (n most size extensions : ℕ) (digits others : List ℕ) → is_filled digits ≡ true → list_all is_ascii_hexdigit digits ≡ true
        → hex_value 0 digits < 2 ^ 63
        → lines_from n most (chunk_at Start size extensions) (digits ++ (13 ∷ 10 ∷ others))
        ≡ (chunk_at (behind_line (hex_value 0 digits)) (hex_value 0 digits) extensions, n + length digits + 2) }
{}
