//! Laws over definitions alone. The functions do nothing: their contracts are the laws.
ghost use Rattle.std.specs.Prelude.{◌≡◌, ◌≢◌, ℕ, List};
ghost use Rattle.head_lines.specs.Lines.{Line, map_of};
ghost use Rattle.head_parse.specs.declared.response.Parsed.TheVariants.{BadHead};
ghost use Rattle.head_parse.specs.Parse.{values_under};
ghost use Rattle.head_parse.specs.Response.{values_of, IsPlain, IsWellFormed, Reading, IsReading, parsed_of};

/// A response whose head the parser's default options read or begin to read has one reading, and so gives one thing.
pub fn plain_responses_have_one_reading()
    ensures { (bytes : List ℕ) (a b : Reading) → IsPlain bytes → IsReading bytes a → IsReading bytes b → a ≡ b }
{}

/// Where that head is within bounds the response is never a bad head.
pub fn well_formed_responses_are_read()
    ensures { (bytes : List ℕ) (r : Reading) → IsWellFormed bytes → IsReading bytes r → parsed_of r ≢ BadHead }
{}

/// The map of some lines has under each name the values of the lines of that name, in order.
pub fn maps_keep_the_values_of_lines()
    ensures { (lines : List Line) (name : List ℕ) → values_under name (map_of lines) ≡ values_of name lines }
{}
