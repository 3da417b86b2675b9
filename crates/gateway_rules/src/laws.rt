//! Laws of what the rules are given and tell. No code runs.
ghost use Rattle.std.specs.Prelude.{◌≡◌, ℕ, List, Some, true};
ghost use Rattle.std.specs.List.{list_all};
ghost use Rattle.rules_ffi_arguments.specs.Options.{lists_in};
ghost use Rattle.rules_ffi_arguments.specs.declared.shapes.OptionNumbers.{OptionNumbers};
ghost use Rattle.rules_ffi.specs.Keys.{ended};
ghost use Rattle.gateway_rules.specs.Options.{Options, with_secret, options_in};
ghost use Rattle.gateway_rules.specs.Requests.{is_key, ended_lines};

use rules_ffi_arguments::prepared::prepared_words_say_the_same;

/// The options say what the operator's words say: with the secret, and without it of what is in flight.
pub fn options_say_what_words_say()
    ensures all { (n : OptionNumbers) (words secret : List ℕ) (o : Options) → options_in n words secret ≡ Some o → lists_in o.words ≡ lists_in (with_secret words secret) }
    ensures in_flight { (n : OptionNumbers) (words secret : List ℕ) (o : Options) → options_in n words secret ≡ Some o → lists_in o.one_words ≡ lists_in words }
{
    prepared_words_say_the_same();
}

/// Keys without a LF are read back from their list.
pub fn keys_are_read_back()
    ensures { (keys : List (List ℕ)) → list_all is_key keys ≡ true → ended_lines (ended keys) ≡ keys }
{}
