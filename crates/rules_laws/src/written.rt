//! The lines of a head as they are written.
ghost use Rattle.std.specs.Prelude.{◌≡◌, ◌||◌, ◌==◌, List, ℕ, true, false, Ok};
ghost use Rattle.std.specs.List.{list_all};
ghost use Rattle.rules_fields.specs.Texts.{is_filled};
ghost use Rattle.rules_fields.specs.Fields.{Field};
ghost use Rattle.rules_fields.specs.Types.{Asked, Chosen};
ghost use Rattle.http1_message_parts.specs.Lines.{lines_of, rows_of, fields_of};
ghost use Rattle.rules_forward.specs.Forward.{is_counted, forward};
ghost use Rattle.rules_laws.specs.Written.{can_be_value, is_writable, written};

/// Lines that were written are read as they were, with nothing more and nothing less: no value ends a line, and no name holds a colon.
pub fn written_is_read()
    ensures { (lines : List Field) → list_all is_writable lines ≡ true → fields_of (rows_of (lines_of (written lines))) ≡ Ok lines }
{}

/// What is sent on can be written, and is read as it was, where the request's lines could be: of any method but TRACE and OPTIONS, whose
/// Max-Forwards changes.
pub fn forwarded_is_read()
    ensures { (r : Asked) (peer : List ℕ) (o : Chosen)
        → is_counted r.method ≡ false → (r.minor == 0 || r.minor == 1) ≡ true → list_all is_writable r.lines ≡ true → can_be_value r.host ≡ true
        → is_filled peer ≡ true → can_be_value peer ≡ true → is_filled o.name ≡ true → can_be_value o.name ≡ true
        → fields_of (rows_of (lines_of (written (forward r peer o)))) ≡ Ok (forward r peer o) }
{}
