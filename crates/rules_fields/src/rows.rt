//! First-match tables.
ghost use Rattle.std.specs.Prelude.{◌≡◌};
ghost use Rattle.rules_fields.specs.Rows.{first_true};

/// The first name whose test holds.
pub fn first_true<T: Copy>(rows: &[(T, bool)]) -> Option<T>
    ensures { result ≡ first_true rows.now }
{
    for row in rows {
        if row.1 {
            return Some(row.0);
        }
    }
    None
}
