//! A directive, as it was read.
ghost use Rattle.std.specs.Prelude.{◌≡◌};
ghost use Rattle.rules_fields.specs.Meaning.{text_bytes};

/// A text that lies in a head, or that was written anew, where quotes, escapes or the ends of lines are left out of it.
#[derive(Drop)]
pub enum Text<'a> {
    /// It lies in the head.
    Lent(&'a [u8]),
    /// It was written anew.
    Owned(Vec<u8>),
}

impl Text<'_> {
    /// Its bytes.
    pub fn bytes(&self) -> &[u8]
        ensures { result.now ≡ text_bytes self.now }
    {
        match self {
            Text::Lent(text) => text,
            Text::Owned(text) => text.as_slice(),
        }
    }
}

/// A directive: its name in any case of letters, and its value without quotes and escapes.
#[derive(Drop)]
pub struct Directive<'a> {
    /// The name, which isn't empty.
    pub name: Text<'a>,
    /// The value, where there is one.
    pub value: Option<Text<'a>>,
}
