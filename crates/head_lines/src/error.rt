//! Errors as a server names them.
ghost use Rattle.std.specs.Prelude.{Some};
ghost use Rattle.head_lines.specs.ErrorNames.{type_name};

use std::fmt;

/// The kind of an error.
#[derive(Clone, Copy, Debug, PartialEq, Eq)]
pub enum ErrorType {
    /// A value cannot be read.
    InternalError,
    /// A header is not HTTP.
    InvalidHTTPHeader,
    /// An error of the user's own, with its name.
    Custom(&'static str),
}

/// An error, by its kind.
#[derive(Clone, Copy, Debug, PartialEq, Eq)]
pub struct Error {
    /// Which kind of error it is.
    pub etype: ErrorType,
}

impl fmt::Display for Error {
    ghost output = { λ e. Some (type_name e.etype) };

    fn fmt<W: fmt::Write>(&self, f: &mut fmt::Formatter<W>) -> fmt::Result {
        f.write_str(match self.etype {
            ErrorType::InternalError => "InternalError",
            ErrorType::InvalidHTTPHeader => "InvalidHTTPHeader",
            ErrorType::Custom(name) => name,
        })
    }
}

impl std::error::Error for Error {}
