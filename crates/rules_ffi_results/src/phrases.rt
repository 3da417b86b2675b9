//! The phrases of status lines.
ghost use Rattle.std.specs.Prelude.{◌≡◌};
ghost use Rattle.rules_ffi_results.specs.Phrases.{interim_phrase, success_phrase, redirection_phrase, client_error_phrase, more_client_error_phrase, server_error_phrase, phrase};

fn interim_phrase(code: u16) -> &'static [u8]
    ensures { result.now ≡ interim_phrase code }
{
    match code {
        100 => b"Continue",
        101 => b"Switching Protocols",
        103 => b"Early Hints",
        _ => b"Status",
    }
}

fn success_phrase(code: u16) -> &'static [u8]
    ensures { result.now ≡ success_phrase code }
{
    match code {
        200 => b"OK",
        201 => b"Created",
        202 => b"Accepted",
        203 => b"Non-Authoritative Information",
        204 => b"No Content",
        205 => b"Reset Content",
        206 => b"Partial Content",
        207 => b"Multi-Status",
        208 => b"Already Reported",
        226 => b"IM Used",
        _ => b"Status",
    }
}

fn redirection_phrase(code: u16) -> &'static [u8]
    ensures { result.now ≡ redirection_phrase code }
{
    match code {
        300 => b"Multiple Choices",
        301 => b"Moved Permanently",
        302 => b"Found",
        303 => b"See Other",
        304 => b"Not Modified",
        305 => b"Use Proxy",
        307 => b"Temporary Redirect",
        308 => b"Permanent Redirect",
        _ => b"Status",
    }
}

fn client_error_phrase(code: u16) -> &'static [u8]
    ensures { result.now ≡ client_error_phrase code }
{
    match code {
        400 => b"Bad Request",
        401 => b"Unauthorized",
        402 => b"Payment Required",
        403 => b"Forbidden",
        404 => b"Not Found",
        405 => b"Method Not Allowed",
        406 => b"Not Acceptable",
        407 => b"Proxy Authentication Required",
        408 => b"Request Timeout",
        409 => b"Conflict",
        410 => b"Gone",
        411 => b"Length Required",
        412 => b"Precondition Failed",
        413 => b"Content Too Large",
        414 => b"URI Too Long",
        415 => b"Unsupported Media Type",
        416 => b"Range Not Satisfiable",
        417 => b"Expectation Failed",
        _ => b"Status",
    }
}

fn more_client_error_phrase(code: u16) -> &'static [u8]
    ensures { result.now ≡ more_client_error_phrase code }
{
    match code {
        421 => b"Misdirected Request",
        422 => b"Unprocessable Content",
        423 => b"Locked",
        424 => b"Failed Dependency",
        425 => b"Too Early",
        426 => b"Upgrade Required",
        428 => b"Precondition Required",
        429 => b"Too Many Requests",
        431 => b"Request Header Fields Too Large",
        451 => b"Unavailable For Legal Reasons",
        _ => b"Status",
    }
}

fn server_error_phrase(code: u16) -> &'static [u8]
    ensures { result.now ≡ server_error_phrase code }
{
    match code {
        500 => b"Internal Server Error",
        501 => b"Not Implemented",
        502 => b"Bad Gateway",
        503 => b"Service Unavailable",
        504 => b"Gateway Timeout",
        505 => b"HTTP Version Not Supported",
        506 => b"Variant Also Negotiates",
        507 => b"Insufficient Storage",
        508 => b"Loop Detected",
        511 => b"Network Authentication Required",
        _ => b"Status",
    }
}

/// The phrase of a status.
#[tactic(auto, unfolding(crate::specs::Phrases::phrase))]
pub fn phrase(code: u16) -> &'static [u8]
    ensures { result.now ≡ phrase code }
{
    if code < 200 {
        interim_phrase(code)
    } else if code < 300 {
        success_phrase(code)
    } else if code < 400 {
        redirection_phrase(code)
    } else if code < 418 {
        client_error_phrase(code)
    } else if code < 500 {
        more_client_error_phrase(code)
    } else {
        server_error_phrase(code)
    }
}
