//! Texts of bytes, shown in a line.
use std::io;

/// Shows a text and a letter in a line: a CR as `.`, a LF as `/`.
pub fn show_text(rt: &HostRuntime, text: &[u8], said: char) -> io::Result<()> {
    let mut shown = Vec::new(rt.alloc());
    for byte in text {
        shown.push(match *byte {
            b'\r' => b'.',
            b'\n' => b'/',
            other => other,
        })?;
    }
    println!(rt;
        "{} {said}",
        str::from_utf8(shown.as_slice()).unwrap_or("?")
    )
}
