//! Heads from tables.
use http_header::{HeaderMap, HeaderName, HeaderValue};
use std::alloc::{AllocError, Global};

/// One more field, by its name and its value in hex; what is no field is left out.
pub fn add(
    alloc: Global,
    headers: &mut HeaderMap,
    name: &str,
    value: &str,
) -> Result<(), AllocError> {
    let Ok(bytes) = hex::decode(alloc, value) else {
        return Ok(());
    };
    let Ok(name) = HeaderName::from_bytes(alloc, name.as_bytes()) else {
        return Ok(());
    };
    let Ok(value) = HeaderValue::from_bytes(alloc, bytes.as_slice()) else {
        return Ok(());
    };
    let _ = headers.append(name, value);
    Ok(())
}
