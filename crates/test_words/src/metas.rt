//! Metas as bytes, against examples of the format; `test_heads` has the original cache's own.
mod given;
mod head;
mod internal;
mod refused;
