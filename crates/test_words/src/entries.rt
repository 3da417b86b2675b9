//! Entries and their texts.
mod refused;
mod texts;
mod values;
