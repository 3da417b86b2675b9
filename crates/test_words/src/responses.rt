//! Responses that are read whole and in pieces, by a table of pieces and of what they give; and heads alone.
mod alone;
mod long;
mod pieces;
mod rows;
