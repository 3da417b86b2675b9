//! A tier that threads share.
mod asks;
mod ends;
mod hits;
mod meeting;
mod refusals;
mod shown;
mod splices;
mod started;
mod threads;
