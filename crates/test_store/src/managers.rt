//! Managers, numbers of entries and recency texts.
mod cases;
mod names;
mod numbers;
mod refused;
mod restarts;
mod saved;
mod shards;
mod steps;
mod texts;
mod uses;
mod weights;
