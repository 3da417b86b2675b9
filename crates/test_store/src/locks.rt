//! The lock, the tables under locks and the predictor.
mod cores;
mod permit_rows;
mod permits;
mod predictors;
mod refused;
mod tables;
mod told;
