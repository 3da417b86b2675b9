//! Actors: a world of their steps, and threads that run.
mod alike;
mod bounds;
mod callbacks;
mod endings;
mod handed;
mod made;
mod managers;
mod running;
mod saved;
mod sharded;
mod shards;
mod worlds;
