//! The shard of a key.
ghost use Rattle.std.specs.Prelude.{◌≡◌, ◌%◌, ◌<◌};

/// Returns the number of a key's shard, of that many.
pub fn get_shard(key: u128, n_shards: usize) -> usize
    requires { 0 < n_shards }
    ensures value { result ≡ key % n_shards }
    ensures within { result < n_shards }
{
    (key % n_shards as u128) as usize
}
