//! What is called with evicted pairs.

/// What is called with each evicted pair, by one worker or by several at once. Closures meet it too.
pub trait AsyncEvictionCallback<K> {
    /// What a call requires.
    ghost ready: { Self → Type 0 };

    /// Takes a pair that was evicted.
    fn call(&self, key: K, weight: usize)
        requires { ready self.now };
}

impl<K, F: Fn(K, usize)> AsyncEvictionCallback<K> for F {
    ghost ready = { F.IsAlwaysCallable };

    fn call(&self, key: K, weight: usize) {
        self(key, weight)
    }
}
