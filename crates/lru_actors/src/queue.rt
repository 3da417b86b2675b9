//! Queues of messages.

ghost use Rattle.std.specs.Prelude.{◌≡◌, ◌++◌, ◌∷◌, [], MatchOption, IfErr, OnOk, OnErr};

use std::alloc::Global;
use std::collections::VecDeque;
use std::marker::Model;

/// A queue, which contracts see as the list of its items, the first first.
#[derive(Drop)]
pub struct Queue<M> {
    items: VecDeque<M>,
}

impl<M> Model for Queue<M> {
    ghost use Rattle.std.specs.Prelude.{List};

    ghost Value = { List M };

    ghost view = { λ q. q.items.items };
}

impl<M: Drop> Queue<M> {
    pub fn new(alloc: Global) -> Self
        ensures { result ≡ [] }
    {
        Queue {
            items: VecDeque::new(alloc),
        }
    }

    /// Puts an item at the end. Without memory for it, it comes back.
    pub fn push(&mut self, item: M) -> Result<(), M>
        ensures ok { OnOk result (self.new ≡ self.old ++ item ∷ []) }
        ensures err { OnErr result (self.new ≡ self.old) }
        ensures back { IfErr result (λ back. back ≡ item) }
    {
        match self.items.push_back(item) {
            Ok(()) => Ok(()),
            Err(back) => Err(back.value),
        }
    }

    /// Takes the first item.
    pub fn pop(&mut self) -> Option<M>
        ensures { MatchOption result ((self.old ≡ []) × (self.new ≡ [])) (λ item. self.old ≡ item ∷ self.new) }
    {
        self.items.pop_front()
    }
}
