//! Events that a history and a pass share.
ghost use Rattle.std.specs.Prelude.{◌≡◌, IfOk};

use std::alloc::{AllocError, Global};
use std::marker::Model;
use std::sync::Arc;
use tier_model::event::Event;

/// An event that is kept once, however many hold it. A contract sees the event.
#[derive(Drop)]
pub struct SharedEvent {
    event: Arc<Event, Global>,
}

impl Model for SharedEvent {
    ghost use Rattle.tier_model.specs.declared.event.Event.{Event};
    ghost use Rattle.std.specs.Arc.{arc_value};

    ghost Value = { Event };

    ghost view = { λ s. arc_value s.event };
}

/// An event, held once for a history and once for a pass.
#[derive(Drop)]
pub struct HeldTwice {
    one: SharedEvent,
    other: SharedEvent,
}

impl Model for HeldTwice {
    ghost use Rattle.std.specs.Prelude.{◌≡◌};
    ghost use Rattle.tier_model.specs.declared.event.Event.{Event};

    ghost Value = { Event };

    ghost view = { λ h. h.one };

    ghost invariant = { λ h. h.other ≡ h.one };
}

impl HeldTwice {
    /// Makes an event one that a history and a pass can keep. The event is kept once.
    ///
    /// # Errors
    ///
    /// `AllocError` where there is no memory for it.
    pub fn new(alloc: Global, event: Event) -> Result<HeldTwice, AllocError>
        ensures { IfOk result (λ held. held ≡ event) }
    {
        let one = Arc::new(alloc, event)?;
        let other = Arc::try_clone(&one)?;
        Ok(HeldTwice {
            one: SharedEvent { event: one },
            other: SharedEvent { event: other },
        })
    }

    // Takes the two apart.
    pub(crate) fn apart(self) -> (SharedEvent, SharedEvent)
        ensures { (result.0 ≡ self) × (result.1 ≡ self) }
    {
        let HeldTwice { one, other } = self;
        (one, other)
    }
}

impl SharedEvent {
    /// Makes an event one that can be shared.
    ///
    /// # Errors
    ///
    /// `AllocError` where there is no memory for it.
    pub fn new(alloc: Global, event: Event) -> Result<SharedEvent, AllocError>
        ensures { IfOk result (λ shared. shared ≡ event) }
    {
        Ok(SharedEvent {
            event: Arc::new(alloc, event)?,
        })
    }

    /// Returns the event.
    pub fn event(&self) -> &Event
        ensures { result.now ≡ self.now }
    {
        &*self.event
    }
}
