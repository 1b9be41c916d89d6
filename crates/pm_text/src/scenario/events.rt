//! The events of a scenario, as a list.

ghost use Rattle.std.specs.Prelude.{◌≡◌};

use pm_world::Event;
use std::marker::Model;

/// Events of any number, made of a `Vec` and given back as one without memory. A clause sees them as
/// a list.
#[derive(Debug, Drop)]
pub struct Events {
    items: Vec<Event>,
}

impl Model for Events {
    ghost use Rattle.std.specs.Prelude.{List};
    ghost use Rattle.pm_world.specs.declared.event.Event.{Event as Happening};

    ghost Value = { List Happening };

    ghost view = { λ e. e.items.items };
}

impl Events {
    /// The events of this list.
    pub fn new(items: Vec<Event>) -> Events
        ensures { result ≡ items.items }
    {
        Events { items }
    }

    /// The events.
    pub fn as_slice(&self) -> &[Event]
        ensures { result.now ≡ self.now }
    {
        &self.items
    }

    /// The events as they were given.
    pub fn into_vec(self) -> Vec<Event>
        ensures { result.items ≡ self }
    {
        let Events { items } = self;
        items
    }
}
