// The event of a value: its number in a ThreePackedEvents octet is `as u8` (10.8).
ghost use Rattle.std.specs.Prelude.{◌≡◌};
ghost use Rattle.model.specs.Events.{asked_by};
ghost use Rattle.model.specs.Numbers.{event_number};

#[derive(Clone, Copy, PartialEq, Eq, Debug)]
pub enum Event {
    New = 0,
    JoinIn = 1,
    In = 2,
    JoinMt = 3,
    Mt = 4,
    Lv = 5,
}

impl From<Event> for u8 {
    ghost from_gives = { λ e n. n ≡ event_number e };

    fn from(event: Event) -> u8 {
        event as u8
    }
}

// What an event asks of a Registrar.
#[derive(Clone, Copy, PartialEq, Eq, Debug)]
pub enum Asked {
    Join,
    Leave,
}

impl Event {
    // In and Mt ask for nothing.
    pub fn asked(self) -> Option<Asked>
        ensures { result ≡ asked_by self }
    {
        match self {
            Event::New | Event::JoinIn | Event::JoinMt => Some(Asked::Join),
            Event::In | Event::Mt => None,
            Event::Lv => Some(Asked::Leave),
        }
    }
}
