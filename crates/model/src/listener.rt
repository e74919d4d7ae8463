// The declaration types of a Listener: the octet of one in the table is `as u8`, and 0 there is none.
ghost use Rattle.std.specs.Prelude.{◌≡◌};
ghost use Rattle.model.specs.Listeners.{declared_of};
ghost use Rattle.model.specs.Table.{declared_number, to_declared};

#[derive(Clone, Copy, PartialEq, Eq)]
pub enum Listener {
    AskingFailed = 1,
    Ready = 2,
    ReadyFailed = 3,
}

impl Listener {
    // What an octet of the table says, if there is one.
    #[tactic(auto, unfolding(crate::specs::Table::to_declared, crate::specs::WrittenFrames::to_ready))]
    pub fn from_octet(octet: u8) -> Option<Self>
        ensures { declared_of result ≡ to_declared octet }
    {
        match octet {
            0 => None,
            1 => Some(Listener::AskingFailed),
            2 => Some(Listener::Ready),
            _ => Some(Listener::ReadyFailed),
        }
    }
}

// The octet of one in the table, or of none.
#[tactic(auto, unfolding(crate::specs::Table::declared_number, crate::specs::State::ready_number))]
pub fn octet(listener: Option<Listener>) -> u8
    ensures { result ≡ declared_number (declared_of listener) }
{
    match listener {
        None => 0,
        Some(kind) => kind as u8,
    }
}
