// The Applicant of a declaration: each of its methods is a row of Table 10-3, and its contract says that it gives the table's entry.
#![tactic(auto)]

ghost use Rattle.std.specs.Prelude.{◌≡◌, eqb, false};
ghost use Rattle.model.specs.Applicant as mrp;
ghost use Rattle.model.specs.Applicant.{step, asks, event_at, opportunity};
ghost use Rattle.model.specs.Numbers.{event_number};
ghost use Rattle.applicants.specs.Octets.{octet, applicant};

use model::event::Event;

// Its state, by the standard's letters: very anxious, anxious, quiet, leaving; passive, new, active. The number is its octet in the table
// (docs/TABLE.md).
#[derive(Clone, Copy)]
pub enum Applicant {
    // no machine: VO or LO
    None = 0,
    Vp,
    Vn,
    An,
    Aa,
    Qa,
    La,
}

#[tactic(auto, unfolding(crate::specs::Octets::applicant))]
impl From<u8> for Applicant {
    ghost from_gives = { λ n a. a ≡ applicant n };

    fn from(octet: u8) -> Applicant {
        match octet {
            0 => Applicant::None,
            1 => Applicant::Vp,
            2 => Applicant::Vn,
            3 => Applicant::An,
            4 => Applicant::Aa,
            5 => Applicant::Qa,
            6..=255 => Applicant::La,
        }
    }
}

impl From<Applicant> for u8 {
    ghost from_gives = { λ a n. n ≡ octet a };

    fn from(state: Applicant) -> u8 {
        state as u8
    }
}

#[tactic(auto, unfolding(model::proofs::ApplicantEntries::tables, model::specs::Applicant::opportunity))]
impl Applicant {
    // Whether there is no machine.
    pub fn is_none(self) -> bool
        ensures { result ≡ eqb (octet self) 0 }
    {
        matches!(self, Applicant::None)
    }

    // New!.
    pub fn renewed(self) -> Applicant
        ensures { octet result ≡ step false mrp.new (octet self) }
    {
        match self {
            Applicant::An => Applicant::An,
            Applicant::None | Applicant::Vp | Applicant::Vn => Applicant::Vn,
            Applicant::Aa | Applicant::Qa | Applicant::La => Applicant::Vn,
        }
    }

    // Join!.
    pub fn joined(self) -> Applicant
        ensures { octet result ≡ step false mrp.join (octet self) }
    {
        match self {
            Applicant::None | Applicant::Vp => Applicant::Vp,
            Applicant::Vn => Applicant::Vn,
            Applicant::An => Applicant::An,
            Applicant::Aa | Applicant::La => Applicant::Aa,
            Applicant::Qa => Applicant::Qa,
        }
    }

    // Lv!.
    pub fn left(self) -> Applicant
        ensures { octet result ≡ step false mrp.lv (octet self) }
    {
        match self {
            Applicant::None | Applicant::Vp => Applicant::None,
            Applicant::Vn | Applicant::An | Applicant::Aa | Applicant::Qa | Applicant::La =>
                Applicant::La,
        }
    }

    // rJoinIn!, rIn!.
    pub fn heard_in(self) -> Applicant
        ensures join_in { octet result ≡ step false mrp.r_join_in (octet self) }
        ensures in_ { octet result ≡ step false mrp.r_in (octet self) }
    {
        match self {
            Applicant::None => Applicant::None,
            Applicant::Vp => Applicant::Vp,
            Applicant::Vn => Applicant::Vn,
            Applicant::An => Applicant::An,
            Applicant::Aa | Applicant::Qa => Applicant::Qa,
            Applicant::La => Applicant::La,
        }
    }

    // rJoinMt!, rMt!.
    pub fn heard_empty(self) -> Applicant
        ensures join_empty { octet result ≡ step false mrp.r_join_mt (octet self) }
        ensures empty { octet result ≡ step false mrp.r_mt (octet self) }
    {
        match self {
            Applicant::None => Applicant::None,
            Applicant::Vp => Applicant::Vp,
            Applicant::Vn => Applicant::Vn,
            Applicant::An => Applicant::An,
            Applicant::Aa | Applicant::Qa => Applicant::Aa,
            Applicant::La => Applicant::La,
        }
    }

    // rLv!, rLA!.
    pub fn heard_leave(self) -> Applicant
        ensures leave { octet result ≡ step false mrp.r_lv (octet self) }
        ensures leave_all { octet result ≡ step false mrp.r_la (octet self) }
    {
        match self {
            Applicant::None => Applicant::None,
            Applicant::Vp | Applicant::Aa | Applicant::Qa => Applicant::Vp,
            Applicant::Vn | Applicant::An => Applicant::Vn,
            Applicant::La => Applicant::La,
        }
    }

    // tx!, or with LeaveAll txLA!; `registered` says that the attribute is registered and not leaving.
    pub fn written(self, registered: bool, all: bool) -> Applicant
        ensures { octet result ≡ step registered (opportunity all) (octet self) }
    {
        match self {
            Applicant::None | Applicant::La => Applicant::None,
            Applicant::Vn => Applicant::An,
            Applicant::An if registered || all => Applicant::Qa,
            Applicant::Vp | Applicant::An => Applicant::Aa,
            Applicant::Aa | Applicant::Qa => Applicant::Qa,
        }
    }

    // txLAF!.
    pub fn left_out(self) -> Applicant
        ensures { octet result ≡ step false mrp.tx_laf (octet self) }
    {
        match self {
            Applicant::None | Applicant::La => Applicant::None,
            Applicant::Vp | Applicant::Aa | Applicant::Qa => Applicant::Vp,
            Applicant::Vn | Applicant::An => Applicant::Vn,
        }
    }

    // Whether something is written at tx!, or with LeaveAll at txLA!: a message without brackets.
    pub fn is_written(self, all: bool) -> bool
        ensures { result ≡ asks (opportunity all) (octet self) }
    {
        match self {
            Applicant::None => false,
            Applicant::Vp | Applicant::Vn | Applicant::An | Applicant::Aa => true,
            Applicant::Qa => all,
            Applicant::La => !all,
        }
    }

    // The event that tx! writes, or with LeaveAll txLA!.
    pub fn event_written(self, registered: bool, all: bool) -> Event
        ensures { event_number result ≡ event_at registered (opportunity all) (octet self) }
    {
        match self {
            Applicant::Vn | Applicant::An => Event::New,
            Applicant::Aa | Applicant::Qa => join_event(registered),
            Applicant::Vp if !all => join_event(registered),
            Applicant::La if !all => Event::Lv,
            Applicant::None | Applicant::Vp | Applicant::La => in_event(registered),
        }
    }
}

// sJ: JoinIn where the attribute is registered and not leaving, otherwise JoinMt.
#[tactic(auto, unfolding(model::specs::Applicant::message_number))]
fn join_event(registered: bool) -> Event
    ensures { event_number result ≡ mrp.message_number registered mrp.s_j }
{
    if registered {
        return Event::JoinIn;
    }
    Event::JoinMt
}

// s: In or Mt likewise.
// Two functions, as the table has two signs: one of both would be handed both events at each call.
#[tactic(auto, unfolding(model::specs::Applicant::message_number))]
fn in_event(registered: bool) -> Event
    ensures { event_number result ≡ mrp.message_number registered mrp.s }
{
    if registered {
        return Event::In;
    }
    Event::Mt
}
