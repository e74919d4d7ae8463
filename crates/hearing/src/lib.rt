// What the Applicants of a port and its LeaveAll machine hear of a frame (02, xiv): on the 47 octets of what the port sends of a stream,
// and on the 21 of what it sends by itself (docs/TABLE.md), where the Applicants of the Domain values stand first, by their slots.
#![tactic(auto)]

ghost use Rattle.std.specs.Prelude.{◌≡◌, false, map, ℕ, ◌≤◌, ◌<◌, length};
ghost use Rattle.model.specs.Layout.{sends_size, sender_size, slots};
ghost use Rattle.model.specs.Attributes.{kind_of};
ghost use Rattle.model.specs.Applicant.{step};
ghost use Rattle.model.specs.Machines.{heard_event, heard_leave, heard};
ghost use Rattle.model.specs.Registrations.{of_domain, hear_domain, hears, hears_leave_all, moves_sender};
ghost use Rattle.model.specs.Sending.{sends_octets, to_sends, sender_octets, to_sender};
ghost use Rattle.model.specs.Laid.{LaidSends, LaidSender};
ghost use Rattle.applicants.specs.Octets.{octet};
ghost use Rattle.cells.specs.Acts.{kind_at};
ghost use Rattle.hearing.specs.Hears.{meant, heard_at, heard_by_all};

use applicants::Applicant;
use model::attribute::{StreamAttribute, TalkerAttribute};
use table::sender::{LEAVE_ALL, TIMER};
use table::sends::{ADVERTISING, FAILING, LISTENING};

// What is received of a declaration's AttributeType and key: JoinIn or In, JoinMt or Mt, Lv or LeaveAll.
#[derive(Clone, Copy)]
pub enum Heard {
    In,
    Empty,
    Leave,
}

// An Applicant after it.
#[tactic(auto, unfolding(crate::specs::Hears::meant, model::specs::Machines::heard_event))]
fn after(state: Applicant, heard: Heard) -> Applicant
    ensures { octet result ≡ step false (heard_event (meant heard)) (octet state) }
{
    match heard {
        Heard::In => state.heard_in(),
        Heard::Empty => state.heard_empty(),
        Heard::Leave => state.heard_leave(),
    }
}

// The same of the Applicant at a place.
#[tactic(auto, using(applicants::proofs::Octets::step_read), unfolding(crate::specs::Hears::heard_at))]
fn hear_at(sent: &mut [u8], at: usize, heard: Heard)
    requires { at < length sent.old }
    ensures { sent.new ≡ heard_at at (meant heard) sent.old }
{
    sent[at] = after(Applicant::from(sent[at]), heard) as u8;
}

// What is heard of a stream, by the Applicant of an AttributeType on a port.
#[tactic(auto, using(crate::proofs::OfStream::sends_hear))]
pub fn hear_of(sends: &mut [u8], attribute: StreamAttribute, heard: Heard)
    requires { LaidSends sends.old × (length sends.old ≡ sends_size) }
    ensures { sends.new ≡ sends_octets (hears (kind_of attribute) (meant heard) (to_sends sends.old)) }
{
    match attribute {
        StreamAttribute::Talker(TalkerAttribute::Advertise) => hear_at(sends, ADVERTISING, heard),
        StreamAttribute::Talker(TalkerAttribute::Failed) => hear_at(sends, FAILING, heard),
        StreamAttribute::Listener => hear_at(sends, LISTENING, heard),
    }
}

// The same by the octet of an AttributeType: 1 and 2 are those of a Talker, any other is the Listener's.
#[tactic(auto, unfolding(cells::specs::Acts::kind_at))]
pub fn hear(sends: &mut [u8], kind: u8, heard: Heard)
    requires { LaidSends sends.old × (length sends.old ≡ sends_size) }
    ensures { sends.new ≡ sends_octets (hears (kind_at kind) (meant heard) (to_sends sends.old)) }
{
    match kind {
        1 => hear_of(
            sends,
            StreamAttribute::Talker(TalkerAttribute::Advertise),
            heard,
        ),
        2 => hear_of(
            sends,
            StreamAttribute::Talker(TalkerAttribute::Failed),
            heard,
        ),
        _ => hear_of(sends, StreamAttribute::Listener, heard),
    }
}

// What is heard of a Domain value, by the Applicant of its slot.
#[tactic(auto, using(crate::proofs::OfPort::slots_hear))]
pub fn hear_domain(sender: &mut [u8], slot: usize, heard: Heard)
    requires { LaidSender sender.old × (length sender.old ≡ sender_size) × (slot < slots) }
    ensures { (clock : ℕ) → sender.new
        ≡ sender_octets (moves_sender clock (of_domain (hear_domain slot (meant heard))) (to_sender sender.old)) }
{
    hear_at(sender, slot, heard);
}

// A LeaveAll of any type: the LeaveAll machine is passive, its timer started at the clock.
#[tactic(auto, using(crate::proofs::OfPort::slots_hear))]
pub fn restart(sender: &mut [u8], clock: u32)
    requires { LaidSender sender.old × (length sender.old ≡ sender_size) }
    ensures { sender.new ≡ sender_octets (hears_leave_all clock (λ ds. ds) (to_sender sender.old)) }
{
    octets::put(sender, LEAVE_ALL, 1, 0);
    octets::put(sender, TIMER, 4, clock as u64);
}

// Every Domain value's Applicant hears LeaveAll.
#[tactic(auto, using(crate::proofs::OfPort::slots_hear), unfolding(crate::specs::Hears::meant))]
fn hear_every(sender: &mut [u8])
    requires { LaidSender sender.old × (length sender.old ≡ sender_size) }
    ensures { sender.new ≡ sender_octets (heard_by_all (to_sender sender.old)) }
{
    for slot in 0..table::SLOTS {
        hear_at(sender, slot, Heard::Leave);
    }
}

// A LeaveAll of the Domain values.
#[tactic(auto, using(crate::proofs::OfPort::slots_hear))]
pub fn hear_domains(sender: &mut [u8], clock: u32)
    requires { LaidSender sender.old × (length sender.old ≡ sender_size) }
    ensures { sender.new ≡ sender_octets (hears_leave_all clock (map (heard heard_leave)) (to_sender sender.old)) }
{
    hear_every(sender);
    restart(sender, clock);
}
