// The reader of MSRPDUs (01, "The PDU"): each function's answer is that of the definitions in crate model, for every input.
#![tactic(auto)]

ghost use Rattle.std.specs.Prelude.{◌≡◌, ◌+◌, ◌-◌, ◌^◌, ◌≤◌, ◌<◌, length, get_or, Ok, Some};
ghost use Rattle.model.specs.Numbers.{answer_number};
ghost use Rattle.model.specs.Attributes.{type_of};
ghost use Rattle.model.specs.Frames.{type_octet, known, first_length, runs_past, four_length, overpacked, header_in, walk, three_packed};
ghost use Rattle.msrpdu.specs.Reader.{type_read, head_of, strange_read, vector_read, typed_read, first_part, first_meant, message_meant, message_read, number_of, event_in, four_in, stream_id_in, domain_in};

use model::attribute::Attribute;
use model::event::Event;
use model::pdu;
use model::refusal::Refusal;

// What the AttributeType octet decides: a known type with the octets of its FirstValue, or none of one whose list is skipped unread.
#[tactic(auto, unfolding(crate::specs::Reader::type_read, model::specs::Frames::type_octet, model::specs::Frames::first_length))]
fn type_read(version: u8, octet: u8) -> Result<Option<(Attribute, usize)>, Refusal>
    ensures { result ≡ type_read (type_octet version octet) }
{
    match octet {
        0 => Err(Refusal::AttributeType),
        1 => Ok(Some((Attribute::Advertise, pdu::ADVERTISE))),
        2 => Ok(Some((Attribute::Failed, pdu::FAILED))),
        3 => Ok(Some((Attribute::Listener, pdu::LISTENER))),
        4 => Ok(Some((Attribute::Domain, pdu::DOMAIN))),
        5..=255 => {
            if version == 0 {
                return Err(Refusal::AttributeType);
            }
            Ok(None)
        }
    }
}

// Whether one of the ThreePackedEvents octets is above 215.
#[tactic(auto, using(crate::proofs::Laws::over_found))]
fn any_overpacked(events: &[u8]) -> bool
    ensures { result ≡ overpacked events.now }
{
    for octet in events {
        if 215 < *octet {
            return true;
        }
    }
    false
}

// A vector that was read: LeaveAll, the number of its values, the places of FirstValue and of its event octets, and the place
// after it.
#[derive(Clone, Copy, PartialEq, Eq, Debug)]
pub struct VectorHead {
    pub leaves: bool,
    pub values: usize,
    pub first: usize,
    pub three: usize,
    pub four: usize,
    pub next: usize,
}

// What stands at a place of an AttributeList. A vector that is passed over has its place after.
#[derive(Clone, Copy, PartialEq, Eq, Debug)]
pub enum VectorRead {
    EndMark,
    Vector(VectorHead),
    PassedOver(usize),
}

// A Message whose list is to be read: its AttributeType, the place of its list and the place after it.
#[derive(Clone, Copy, PartialEq, Eq, Debug)]
pub struct MessageHead {
    pub attribute: Attribute,
    pub list: usize,
    pub next: usize,
}

// What stands at a place of a PDU.
#[derive(Clone, Copy, PartialEq, Eq, Debug)]
pub enum MessageRead {
    End,
    Skipped(usize),
    List(MessageHead),
}

// Whether value n of a type leaves one of the fields that grow with it (01, number 7).
#[tactic(auto, unfolding(model::specs::Frames::runs_past, model::specs::Frames::first_length))]
fn runs_past(attribute: Attribute, first: &[u8], n: usize) -> bool
    requires { (n ≤ 8191) × (length first.now ≡ first_length (type_of attribute)) }
    ensures { result ≡ runs_past (type_of attribute) first.now n }
{
    match attribute {
        Attribute::Domain => 255 < (first[0] as usize) + n || 255 < (first[1] as usize) + n,
        Attribute::Listener => 65535 < (octets::get(first, 6, 2) as usize) + n,
        Attribute::Advertise | Attribute::Failed => {
            65535 < (octets::get(first, 6, 2) as usize) + n
                || 281474976710655 < octets::get(first, 8, 6) + (n as u64)
        }
    }
}

// The FourPackedEvents octets of so many values, where a vector has them.
#[tactic(auto, unfolding(model::specs::Frames::four_length))]
fn four_octets(four: bool, values: usize) -> usize
    requires { values ≤ 8191 }
    ensures { (result ≡ four_length four values) × (result ≤ values) }
{
    if four {
        return (values + 3) / 4;
    }
    0
}

// The head of a vector at a place, of header h, by the octets of FirstValue and whether FourPackedEvents follow.
#[tactic(auto, unfolding(crate::specs::Reader::head_of, model::specs::Frames::vector_end, model::specs::Frames::three_length))]
fn head_of(at: usize, first: usize, four: bool, h: usize) -> VectorHead
    requires { at + first + 65536 < 2 ^ 64 }
    ensures { result ≡ head_of first four at h }
{
    let values = h % 8192;
    let start = at + 2;
    let three = start + first;
    let fours = three + (values + 2) / 3;
    VectorHead {
        leaves: h / 8192 == 1,
        values: values,
        first: start,
        three: three,
        four: fours,
        next: fours + four_octets(four, values),
    }
}

// A vector that fits and has events that are not known here: refused at version 0, and passed over at a higher one.
#[tactic(auto, unfolding(crate::specs::Reader::strange_read))]
fn strange_vector(version: u8, head: VectorHead) -> Result<VectorRead, Refusal>
    ensures { result ≡ strange_read version head }
{
    if version == 0 {
        return Err(Refusal::Event);
    }
    Ok(VectorRead::PassedOver(head.next))
}

// The vector at a place of an AttributeList of any MRP application, by the octets of FirstValue and whether FourPackedEvents
// follow: its checks, in 01's order, but for that of its values.
pub fn vector(
    list: &[u8],
    at: usize,
    version: u8,
    first: usize,
    four: bool,
) -> Result<VectorRead, Refusal>
    ensures { result ≡ vector_read version first four list.now at }
{
    let n = list.len();
    if n < 2 {
        return Err(Refusal::PastEnd);
    }
    if n - 2 < at {
        return Err(Refusal::PastEnd);
    }
    let h = octets::get(list, at, 2) as usize;
    if h == 0 {
        return Ok(VectorRead::EndMark);
    }
    let strange = 1 < h / 8192;
    if (version == 0) & strange {
        return Err(Refusal::Event);
    }
    if n - 2 - at < first {
        return Err(Refusal::PastEnd);
    }
    let head = head_of(at, first, four, h);
    if n < head.next {
        return Err(Refusal::PastEnd);
    }
    let over = any_overpacked(&list[head.three..head.four]);
    if strange | over {
        return strange_vector(version, head);
    }
    Ok(VectorRead::Vector(head))
}

// FirstValue between the places of a vector's head, as that part of the list; empty for a head of another list that is too short for it.
#[tactic(auto, unfolding(crate::specs::Reader::first_part, octets::specs::Parts::part))]
pub fn first_value_at(list: &[u8], head: VectorHead) -> &[u8]
    ensures { result.now ≡ first_part list.now head }
{
    if list.len() < head.three {
        return &list[0..0];
    }
    if head.three < head.first {
        return &list[0..0];
    }
    &list[head.first..head.three]
}

// FirstValue of what the vector reader gave, as that part of the list: empty where it refused, for whatever reason, met the EndMark or
// passed over.
#[tactic(auto, unfolding(crate::specs::Reader::first_meant))]
pub fn first_value<E: Copy>(list: &[u8], read: Result<VectorRead, E>) -> &[u8]
    ensures { result.now ≡ first_meant list.now read }
{
    let Ok(VectorRead::Vector(head)) = read else {
        return &list[0..0];
    };
    first_value_at(list, head)
}

// The vector at a place of an AttributeList of a type, in a PDU of a version: the EndMark is the list's last two octets, and the
// values are checked last, of a vector that is not passed over.
// Inlined in both walks, since a call and the answer stored for it take half of the work on a vector without values.
#[inline(always)]
pub fn attribute_vector(
    list: &[u8],
    at: usize,
    version: u8,
    attribute: Attribute,
) -> Result<VectorRead, Refusal>
    ensures { result ≡ typed_read version (known (type_of attribute)) list.now at }
{
    let first = attribute.first_length();
    let read = vector(list, at, version, first, attribute.has_four_packed())?;
    match read {
        VectorRead::EndMark => {
            if list.len() - at != 2 {
                return Err(Refusal::PastEnd);
            }
        }
        VectorRead::Vector(head) => {
            if 0 < head.values {
                let first = first_value_at(list, head);
                if runs_past(attribute, first, head.values - 1) {
                    return Err(Refusal::Value);
                }
            }
        }
        VectorRead::PassedOver(_) => {}
    }
    Ok(read)
}

// The same by an AttributeType octet; that of no type known here is refused.
pub fn typed_vector(list: &[u8], at: usize, version: u8, kind: u8) -> Result<VectorRead, Refusal>
    ensures { result ≡ typed_read version (type_octet 0 kind) list.now at }
{
    match Attribute::from_octet(kind) {
        Some(attribute) => attribute_vector(list, at, version, attribute),
        None => Err(Refusal::AttributeType),
    }
}

// A Message whose four header octets are there: type, length and list.
fn message_header(pdu: &[u8], version: u8, at: usize) -> Result<MessageRead, Refusal>
    requires { at + 4 ≤ length pdu.now }
    ensures { result ≡ message_meant pdu.now at (header_in (type_octet version (get_or pdu.now at 0)) pdu.now at) }
{
    let left = pdu.len() - at - 4;
    let list = octets::get(pdu, at + 2, 2) as usize;
    match type_read(version, pdu[at])? {
        None => {
            if left < list {
                return Err(Refusal::PastEnd);
            }
            Ok(MessageRead::Skipped(at + 4 + list))
        }
        Some((attribute, first)) => {
            if (pdu[at + 1] as usize) != first {
                return Err(Refusal::AttributeLength);
            }
            if left < list {
                return Err(Refusal::PastEnd);
            }
            Ok(MessageRead::List(MessageHead {
                attribute,
                list: at + 4,
                next: at + 4 + list,
            }))
        }
    }
}

// The Message at a place of a PDU of a version: its checks, in 01's order.
#[tactic(auto, unfolding(crate::specs::Reader::message_read, crate::specs::Reader::message_meant, model::specs::Frames::message_in, model::specs::Frames::end_mark, model::specs::Numbers::refusal_of))]
pub fn message(pdu: &[u8], version: u8, at: usize) -> Result<MessageRead, Refusal>
    ensures { result ≡ message_read version pdu.now at }
{
    let n = pdu.len();
    if at == n {
        return Ok(MessageRead::End);
    }
    if n < at {
        return Err(Refusal::PastEnd);
    }
    if 2 <= n - at {
        if octets::get(pdu, at, 2) == 0 {
            return Ok(MessageRead::End);
        }
    }
    if n - at < 4 {
        return Err(Refusal::PastEnd);
    }
    message_header(pdu, version, at)
}

// The whole checked walk: the first fault met ends both loops, by their label.
pub fn check(pdu: &[u8]) -> Result<(), Refusal>
    ensures { answer_number result ≡ number_of (walk pdu.now) }
{
    let n = pdu.len();
    if n == 0 {
        return Err(Refusal::PduLength);
    }
    if pdu::LONGEST < n {
        return Err(Refusal::PduLength);
    }
    let version = pdu[0];
    let mut at: usize = 1;
    'messages: loop {
        match message(pdu, version, at) {
            Err(refusal) => break 'messages Err(refusal),
            Ok(MessageRead::End) => break 'messages Ok(()),
            Ok(MessageRead::Skipped(next)) => at = next,
            Ok(MessageRead::List(head)) => {
                let list = &pdu[head.list..head.next];
                let mut reached: usize = 0;
                loop {
                    match attribute_vector(list, reached, version, head.attribute) {
                        Err(refusal) => break 'messages Err(refusal),
                        Ok(VectorRead::EndMark) => break,
                        Ok(VectorRead::Vector(vector)) => reached = vector.next,
                        Ok(VectorRead::PassedOver(next)) => reached = next,
                    }
                }
                at = head.next;
            }
        }
    }
}

// The event at place k, 0 to 2, of a ThreePackedEvents octet.
#[tactic(auto, unfolding(model::specs::Frames::three_packed))]
fn three_packed(o: u8, k: usize) -> u8
    ensures { result ≡ three_packed o k }
{
    match k {
        0 => o / 36,
        1 => o / 6 % 6,
        _ => o % 6,
    }
}

// The event of value n in a vector's ThreePackedEvents octets; none past them.
#[tactic(auto, unfolding(crate::specs::Reader::event_in, crate::specs::Reader::event_meant, model::specs::Frames::event))]
pub fn event_of(events: &[u8], n: usize) -> Option<Event>
    ensures { result ≡ event_in events.now n }
{
    let octet = *events.get(n / 3)?;
    Some(match three_packed(octet, n % 3) {
        0 => Event::New,
        1 => Event::JoinIn,
        2 => Event::In,
        3 => Event::JoinMt,
        4 => Event::Mt,
        5..=255 => Event::Lv,
    })
}

// The four-packed event of value n in a vector's FourPackedEvents octets; 0, Ignore, past them.
#[tactic(auto, unfolding(crate::specs::Reader::four_in, model::specs::Frames::four_packed))]
pub fn four_of(fours: &[u8], n: usize) -> u8
    ensures { result ≡ four_in fours.now n }
{
    let Some(octet) = fours.get(n / 4) else {
        return 0;
    };
    match n % 4 {
        0 => *octet / 64,
        1 => *octet / 16 % 4,
        2 => *octet / 4 % 4,
        _ => *octet % 4,
    }
}

// StreamID of value n of a FirstValue; none where it runs past its field.
#[tactic(auto, unfolding(crate::specs::Reader::stream_id_in, crate::specs::Reader::value_in))]
pub fn stream_id(first: &[u8], n: usize) -> Option<u64>
    ensures { result ≡ stream_id_in first.now n }
{
    if first.len() < 8 {
        return None;
    }
    let unique = octets::get(first, 6, 2) as usize;
    if 65535 - unique < n {
        return None;
    }
    Some(octets::get(first, 0, 8) + (n as u64))
}

// The slot of value n of a Domain FirstValue among those that a port holds, class IDs 5 and 6 and priorities 0 to 7 of each; other
// values have none.
#[tactic(auto, unfolding(crate::specs::Reader::domain_in, model::specs::Frames::has_slot, model::specs::State::slot_of))]
pub fn domain_slot(first: &[u8], n: usize) -> Option<usize>
    ensures { result ≡ domain_in first.now n }
{
    if first.len() < pdu::DOMAIN {
        return None;
    }
    if 6 < n {
        return None;
    }
    let id = (octets::get(first, 0, 1) as usize) + n;
    let priority = (octets::get(first, 1, 1) as usize) + n;
    if id < 5 {
        return None;
    }
    if 6 < id {
        return None;
    }
    if 7 < priority {
        return None;
    }
    Some((id - 5) * 8 + priority)
}
