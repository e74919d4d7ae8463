// The reader of MMRP frames (02, vi): each function's answer is that of the definitions in crate model, for every input. Vectors
// are read by crate msrpdu.
#![tactic(auto)]

ghost use Rattle.std.specs.Prelude.{◌≡◌, ◌≤◌, length};
ghost use Rattle.model.specs.Numbers.{answer_number};
ghost use Rattle.model.specs.AddressFrames.{first_octets, address_header, overruns, address_walk};
ghost use Rattle.mmrpdu.specs.Reader.{list_named, header_answer, message_read, typed_read, number_of, address_in};

use model::pdu;
use model::refusal::Refusal;
use msrpdu::VectorRead;

// A Message: its AttributeType octet, its AttributeLength and the place of its list.
#[derive(Clone, Copy, PartialEq, Eq, Debug)]
pub struct MessageHead {
    pub kind: u8,
    pub octets: usize,
    pub list: usize,
}

// Whether a Message's type and AttributeLength are in order.
#[tactic(auto, unfolding(crate::specs::Reader::header_answer, model::specs::AddressFrames::address_header, model::specs::Numbers::refusal_of))]
fn check_header(version: u8, kind: u8, octets: usize) -> Result<(), Refusal>
    ensures { result ≡ header_answer (address_header version kind octets) }
{
    match kind {
        0 => Err(Refusal::AttributeType),
        1 => {
            if octets == pdu::SERVICE {
                return Ok(());
            }
            Err(Refusal::AttributeLength)
        }
        2 => {
            if octets == pdu::MAC {
                return Ok(());
            }
            Err(Refusal::AttributeLength)
        }
        3..=255 => {
            if version == 0 {
                return Err(Refusal::AttributeType);
            }
            Ok(())
        }
    }
}

// The Message at a place of a PDU of a version, none at its end: its checks, in the paper's order.
// MSRP's reader shares the test for an EndMark alone: a Message has no list length here, and ends where its list does.
pub fn message(pdu: &[u8], version: u8, at: usize) -> Result<Option<MessageHead>, Refusal>
    ensures { result ≡ message_read version pdu.now at }
{
    let n = pdu.len();
    if at == n {
        return Ok(None);
    }
    if n < 2 {
        return Err(Refusal::PastEnd);
    }
    if n - 2 < at {
        return Err(Refusal::PastEnd);
    }
    if octets::get(pdu, at, 2) == 0 {
        return Ok(None);
    }
    let kind = pdu[at];
    let octets = pdu[at + 1] as usize;
    check_header(version, kind, octets)?;
    Ok(Some(MessageHead {
        kind,
        octets,
        list: at + 2,
    }))
}

// The octets of FirstValue in a list of a type and an AttributeLength.
#[tactic(auto, unfolding(model::specs::AddressFrames::first_octets, crate::specs::Reader::list_named))]
fn first_octets(kind: u8, octets: usize) -> usize
    ensures { result ≡ first_octets (list_named kind octets) }
{
    match kind {
        1 => pdu::SERVICE,
        2 => pdu::MAC,
        _ => octets,
    }
}

// Whether the last of so many values runs past FirstValue's octets (number 7); those of an unknown type are not looked at.
fn runs_out(kind: u8, first: &[u8], values: usize) -> bool
    requires { (values ≤ 8191) × (length first.now ≡ first_octets (list_named kind (length first.now))) }
    ensures { result ≡ overruns (list_named kind (length first.now)) first.now values }
{
    if values == 0 {
        return false;
    }
    match kind {
        1 => 255 < octets::get(first, 0, pdu::SERVICE) + ((values - 1) as u64),
        2 => 281474976710655 < octets::get(first, 0, pdu::MAC) + ((values - 1) as u64),
        _ => false,
    }
}

// The vector at a place of a list of a type and an AttributeLength, in a PDU of a version: the values of one that is not passed
// over are checked last.
// MSRP's differs in how values run out, and in its EndMark, which must be the last two octets of a list.
// Inlined in both walks, since a call and the answer stored for it take twice the work on a vector without values.
#[inline(always)]
pub fn typed_vector(
    pdu: &[u8],
    at: usize,
    version: u8,
    kind: u8,
    octets: usize,
) -> Result<VectorRead, Refusal>
    ensures { result ≡ typed_read version (list_named kind octets) pdu.now at }
{
    let width = first_octets(kind, octets);
    let read = msrpdu::vector(pdu, at, version, width, false)?;
    let VectorRead::Vector(head) = read else {
        return Ok(read);
    };
    if 0 < head.values {
        let first = msrpdu::first_value_at(pdu, head);
        if runs_out(kind, first, head.values) {
            return Err(Refusal::Value);
        }
    }
    Ok(read)
}

// The whole checked walk: the first fault met ends both loops, by their label.
// A walk of MSRP has a list's length and reads the list alone, from its start: what both walks share is two `match`es, and one of both
// would take a reader of Messages and one of vectors, with their clauses.
pub fn check(pdu: &[u8]) -> Result<(), Refusal>
    ensures { answer_number result ≡ number_of (address_walk pdu.now) }
{
    let n = pdu.len();
    if n == 0 {
        return Err(Refusal::PduLength);
    }
    if pdu::LONGEST < n {
        return Err(Refusal::PduLength);
    }
    let version = pdu[0];
    let mut at: usize = 1;
    'messages: loop {
        match message(pdu, version, at) {
            Err(refusal) => break 'messages Err(refusal),
            Ok(None) => break 'messages Ok(()),
            Ok(Some(head)) => {
                let mut reached = head.list;
                loop {
                    match typed_vector(pdu, reached, version, head.kind, head.octets) {
                        Err(refusal) => break 'messages Err(refusal),
                        Ok(VectorRead::EndMark) => break,
                        Ok(VectorRead::Vector(vector)) => reached = vector.next,
                        Ok(VectorRead::PassedOver(next)) => reached = next,
                    }
                }
                at = reached + 2;
            }
        }
    }
}

// The address of value n of a MAC FirstValue; none past the last address.
// A StreamID grows in its last 16 bits and an address in all 48, so each has its own test for the end.
#[tactic(auto, unfolding(crate::specs::Reader::address_in, msrpdu::specs::Reader::value_in))]
pub fn address(first: &[u8], n: usize) -> Option<u64>
    ensures { result ≡ address_in first.now n }
{
    if first.len() < pdu::MAC {
        return None;
    }
    let mac = octets::get(first, 0, pdu::MAC);
    if 281474976710655 - mac < (n as u64) {
        return None;
    }
    Some(mac + (n as u64))
}
