// The walk that applies an MMRP frame to the addresses of its port (02, vi), on what the port holds by itself.
#![tactic(auto)]

ghost use Rattle.std.specs.Prelude.{◌≡◌, ◌∷◌, [], true, ◌<◌, ◌/◌, ◌^◌, length};
ghost use Rattle.model.specs.Registrations.{join_address};
ghost use Rattle.model.specs.Laid.{LaidOwn};
ghost use Rattle.model.specs.AddressFrames.{mac_list, address_of, address_asking, address_act, address_values, all_addresses, address_vector_acts, address_walk};
ghost use Rattle.mmrpdu.specs.Reader.{head_vector};
ghost use Rattle.mmrp.specs.Run.{Walked};
ghost use Rattle.mmrp.specs.Walked.{asked_of, vector_of, list_read, Reaches, acts_of, Receives};
ghost use Rattle.mmrp.specs.Asks.{ValueGiven, ValuesGiven, VectorGiven, ListGiven, FrameGiven, ReceiveGiven};

use mmrpdu::MessageHead;
use model::event::Asked;
use msrpdu::{VectorHead, VectorRead};

// A walk over a frame: whether it applies the frame or makes room for it, and the clock.
// A flag and not two walks: what makes room and what applies must meet the same values in the same order.
#[derive(Clone, Copy)]
struct Walk {
    applying: bool,
    clock: u32,
}

// A join of an address: its record is there or is made; where the frame is applied, it is registered.
fn join(own: &mut [u8], walk: Walk, mac: u64) -> bool
    requires { LaidOwn own.old × (mac < 2 ^ 48) }
    ensures { Walked walk.applying walk.clock (join_address mac ∷ []) own.old result own.new }
{
    let there = addresses::enrol(own, mac);
    if !there {
        return false;
    }
    if walk.applying {
        addresses::join(own, mac);
    }
    true
}

// What the event of value n asks for.
fn ask(events: &[u8], n: usize) -> Option<Asked>
    requires { n / 3 < length events.now }
    ensures { result ≡ asked_of (address_asking events.now n) }
{
    msrpdu::event_of(events, n)?.asked()
}

// Value n of a vector of MAC addresses.
fn value(own: &mut [u8], walk: Walk, first: &[u8], events: &[u8], n: usize) -> bool
    requires { ValueGiven own.old first.now events.now n }
    ensures { Walked walk.applying walk.clock (address_act (address_of first.now n) (address_asking events.now n))
        own.old result own.new }
{
    let Some(mac) = mmrpdu::address(first, n) else {
        return true;
    };
    match ask(events, n) {
        None => true,
        Some(Asked::Join) => join(own, walk, mac),
        Some(Asked::Leave) => {
            if walk.applying {
                addresses::leave(own, mac, walk.clock);
            }
            true
        }
    }
}

// The values of a vector, one after another.
fn values(own: &mut [u8], walk: Walk, first: &[u8], events: &[u8], count: usize) -> bool
    requires { ValuesGiven own.old first.now events.now count }
    ensures { Walked walk.applying walk.clock (address_values (vector_of first.now events.now) 0 count)
        own.old result own.new }
{
    for n in 0..count {
        let went = value(own, walk, first, events, n);
        if !went {
            return false;
        }
    }
    true
}

// LeaveAll of a vector, which asks for no room.
fn begin_all(own: &mut [u8], walk: Walk, leaves: bool)
    requires { LaidOwn own.old }
    ensures { Walked walk.applying walk.clock (all_addresses leaves) own.old true own.new }
{
    if !leaves {
        return;
    }
    if walk.applying {
        addresses::leave_all(own, walk.clock);
    }
}

// The vector of MAC addresses that was read at a place of the PDU: "LeaveAll first".
fn vector(own: &mut [u8], walk: Walk, pdu: &[u8], head: VectorHead) -> bool
    requires { VectorGiven own.old pdu.now head }
    ensures { Walked walk.applying walk.clock (address_vector_acts mac_list (head_vector pdu.now head)) own.old result own.new }
{
    let first = msrpdu::first_value_at(pdu, head);
    let count = head.values;
    let three = head.three;
    let four = head.four;
    begin_all(own, walk, head.leaves);
    values(own, walk, first, &pdu[three..four], count)
}

// The list of a Message, vector by vector: the place behind its EndMark, or none where there is no room for all of it. Only MAC
// addresses are applied: the others are read and dropped.
// Registrar's walk shares the match alone: its lists have a length, and it works on the table, on Registrar and Applicant.
fn list(own: &mut [u8], walk: Walk, pdu: &[u8], version: u8, head: MessageHead) -> Option<usize>
    requires { ListGiven own.old pdu.now version head }
    ensures { Reaches walk.applying walk.clock (list_read pdu.now version head) own.old result own.new }
{
    let mut at = head.list;
    loop {
        // none is refused in a frame that is well-formed
        let Ok(read) = mmrpdu::typed_vector(pdu, at, version, head.kind, head.octets) else {
            return None;
        };
        match read {
            VectorRead::EndMark => return Some(at + 2),
            VectorRead::Vector(w) => {
                if head.kind == 2 {
                    let went = vector(own, walk, pdu, w);
                    if !went {
                        return None;
                    }
                }
                at = w.next;
            }
            VectorRead::PassedOver(next) => at = next,
        }
    }
}

// A well-formed frame, Message by Message: room is made for it, or it is applied.
fn frame(own: &mut [u8], walk: Walk, pdu: &[u8]) -> bool
    requires { FrameGiven own.old pdu.now }
    ensures { Walked walk.applying walk.clock (acts_of (address_walk pdu.now)) own.old result own.new }
{
    let version = pdu[0];
    let mut at: usize = 1;
    loop {
        // none is refused in a frame that is well-formed
        let Ok(read) = mmrpdu::message(pdu, version, at) else {
            return true;
        };
        let Some(head) = read else {
            return true;
        };
        let Some(end) = list(own, walk, pdu, version, head) else {
            return false;
        };
        at = end;
    }
}

// A well-formed frame, at a time: first room is made for every address that it joins; then it is applied. Where there is no room
// for all, the records made for it go again.
pub fn receive_frame(own: &mut [u8], clock: u32, pdu: &[u8]) -> bool
    requires { ReceiveGiven own.old pdu.now }
    ensures { Receives clock pdu.now own.old result own.new }
{
    let fits = frame(
        own,
        Walk {
            applying: false,
            clock,
        },
        pdu,
    );
    if !fits {
        addresses::drop_vacant(own);
        return false;
    }
    frame(
        own,
        Walk {
            applying: true,
            clock,
        },
        pdu,
    )
}
