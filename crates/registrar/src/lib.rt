// The walk that applies a frame to the table (01, "Registering" and number 8).
#![tactic(auto)]

ghost use Rattle.std.specs.Prelude.{◌≡◌, true, false, ◌∷◌, [], map, ℕ, suc, ◌<◌, length};
ghost use Rattle.model.specs.Attributes.{type_of, kind_of};
ghost use Rattle.model.specs.Lists.{All};
ghost use Rattle.model.specs.State.{stays, domain};
ghost use Rattle.model.specs.Settling.{is_held};
ghost use Rattle.model.specs.Laid.{Laid};
ghost use Rattle.model.specs.Table.{encode, decode};
ghost use Rattle.model.specs.Registrations.{leave_all, leave, hear_all, hear, quit, does, hears, of_domain, leave_all_domains, hear_all_domains, hear_domain, quit_domain, hears_leave_all, holding};
ghost use Rattle.model.specs.Frames.{domain_type, vectors, walk, value_acts, values_acts, leave_all_acts, vector_acts};
ghost use Rattle.table.specs.Updates.{with_cell, with_sends, with_slot, with_sender};
ghost use Rattle.table.specs.Places.{StandsOn, PortIn, SlotIn};
ghost use Rattle.hearing.specs.Hears.{meant};
ghost use Rattle.msrpdu.specs.Reader.{head_vector};
ghost use Rattle.registrar.specs.Walked.{Walked, Receives};
ghost use Rattle.registrar.specs.Enrols.{Enrols};
ghost use Rattle.registrar.specs.Asks.{DomainGiven, CellGiven, FrameGiven, ListGiven, VectorGiven, ValuesGiven, ValueGiven, EventGiven, HearGiven, JoinGiven};
ghost use Rattle.registrar.specs.Acts.{acts_of, vector_of, join_of, event_for, register_acts, overheard_by, hear_acts, leave_heard};

use hearing::Heard;
use model::attribute::{Attribute, StreamAttribute};
use model::event::{Asked, Event};
use msrpdu::{MessageRead, VectorHead, VectorRead};

// The place of the VLAN in a Domain FirstValue.
const FIRST_DOMAIN_VLAN: usize = 2;

// A walk over an AttributeList: the place p of its port, whether it applies the list or makes room for it, the PDU's version and
// the AttributeType.
// A flag and not two walks: what makes room and what applies must meet the same values in the same order.
#[derive(Clone, Copy)]
struct ListWalk {
    p: usize,
    applying: bool,
    version: u8,
    attribute: Attribute,
}

// The same over the values of streams.
#[derive(Clone, Copy)]
struct StreamWalk {
    p: usize,
    applying: bool,
    attribute: StreamAttribute,
}

// Lv or LeaveAll of an AttributeType, on stream k's cell at a port.
fn quit_cell(table: &mut [u8], k: usize, p: usize, attribute: StreamAttribute, clock: u32)
    requires { StandsOn table.old k p }
    ensures { table.new ≡ encode (with_cell k p (quit clock (kind_of attribute)) (decode table.old)) }
{
    let a = table::cell_in(table, k, p);
    cells::quit(&mut table[a..a + table::CELL], attribute, clock);
}

// A join on stream k's cell: value n of a FirstValue, or a Listener of a four-packed event.
fn join_cell(table: &mut [u8], k: usize, walk: StreamWalk, first: &[u8], four: u8, n: usize)
    requires { CellGiven table.old k walk first.now four n }
    ensures { (clock : ℕ) → table.new ≡ encode (with_cell k walk.p
        (does clock (join_of (kind_of walk.attribute) first.now four n)) (decode table.old)) }
{
    let a = table::cell_in(table, k, walk.p);
    let cell = &mut table[a..a + table::CELL];
    match walk.attribute {
        StreamAttribute::Listener => cells::join_listener(cell, four),
        StreamAttribute::Talker(talker) => cells::join_talker(cell, talker, first, n),
    }
}

// Lv or LeaveAll of a Domain value of a port.
fn quit_slot(table: &mut [u8], p: usize, slot: usize, clock: u32)
    requires { SlotIn table.old p slot }
    ensures { table.new ≡ encode (with_slot p slot (quit_domain clock) (decode table.old)) }
{
    let a = table::slot_in(table, p, slot);
    domains::quit(&mut table[a..a + table::SLOT], clock);
}

// A join of a Domain value of a port, with its VLAN.
fn join_slot(table: &mut [u8], p: usize, slot: usize, vlan: u64)
    requires { SlotIn table.old p slot × (vlan < 65536) }
    ensures { table.new ≡ encode (with_slot p slot (λ d. domain vlan stays) (decode table.old)) }
{
    let a = table::slot_in(table, p, slot);
    domains::join(&mut table[a..a + table::SLOT], vlan);
}

// LeaveAll of the Domain values of a port.
pub fn leave_domains(table: &mut [u8], p: usize)
    requires { PortIn table.old p }
    ensures { Walked true p (of_domain leave_all_domains ∷ []) table.old true table.new }
{
    let now = table::clock(table);
    for slot in 0..table::SLOTS {
        quit_slot(table, p, slot, now);
    }
}

// LeaveAll of an AttributeType at a port: on each stream.
pub fn leave_all(table: &mut [u8], p: usize, attribute: StreamAttribute)
    requires { PortIn table.old p }
    ensures { Walked true p (leave_all (kind_of attribute) ∷ []) table.old true table.new }
{
    let now = table::clock(table);
    for k in 0..table::count(table) {
        quit_cell(table, k, p, attribute, now);
    }
}

// Lv of a StreamID and an AttributeType at a port: on its cell, where it is held.
fn withdraw(table: &mut [u8], p: usize, attribute: StreamAttribute, id: u64)
    requires { PortIn table.old p }
    ensures { Walked true p (leave (kind_of attribute) id ∷ []) table.old true table.new }
{
    let Ok(k) = table::find(table, id) else {
        return;
    };
    let now = table::clock(table);
    quit_cell(table, k, p, attribute, now);
}

// A record for a stream: the one that it has, or an empty one at its place, unless there are 64.
fn enrol(table: &mut [u8], id: u64) -> Option<usize>
    requires { Laid table.old }
    ensures { Enrols id table.old result table.new }
{
    match table::find(table, id) {
        Ok(k) => Some(k),
        Err(k) => {
            if table::count(table) == 64 {
                return None;
            }
            table::insert(table, k, id);
            Some(k)
        }
    }
}

// A join at a port: its record is there or is made; where the frame is applied, its cell is changed.
// first, four and n stay parameters for the reason that stands at value.
fn join(table: &mut [u8], walk: StreamWalk, id: u64, first: &[u8], four: u8, n: usize) -> bool
    requires { JoinGiven table.old walk id first.now four n }
    ensures { Walked walk.applying walk.p (join_of (kind_of walk.attribute) first.now four n ∷ []) table.old result
        table.new }
{
    let Some(k) = enrol(table, id) else {
        return false;
    };
    if walk.applying {
        join_cell(table, k, walk, first, four, n);
    }
    true
}

// What is heard by the Applicant of an AttributeType, of stream k at a port.
fn hear_sends(table: &mut [u8], k: usize, p: usize, attribute: StreamAttribute, heard: Heard)
    requires { StandsOn table.old k p }
    ensures { table.new ≡ encode (with_sends k p (hears (kind_of attribute) (meant heard)) (decode table.old)) }
{
    let a = table::sends_in(table, k, p);
    hearing::hear_of(&mut table[a..a + table::SENDS], attribute, heard);
}

// The same by its StreamID: a stream that is not held has no Applicant.
fn hear_stream(table: &mut [u8], p: usize, attribute: StreamAttribute, id: u64, heard: Heard)
    requires { PortIn table.old p }
    ensures { Walked true p (hear (kind_of attribute) id (meant heard) ∷ []) table.old true table.new }
{
    let Ok(k) = table::find(table, id) else {
        return;
    };
    hear_sends(table, k, p, attribute, heard);
}

// What is heard by the Applicant of a Domain value of a port.
fn hear_slot(table: &mut [u8], p: usize, slot: usize, heard: Heard)
    requires { SlotIn table.old p slot }
    ensures { Walked true p (of_domain (hear_domain slot (meant heard)) ∷ []) table.old true table.new }
{
    let a = table::sender_in(table, p);
    hearing::hear_domain(&mut table[a..a + table::SENDER], slot, heard);
}

// LeaveAll of the Domain values, heard by their Applicants and by the port's LeaveAll machine.
fn hear_domains(table: &mut [u8], p: usize)
    requires { PortIn table.old p }
    ensures { Walked true p (of_domain hear_all_domains ∷ []) table.old true table.new }
{
    let now = table::clock(table);
    let a = table::sender_in(table, p);
    hearing::hear_domains(&mut table[a..a + table::SENDER], now);
}

// LeaveAll of a type, heard by the port's LeaveAll machine.
fn restart(table: &mut [u8], p: usize)
    requires { PortIn table.old p }
    ensures { table.new
        ≡ encode (with_sender p (hears_leave_all (decode table.old).clock (λ ds. ds)) (decode table.old)) }
{
    let now = table::clock(table);
    let a = table::sender_in(table, p);
    hearing::restart(&mut table[a..a + table::SENDER], now);
}

// LeaveAll of an AttributeType, heard by the Applicants of its streams.
fn hear_streams(table: &mut [u8], p: usize, attribute: StreamAttribute)
    requires { PortIn table.old p }
    ensures { table.new
        ≡ encode (holding (decode table.old) (map (leave_heard p (kind_of attribute)) (decode table.old).streams)) }
{
    for k in 0..table::count(table) {
        hear_sends(table, k, p, attribute, Heard::Leave);
    }
}

// The same, by these and by the LeaveAll machine.
fn hear_all(table: &mut [u8], p: usize, attribute: StreamAttribute)
    requires { PortIn table.old p }
    ensures { Walked true p (hear_all (kind_of attribute) ∷ []) table.old true table.new }
{
    hear_streams(table, p, attribute);
    restart(table, p);
}

// The event of value n; a Listener's is none where its FourPackedEvent is Ignore.
#[tactic(auto, unfolding(crate::specs::Acts::event_for, model::specs::Frames::has_four))]
fn event_for(attribute: Attribute, events: &[u8], fours: &[u8], n: usize) -> Option<Event>
    ensures { result ≡ event_for (type_of attribute) events.now fours.now n }
{
    match attribute {
        Attribute::Listener if msrpdu::four_of(fours, n) == 0 => None,
        _ => msrpdu::event_of(events, n),
    }
}

// What an Applicant hears of an event; "In and Mt count now", and New moves nothing.
#[tactic(auto, unfolding(crate::specs::Acts::overheard_by))]
fn overhear(event: Event) -> Option<Heard>
    ensures { result ≡ overheard_by event }
{
    match event {
        Event::New => None,
        Event::JoinIn | Event::In => Some(Heard::In),
        Event::JoinMt | Event::Mt => Some(Heard::Empty),
        Event::Lv => Some(Heard::Leave),
    }
}

// What value n of a Domain vector asks of a Registrar at a port: "other values are checked and dropped".
fn register_domain(table: &mut [u8], p: usize, first: &[u8], event: Event, n: usize)
    requires { DomainGiven table.old p first.now n }
    ensures { Walked true p (register_acts domain_type first.now event 0 n) table.old true table.new }
{
    let Some(slot) = msrpdu::domain_slot(first, n) else {
        return;
    };
    match event.asked() {
        None => {}
        Some(Asked::Join) => {
            let vlan = octets::get(first, FIRST_DOMAIN_VLAN, 2);
            join_slot(table, p, slot, vlan);
        }
        Some(Asked::Leave) => {
            let now = table::clock(table);
            quit_slot(table, p, slot, now);
        }
    }
}

// What value n of a vector asks of a Registrar at a port: "A value is applied only if the vector reader gave one". A Domain value asks
// for no room.
fn register(
    table: &mut [u8],
    walk: ListWalk,
    first: &[u8],
    event: Event,
    four: u8,
    n: usize,
) -> bool
    requires { EventGiven table.old walk first.now four n }
    ensures { Walked walk.applying walk.p (register_acts (type_of walk.attribute) first.now event four n) table.old result
        table.new }
{
    let ListWalk { p, applying, .. } = walk;
    let Some(attribute) = walk.attribute.of_stream() else {
        if applying {
            register_domain(table, p, first, event, n);
        }
        return true;
    };
    let Some(id) = msrpdu::stream_id(first, n) else {
        return true;
    };
    match event.asked() {
        None => true,
        Some(Asked::Join) => {
            let streams = StreamWalk {
                p,
                applying,
                attribute,
            };
            join(table, streams, id, first, four, n)
        }
        Some(Asked::Leave) => {
            if applying {
                withdraw(table, p, attribute, id);
            }
            true
        }
    }
}

// What the Applicant of its type and key hears of value n of a vector at a port.
fn hear_value(table: &mut [u8], walk: ListWalk, first: &[u8], event: Event, n: usize)
    requires { HearGiven table.old walk first.now n }
    ensures { Walked true walk.p (hear_acts (type_of walk.attribute) first.now event n) table.old true table.new }
{
    let Some(heard) = overhear(event) else {
        return;
    };
    let Some(attribute) = walk.attribute.of_stream() else {
        let Some(slot) = msrpdu::domain_slot(first, n) else {
            return;
        };
        hear_slot(table, walk.p, slot, heard);
        return;
    };
    let Some(id) = msrpdu::stream_id(first, n) else {
        return;
    };
    hear_stream(table, walk.p, attribute, id, heard);
}

// Value n of a vector at a port: to its Registrar, and then to its Applicant. (A struct of the three slices gets no proof: that its
// octets are below 256 is known of slices that are parameters.)
fn value(
    table: &mut [u8],
    walk: ListWalk,
    first: &[u8],
    events: &[u8],
    fours: &[u8],
    n: usize,
) -> bool
    requires { ValueGiven table.old walk first.now events.now n }
    ensures { Walked walk.applying walk.p
        (value_acts (vector_of (type_of walk.attribute) false 0 first.now events.now fours.now) n)
        table.old result table.new }
{
    let Some(event) = event_for(walk.attribute, events, fours, n) else {
        return true;
    };
    let four = msrpdu::four_of(fours, n);
    if !register(table, walk, first, event, four, n) {
        return false;
    }
    if walk.applying {
        hear_value(table, walk, first, event, n);
    }
    true
}

// The values of a vector at a port, one after another.
fn values(
    table: &mut [u8],
    walk: ListWalk,
    first: &[u8],
    events: &[u8],
    fours: &[u8],
    count: usize,
) -> bool
    requires { ValuesGiven table.old walk first.now events.now count }
    ensures { Walked walk.applying walk.p
        (values_acts (vector_of (type_of walk.attribute) false 0 first.now events.now fours.now) 0 count)
        table.old result table.new }
{
    for n in 0..count {
        if !value(table, walk, first, events, fours, n) {
            return false;
        }
    }
    true
}

// LeaveAll of a vector at a port, which asks for no room.
fn begin_all(table: &mut [u8], walk: ListWalk, leaves: bool)
    requires { PortIn table.old walk.p }
    ensures { Walked walk.applying walk.p (leave_all_acts (type_of walk.attribute) leaves) table.old true
        table.new }
{
    if !walk.applying {
        return;
    }
    if !leaves {
        return;
    }
    let Some(attribute) = walk.attribute.of_stream() else {
        leave_domains(table, walk.p);
        hear_domains(table, walk.p);
        return;
    };
    leave_all(table, walk.p, attribute);
    hear_all(table, walk.p, attribute);
}

// The vector that was read at a place of its AttributeList: "LeaveAll first".
fn vector(table: &mut [u8], walk: ListWalk, list: &[u8], head: VectorHead) -> bool
    requires { VectorGiven table.old walk list.now head }
    ensures { Walked walk.applying walk.p (vector_acts (head_vector (type_of walk.attribute) list.now head))
        table.old result table.new }
{
    let first = msrpdu::first_value_at(list, head);
    begin_all(table, walk, head.leaves);
    values(
        table,
        walk,
        first,
        &list[head.three..head.four],
        &list[head.four..head.next],
        head.values,
    )
}

// An AttributeList at a port, vector by vector to its EndMark; what is passed over asks for nothing.
fn list(table: &mut [u8], walk: ListWalk, list: &[u8]) -> bool
    requires { ListGiven table.old walk list.now }
    ensures { Walked walk.applying walk.p
        (acts_of (vectors (suc (length list.now)) walk.version (type_of walk.attribute) list.now 0))
        table.old result table.new }
{
    let mut at: usize = 0;
    loop {
        // none is refused in a frame that is well-formed
        let Ok(read) = msrpdu::attribute_vector(list, at, walk.version, walk.attribute) else {
            return true;
        };
        match read {
            VectorRead::EndMark => {
                return true;
            }
            VectorRead::Vector(head) => {
                let next = head.next;
                let went = vector(table, walk, list, head);
                if !went {
                    return false;
                }
                at = next;
            }
            VectorRead::PassedOver(next) => {
                at = next;
            }
        }
    }
}

// A well-formed frame at a port, Message by Message: room is made for it, or it is applied.
fn frame(table: &mut [u8], p: usize, applying: bool, pdu: &[u8]) -> bool
    requires { FrameGiven table.old p pdu.now }
    ensures { Walked applying p (acts_of (walk pdu.now)) table.old result table.new }
{
    let version = pdu[0];
    let mut at: usize = 1;
    loop {
        // none is refused in a frame that is well-formed
        let Ok(read) = msrpdu::message(pdu, version, at) else {
            return true;
        };
        match read {
            MessageRead::End => {
                return true;
            }
            MessageRead::Skipped(next) => {
                at = next;
            }
            MessageRead::List(head) => {
                let start = head.list;
                let end = head.next;
                let walk = ListWalk {
                    p,
                    applying,
                    version,
                    attribute: head.attribute,
                };
                let went = list(table, walk, &pdu[start..end]);
                if !went {
                    return false;
                }
                at = end;
            }
        }
    }
}

// A well-formed frame at a port: first room is made for every stream that it joins; then it is applied. Where there is no
// room for all, the records made for it go again.
pub fn receive_frame(table: &mut [u8], p: usize, pdu: &[u8]) -> bool
    requires { FrameGiven table.old p pdu.now × All (λ x. is_held x ≡ true) (decode table.old).streams }
    ensures { Receives p pdu.now table.old result table.new }
{
    let fits = frame(table, p, false, pdu);
    if !fits {
        table::drop_unheld(table);
        return false;
    }
    frame(table, p, true, pdu)
}
