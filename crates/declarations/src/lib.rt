// What a port writes: its declarations by place, and the PDU that says as many as fit from a place on, with the events of their
// Applicants. Ports p, streams and Domain slots k are counted from 0.
#![tactic(auto)]

ghost use Rattle.std.specs.Prelude.{◌≡◌, false, not, [], ◌∷◌, ◌++◌, ◌+◌, ◌-◌, ◌*◌, ◌≤◌, ◌<◌, length, get_or, eqb};
ghost use Rattle.octets.specs.Be.{be};
ghost use Rattle.octets.specs.Parts.{part};
ghost use Rattle.model.specs.Attributes.{type_of};
ghost use Rattle.model.specs.Layout.{sends_size};
ghost use Rattle.model.specs.FrameLayout.{domain_length, in_first_value};
ghost use Rattle.model.specs.State.{no_domain, cell_at, sends_at, sender_at, own_at, stream_at};
ghost use Rattle.model.specs.Registrations.{listeners, registered_in, domain_stays};
ghost use Rattle.model.specs.Frames.{registers, domain_type, type_number, first_length};
ghost use Rattle.model.specs.Places.{reached};
ghost use Rattle.model.specs.Sending.{sends_octets};
ghost use Rattle.model.specs.Declarations as model;
ghost use Rattle.model.specs.Declarations.{vector_size, empty_size};
ghost use Rattle.model.specs.Writing.{leaves_all, port_way};
ghost use Rattle.model.specs.WrittenFrames.{listener_number, packed_vector, vector_octets, message_of};
ghost use Rattle.model.specs.Laid.{Laid};
ghost use Rattle.model.specs.Table.{decode};
ghost use Rattle.model.specs.Numbers.{event_number};
ghost use Rattle.applicants.specs.Octets.{octet};
ghost use Rattle.table.specs.Places.{StandsOn, PortIn, SlotIn};
ghost use Rattle.declarations.specs.Vectors.{some, Holding, headed, talker_vector, domain_vector, TalkerIn, announced};
ghost use Rattle.model.specs.declared.attribute.Attribute.TheVariants.{Listener};
ghost use Rattle.declarations.specs.Passes as passes;
ghost use Rattle.declarations.specs.Passes.{machine_by, state_number, registered_by, said_by, said_from, machines_from, all_of, vectors, Single, Declarer, Saying, event_in, VectorIn, StartsAt, RunIn, run_of, message, MessageIn, MessageWritten, RestIn, PassIn, PassLeaves, WriteIn, PduWritten};
ghost use Rattle.declarations.specs.Packed.{listener_at, listeners_at, Telling, PlacesIn, Placed, three_unit, four_unit, events_of, ValuesIn, VectorOfPart, packed_vectors, CutIn, ListenersIn, PackedIn};

use applicants::Applicant;
use model::attribute::Attribute;
use model::event::Event;
use model::pdu;

// The octets of an EndMark; of a Message's AttributeType, AttributeLength and list length; of all that a Message has beside its
// vectors; and of that with the PDU's EndMark.
const END_MARK: usize = 2;

const HEADER: usize = 4;

const AROUND: usize = HEADER + END_MARK;

const OPENED: usize = AROUND + END_MARK;

// Within a vector: FirstValue, and in it what follows the StreamID.
const FIRST: usize = 2;

const BEHIND_ID: usize = FIRST + 8;

// The unit of LeaveAllEvent in a vector's header, above the number of values.
const LEAVE_ALL: u64 = 8192;

// The octets of a Talker's values behind its StreamID; a Failed has Bridge ID and code too.
const OFFER: usize = table::sends::OFFER;

const FAILED_OFFER: usize = table::sends::LISTENING - table::sends::FAILED;

// The octets of a Domain value's class ID, priority and VLAN.
const CLASS_ID: usize = 1;

const PRIORITY: usize = 1;

const VLAN: usize = 2;

// The class ID of the slots' first class, class B, and the slots of a class.
const CLASS_B: u64 = 5;

const PRIORITIES: u64 = 8;

// The octets of a Domain value's FirstValue; those of packed events behind a FirstValue: one, and for a Listener two.
const DOMAIN_LENGTH: usize = CLASS_ID + PRIORITY + VLAN;

const EVENTS: usize = 1;

// The octets of a Message without values, beside a FirstValue.
const EMPTY: usize = AROUND + FIRST;

// What an octet weighs in a plan of Listeners, beside 1 for each vector.
const OCTET_WEIGHS: u16 = 65;

// The worth of an event as the first of three packed ones.
const FIRST_EVENT: u64 = 36;

// The octets of a vector of one value.
#[tactic(auto, unfolding(model::specs::Declarations::vector_size, model::specs::Frames::first_length))]
fn vector_size(attribute: Attribute) -> usize
    ensures { (result ≡ vector_size (type_of attribute)) × (1 ≤ result) × (result ≤ 37) }
{
    let events = match attribute {
        Attribute::Listener => 2 * EVENTS,
        Attribute::Advertise | Attribute::Failed | Attribute::Domain => EVENTS,
    };
    FIRST + attribute.first_length() + events
}

// AttributeType and AttributeLength, as one number.
#[tactic(auto, unfolding(octets::specs::Be::be, model::specs::Frames::type_number, model::specs::Frames::first_length))]
fn type_and_length(attribute: Attribute) -> u64
    ensures { be 2 result ≡ type_number (type_of attribute) ∷ first_length (type_of attribute) ∷ [] }
{
    attribute as u64 * 256 + attribute.first_length() as u64
}

// Whether the next write of port p carries LeaveAll.
fn leaves_all(table: &[u8], p: usize) -> bool
    requires { PortIn table.now p }
    ensures { result ≡ leaves_all (decode table.now) p }
{
    let sender = table::sender_at(table, p);
    sender[table::sender::LEAVE_ALL] == 1
}

// The octets of a type's Message that only carries LeaveAll; 0 without LeaveAll, when there is none.
#[tactic(auto, unfolding(model::specs::Declarations::empty_size, model::specs::Frames::first_length))]
fn empty_size(attribute: Attribute, all: bool) -> usize
    ensures { (result ≡ empty_size all (type_of attribute)) × (result ≤ 42) }
{
    if all {
        return EMPTY + attribute.first_length();
    }
    0
}

// The octets of those of the later types.
#[tactic(auto, unfolding(crate::specs::Passes::later, model::specs::Declarations::empty_size, model::specs::Frames::first_length))]
fn later_sizes(attribute: Attribute, all: bool) -> usize
    ensures { (result ≡ passes.later all (type_of attribute)) × (result ≤ 70) }
{
    match attribute {
        Attribute::Advertise => {
            empty_size(Attribute::Failed, all)
                + (empty_size(Attribute::Listener, all) + empty_size(Attribute::Domain, all))
        }
        Attribute::Failed => {
            empty_size(Attribute::Listener, all) + empty_size(Attribute::Domain, all)
        }
        Attribute::Listener => empty_size(Attribute::Domain, all),
        Attribute::Domain => 0,
    }
}

// The number of those that may declare something of a type: the streams, or the Domain slots.
#[tactic(auto, using(crate::proofs::Places::slots_held), unfolding(crate::specs::Passes::declarers))]
fn declarers(table: &[u8], p: usize, attribute: Attribute) -> usize
    requires { PortIn table.now p }
    ensures { (result ≡ passes.declarers (type_of attribute) p (decode table.now)) × (result ≤ 64) }
{
    match attribute {
        Attribute::Advertise | Attribute::Failed | Attribute::Listener => table::count(table),
        Attribute::Domain => table::SLOTS,
    }
}

// An octet of what port p sends of stream k; the Applicant of its Domain slot k.
fn sent_octet(table: &[u8], k: usize, p: usize, at: usize) -> u8
    requires { StandsOn table.now k p × (at < sends_size) }
    ensures { result ≡ get_or (sends_octets (sends_at (stream_at k (decode table.now)) p)) at 0 }
{
    let sends = table::sends_at(table, k, p);
    sends[at]
}

fn slot_octet(table: &[u8], k: usize, p: usize) -> u8
    requires { SlotIn table.now p k }
    ensures { result ≡ state_number (machine_by domain_type p (decode table.now) k) }
{
    let sender = table::sender_at(table, p);
    sender[table::sender::APPLICANTS + k]
}

// The Applicant of a type that the declarer at place k has on port p.
#[tactic(auto, using(applicants::proofs::Octets::octet_read, crate::proofs::States::state_few, crate::proofs::Vectors::advertising_state, crate::proofs::Vectors::failing_state, crate::proofs::Vectors::listening_state))]
pub fn applicant_of(table: &[u8], k: usize, p: usize, attribute: Attribute) -> Applicant
    requires { Declarer table.now k p (type_of attribute) }
    ensures { octet result ≡ state_number (machine_by (type_of attribute) p (decode table.now) k) }
{
    match attribute {
        Attribute::Advertise => {
            Applicant::from(sent_octet(table, k, p, table::sends::ADVERTISING))
        }
        Attribute::Failed => Applicant::from(sent_octet(table, k, p, table::sends::FAILING)),
        Attribute::Listener => Applicant::from(sent_octet(table, k, p, table::sends::LISTENING)),
        Attribute::Domain => Applicant::from(slot_octet(table, k, p)),
    }
}

// Whether port p now has a registration of the declarer's type and key that is not leaving.
pub fn is_registered(table: &[u8], k: usize, p: usize, attribute: Attribute) -> bool
    requires { Declarer table.now k p (type_of attribute) }
    ensures { result ≡ registered_by (type_of attribute) p (decode table.now) k }
{
    match attribute.of_stream() {
        Some(stream) => cells::is_registered(table::cell_at(table, k, p), stream),
        None => {
            let a = table::slot_in(table, p, k);
            domains::is_registered(&table[a..a + table::SLOT])
        }
    }
}

// Whether the declarer at place k has a declaration of a type on port p, and whether a write says something of it.
#[tactic(auto, using(crate::proofs::States::some_state))]
fn declares(table: &[u8], k: usize, p: usize, attribute: Attribute) -> bool
    requires { Declarer table.now k p (type_of attribute) }
    ensures { result ≡ some (machine_by (type_of attribute) p (decode table.now) k) }
{
    !applicant_of(table, k, p, attribute).is_none()
}

#[tactic(auto, using(crate::proofs::States::says_some))]
fn says(table: &[u8], k: usize, p: usize, attribute: Attribute) -> bool
    requires { Declarer table.now k p (type_of attribute) }
    ensures { result ≡ some (said_by (type_of attribute) p (decode table.now) k) }
{
    applicant_of(table, k, p, attribute).is_written(leaves_all(table, p))
}

// The event that a write says of it.
#[tactic(auto, using(crate::proofs::States::event_said))]
fn event_of(table: &[u8], k: usize, p: usize, attribute: Attribute) -> Event
    requires { Saying table.now k p (type_of attribute) }
    ensures { event_number result ≡ event_in (said_by (type_of attribute) p (decode table.now) k) }
{
    let registered = is_registered(table, k, p, attribute);
    let applicant = applicant_of(table, k, p, attribute);
    applicant.event_written(registered, leaves_all(table, p))
}

// The number of declarations of a type; counted in a loop, since `filter` and `count` leave open that these are the ones.
fn count_of(table: &[u8], p: usize, attribute: Attribute) -> usize
    requires { PortIn table.now p }
    ensures { (result ≡ length (all_of (type_of attribute) p (decode table.now))) × (result ≤ 64) }
{
    let count = declarers(table, p, attribute);
    let mut n: usize = 0;
    for k in 0..count {
        if declares(table, k, p, attribute) {
            n += 1;
        }
    }
    n
}

// The number of declarations of port p.
pub fn count_declarations(table: &[u8], p: usize) -> usize
    requires { PortIn table.now p }
    ensures { (result ≡ length (model.declarations (decode table.now) p)) × (result ≤ 256) }
{
    let advertise = count_of(table, p, Attribute::Advertise);
    let failed = count_of(table, p, Attribute::Failed);
    let listener = count_of(table, p, Attribute::Listener);
    let domain = count_of(table, p, Attribute::Domain);
    advertise + failed + listener + domain
}

// The place of the first declarer behind some declarations of a type, and how many of these its declarers do not have.
#[derive(Clone, Copy)]
pub struct Start {
    pub first: usize,
    pub skip: usize,
}

fn seek(table: &[u8], p: usize, attribute: Attribute, skip: usize) -> Start
    requires { PortIn table.now p }
    ensures { StartsAt table.now p (type_of attribute) skip result }
{
    let count = declarers(table, p, attribute);
    let mut before = skip;
    for k in 0..count {
        if before == 0 {
            return Start { first: k, skip: 0 };
        }
        if declares(table, k, p, attribute) {
            before -= 1;
        }
    }
    Start {
        first: count,
        skip: before,
    }
}

// How many declarations of a type have something to say, from the declarer at a place on; in a loop likewise.
fn count_saying(table: &[u8], p: usize, attribute: Attribute, first: usize) -> usize
    requires { PortIn table.now p }
    ensures { (result ≡ length (said_from (type_of attribute) p (decode table.now) first)) × (result ≤ 64) }
{
    let count = declarers(table, p, attribute);
    let mut n: usize = 0;
    for k in first..count {
        if says(table, k, p, attribute) {
            n += 1;
        }
    }
    n
}

// How many declarations stand there before the first one that has something to say and finds no room, where n do.
fn reach(table: &[u8], p: usize, attribute: Attribute, first: usize, n: usize) -> usize
    requires { PortIn table.now p }
    ensures { (result ≡ length (reached (port_way (decode table.now) p).says n (machines_from (type_of attribute) p (decode table.now) first))) × (result ≤ 64) }
{
    let count = declarers(table, p, attribute);
    let mut left = n;
    let mut past: usize = 0;
    for k in first..count {
        if !declares(table, k, p, attribute) {
            continue;
        }
        if says(table, k, p, attribute) {
            if left == 0 {
                return past;
            }
            left -= 1;
        }
        past += 1;
    }
    past
}

// The header of a vector, so many values and no LeaveAll, and a StreamID.
fn begin_vector(values: u64, id: u64, out: &mut [u8])
    requires { 2 + in_first_value.destination ≤ length out.old }
    ensures { Holding (headed values id) (2 + in_first_value.destination) out.old out.new }
{
    octets::put(out, 0, FIRST, values);
    octets::put(out, FIRST, 8, id);
}

// What port p sends of a Talker, so many octets from a place on, behind the StreamID.
fn copy_offer(table: &[u8], k: usize, p: usize, from: usize, out: &mut [u8])
    requires { StandsOn table.now k p × (from + length out.old ≤ sends_size) }
    ensures { out.new ≡ part from (length out.old) (sends_octets (sends_at (stream_at k (decode table.now)) p)) }
{
    let sends = table::sends_at(table, k, p);
    let end = from + out.len();
    out.copy_from_slice(&sends[from..end]);
}

// The vector of a Talker, whose values are so many octets of what is sent, from a place on.
fn write_talker(table: &[u8], k: usize, p: usize, from: usize, event: Event, out: &mut [u8])
    requires { TalkerIn table.now k p from (length out.old - (3 + in_first_value.destination)) out.old }
    ensures { out.new ≡ talker_vector from (length out.old - (3 + in_first_value.destination)) (event_number event) p (stream_at k (decode table.now)) }
{
    let more = out.len() - (BEHIND_ID + EVENTS);
    begin_vector(1, table::id_at(table, k), out);
    copy_offer(table, k, p, from, &mut out[BEHIND_ID..BEHIND_ID + more]);
    octets::put(out, BEHIND_ID + more, EVENTS, event as u64 * FIRST_EVENT);
}

// The vector of the Domain value of slot k: class ID, priority, VLAN.
fn write_domain(table: &[u8], k: usize, event: Event, out: &mut [u8])
    requires { Laid table.now × (k < 16) × (length out.old ≡ 2 + domain_length + 1) }
    ensures { out.new ≡ domain_vector (decode table.now).settings (event_number event) k }
{
    let slot = k as u64;
    octets::put(out, 0, FIRST, 1);
    octets::put(out, FIRST, CLASS_ID, CLASS_B + slot / PRIORITIES);
    octets::put(out, FIRST + CLASS_ID, PRIORITY, slot % PRIORITIES);
    octets::put(
        out,
        FIRST + CLASS_ID + PRIORITY,
        VLAN,
        table::domain_vlan(table),
    );
    octets::put(
        out,
        FIRST + DOMAIN_LENGTH,
        EVENTS,
        event as u64 * FIRST_EVENT,
    );
}

// The vector of what is said of a type by the declarer at place k; Listeners are packed instead.
fn write_vector(table: &[u8], k: usize, p: usize, attribute: Attribute, out: &mut [u8])
    requires { VectorIn table.now k p (type_of attribute) out.old }
    ensures { out.new ≡ vectors (said_by (type_of attribute) p (decode table.now) k) }
{
    let event = event_of(table, k, p, attribute);
    match attribute {
        Attribute::Advertise => write_talker(table, k, p, table::sends::ADVERTISED, event, out),
        Attribute::Failed => write_talker(table, k, p, table::sends::FAILED, event, out),
        Attribute::Listener => {}
        Attribute::Domain => write_domain(table, k, event, out),
    }
}

// Declarations of a type that have something to say: so many, from the declarer at a place on.
#[derive(Clone, Copy)]
pub struct Run {
    pub attribute: Attribute,
    pub first: usize,
    pub count: usize,
}

// The vectors of a run.
fn write_vectors(table: &[u8], p: usize, run: Run, out: &mut [u8])
    requires { RunIn table.now p run × (length out.old ≡ run.count * vector_size (type_of run.attribute)) }
    ensures { out.new ≡ vectors (run_of table.now p run) }
{
    let attribute = run.attribute;
    let size = vector_size(attribute);
    let mut left = run.count;
    let mut at: usize = 0;
    for k in run.first..declarers(table, p, attribute) {
        if left == 0 {
            return;
        }
        if says(table, k, p, attribute) {
            write_vector(table, k, p, attribute, &mut out[at..at + size]);
            at += size;
            left -= 1;
        }
    }
}

// With LeaveAll: LeaveAllEvent 1 in the first of these vectors.
fn announce(table: &[u8], p: usize, out: &mut [u8])
    requires { PortIn table.now p × (2 ≤ length out.old) }
    ensures { out.new ≡ announced (leaves_all (decode table.now) p) out.old }
{
    if leaves_all(table, p) {
        let values = octets::get(out, 0, FIRST);
        octets::put(out, 0, FIRST, values + LEAVE_ALL);
    }
}

// The Message around vectors that stand in their place: header, and the list's EndMark.
fn close_message(attribute: Attribute, out: &mut [u8])
    requires { 6 ≤ length out.old }
    ensures { out.new ≡ message_of (type_of attribute) (part 4 (length out.old - 6) out.old ++ (0 ∷ 0 ∷ [])) }
{
    let list = out.len() - AROUND;
    octets::put(out, 0, 2, type_and_length(attribute));
    octets::put(out, 2, 2, (list + END_MARK) as u64);
    octets::put(out, HEADER + list, END_MARK, 0);
}

// The same with LeaveAll in the first vector, where the write carries it.
fn finish(table: &[u8], p: usize, attribute: Attribute, out: &mut [u8])
    requires { PortIn table.now p × (8 ≤ length out.old) }
    ensures { out.new ≡ message_of (type_of attribute) (announced (leaves_all (decode table.now) p) (part 4 (length out.old - 6) out.old) ++ (0 ∷ 0 ∷ [])) }
{
    let list = out.len() - AROUND;
    announce(table, p, &mut out[HEADER..HEADER + list]);
    close_message(attribute, out);
}

// The Message of a run.
fn write_message(table: &[u8], p: usize, run: Run, out: &mut [u8])
    requires { RunIn table.now p run × (length out.old ≡ 6 + run.count * vector_size (type_of run.attribute)) }
    ensures { out.new ≡ message (leaves_all (decode table.now) p) (type_of run.attribute) (run_of table.now p run) }
{
    let attribute = run.attribute;
    let list = out.len() - AROUND;
    write_vectors(table, p, run, &mut out[HEADER..HEADER + list]);
    finish(table, p, attribute, out);
}

// How many vectors of a size fit into a PDU, of those left, with so many octets used.
fn fits(used: usize, size: usize, left: usize) -> usize
    requires { 1 ≤ size }
    ensures { result ≡ passes.fits used size left }
{
    if pdu::LONGEST < used {
        return 0;
    }
    let room = (pdu::LONGEST - used) / size;
    if room < left {
        return room;
    }
    left
}

// A Message in the PDU: how many declarations it says, and the octets of the PDU with it.
#[derive(Clone, Copy)]
pub struct Message {
    pub count: usize,
    pub end: usize,
}

// The Message of a type of which nothing is said, behind so many octets: none, but with LeaveAll one of a vector without values.
fn write_none(table: &[u8], p: usize, attribute: Attribute, at: usize, buffer: &mut [u8]) -> Message
    requires { MessageIn table.now p (type_of attribute) at buffer.old }
    ensures { MessageWritten (leaves_all (decode table.now) p) (type_of attribute) [] at buffer.old result buffer.new }
{
    let size = empty_size(attribute, leaves_all(table, p));
    if size == 0 {
        return Message { count: 0, end: at };
    }
    octets::clear(buffer, at, size);
    finish(table, p, attribute, &mut buffer[at..at + size]);
    Message {
        count: 0,
        end: at + size,
    }
}

// The Message of those that fit, of all that is said of a type from a place on, one per vector.
fn take_run(table: &[u8], p: usize, run: Run, at: usize, buffer: &mut [u8]) -> Message
    requires { MessageIn table.now p (type_of run.attribute) at buffer.old × RestIn table.now p run × Single (type_of run.attribute) }
    ensures { MessageWritten (leaves_all (decode table.now) p) (type_of run.attribute) (said_from (type_of run.attribute) p (decode table.now) run.first) at buffer.old result buffer.new }
{
    let attribute = run.attribute;
    let size = vector_size(attribute);
    let later = later_sizes(attribute, leaves_all(table, p));
    let n = fits(at + OPENED + later, size, run.count);
    if n == 0 {
        return write_none(table, p, attribute, at, buffer);
    }
    let long = AROUND + n * size;
    let some = Run {
        attribute,
        first: run.first,
        count: n,
    };
    write_message(table, p, some, &mut buffer[at..at + long]);
    Message {
        count: n,
        end: at + long,
    }
}

// The places of streams with a Listener to say on port p, from a place on; as many as there is room for.
fn gather(table: &[u8], p: usize, first: usize, places: &mut [u8])
    requires { PlacesIn table.now p first places.old }
    ensures { Placed table.now p first places.new }
{
    let mut n: usize = 0;
    for k in first..declarers(table, p, Attribute::Listener) {
        if n == places.len() {
            return;
        }
        if says(table, k, p, Attribute::Listener) {
            places[n] = k as u8;
            n += 1;
        }
    }
}

// The declaration type of the Listener of the stream named at place i, and the event said of it.
fn listener_number(table: &[u8], p: usize, places: &[u8], i: usize) -> u8
    requires { Telling table.now p places.now × (i < length places.now) }
    ensures { (result ≡ listener_number (listener_at p (decode table.now) (get_or places.now i 0)).declaration) × (result ≤ 3) }
{
    sent_octet(table, places[i] as usize, p, table::sends::LISTENED)
}

fn listener_event(table: &[u8], p: usize, places: &[u8], i: usize) -> Event
    requires { Telling table.now p places.now × (i < length places.now) }
    ensures { event_number result ≡ (listener_at p (decode table.now) (get_or places.now i 0)).event }
{
    event_of(table, places[i] as usize, p, Attribute::Listener)
}

// An event at position i of three packed ones; a declaration type at position i of four packed ones.
#[tactic(auto, unfolding(crate::specs::Packed::three_unit))]
fn event_at(event: Event, i: usize) -> u8
    requires { i < 3 }
    ensures { result ≡ event_number event * three_unit i }
{
    match i {
        0 => event as u8 * 36,
        1 => event as u8 * 6,
        _ => event as u8,
    }
}

#[tactic(auto, unfolding(crate::specs::Packed::four_unit))]
fn type_at(number: u8, i: usize) -> u8
    requires { (number ≤ 3) × (i < 4) }
    ensures { result ≡ number * four_unit i }
{
    match i {
        0 => number * 64,
        1 => number * 16,
        2 => number * 4,
        _ => number,
    }
}

// The packed events of a part: event and declaration type of each Listener, at the position of its StreamID.
fn write_values(table: &[u8], p: usize, places: &[u8], out: &mut [u8])
    requires { ValuesIn table.now p places.now out.old }
    ensures { out.new ≡ events_of (listeners_at p table.now places.now) }
{
    let first = cutting::id_of(table, places, 0);
    let threes = ((cutting::values_of(table, places) + 2) / 3) as usize;
    let all = out.len();
    octets::clear(out, 0, all);
    for i in 0..places.len() {
        let at = (cutting::id_of(table, places, i) - first) as usize;
        let three = at / 3;
        let event = listener_event(table, p, places, i);
        out[three] = out[three] + event_at(event, at % 3);
        let four = threes + at / 4;
        let number = listener_number(table, p, places, i);
        out[four] = out[four] + type_at(number, at % 4);
    }
}

// The vector of a part.
fn write_part(table: &[u8], p: usize, places: &[u8], out: &mut [u8])
    requires { VectorOfPart table.now p places.now out.old }
    ensures { out.new ≡ vector_octets (packed_vector (listeners_at p table.now places.now)) }
{
    let events = out.len() - BEHIND_ID;
    let values = cutting::values_of(table, places);
    begin_vector(values, cutting::id_of(table, places, 0), out);
    write_values(table, p, places, &mut out[BEHIND_ID..BEHIND_ID + events]);
}

// The vectors of Listeners, cut as planned: a step goes on by a part's places, so that no range or iterator has the steps.
fn write_parts(table: &[u8], p: usize, places: &[u8], firsts: &[u8], out: &mut [u8])
    requires { CutIn table.now p places.now firsts.now (length out.old) }
    ensures { out.new ≡ packed_vectors (listeners_at p table.now places.now) }
{
    let mut i: usize = 0;
    let mut at: usize = 0;
    while i < places.len() {
        let end = i + firsts[i] as usize;
        let size = cutting::size_of(table, &places[i..end]);
        write_part(table, p, &places[i..end], &mut out[at..at + size]);
        at += size;
        i = end;
    }
}

// The Message of Listeners.
fn write_listeners(table: &[u8], p: usize, places: &[u8], firsts: &[u8], out: &mut [u8])
    requires { ListenersIn table.now p places.now firsts.now out.old }
    ensures { out.new ≡ message (leaves_all (decode table.now) p) (registers listeners) (listeners_at p table.now places.now) }
{
    let list = out.len() - AROUND;
    write_parts(table, p, places, firsts, &mut out[HEADER..HEADER + list]);
    finish(table, p, Attribute::Listener, out);
}

// The Message of those that fit, of the Listeners of streams by their places.
fn take_packed(table: &[u8], p: usize, places: &[u8], at: usize, buffer: &mut [u8]) -> Message
    requires { PackedIn table.now p places.now at buffer.old }
    ensures { MessageWritten (leaves_all (decode table.now) p) (registers listeners) (listeners_at p table.now places.now) at buffer.old result buffer.new }
{
    let mut weighs = [0u16; 65];
    let mut firsts = [0u8; 65];
    let later = later_sizes(Attribute::Listener, leaves_all(table, p));
    let room = (pdu::LONGEST - (at + OPENED + later)) as u64;
    let n = cutting::pack(table, places, room, &mut weighs, &mut firsts);
    if n == 0 {
        return write_none(table, p, Attribute::Listener, at, buffer);
    }
    let long = AROUND + (weighs[0] / OCTET_WEIGHS) as usize;
    write_listeners(table, p, &places[..n], &firsts, &mut buffer[at..at + long]);
    Message {
        count: n,
        end: at + long,
    }
}

// The same of all that have something to say from a place on, with room for 64 places.
fn take_listeners(
    table: &[u8],
    p: usize,
    run: Run,
    at: usize,
    places: &mut [u8],
    buffer: &mut [u8],
) -> Message
    requires { MessageIn table.now p (registers listeners) at buffer.old × RestIn table.now p run × (run.attribute ≡ Listener) × (length places.old ≡ 64) }
    ensures { MessageWritten (leaves_all (decode table.now) p) (registers listeners) (said_from (registers listeners) p (decode table.now) run.first) at buffer.old result buffer.new }
{
    let left = run.count;
    let later = later_sizes(Attribute::Listener, leaves_all(table, p));
    if pdu::LONGEST < at + OPENED + later {
        return write_none(table, p, Attribute::Listener, at, buffer);
    }
    if left == 0 {
        return write_none(table, p, Attribute::Listener, at, buffer);
    }
    gather(table, p, run.first, &mut places[..left]);
    take_packed(table, p, &places[..left], at, buffer)
}

// The Message of those that fit, of all that is said of a type from a place on.
// Room for the places of 64 streams, as there is no heap; what is handed on is as long as there is something to say.
fn take(table: &[u8], p: usize, run: Run, at: usize, buffer: &mut [u8]) -> Message
    requires { MessageIn table.now p (type_of run.attribute) at buffer.old × RestIn table.now p run }
    ensures { MessageWritten (leaves_all (decode table.now) p) (type_of run.attribute) (said_from (type_of run.attribute) p (decode table.now) run.first) at buffer.old result buffer.new }
{
    let attribute = run.attribute;
    match attribute {
        Attribute::Listener => {
            let mut places = [0u8; 64];
            return take_listeners(table, p, run, at, &mut places, buffer);
        }
        Attribute::Advertise | Attribute::Failed | Attribute::Domain => {
            return take_run(table, p, run, at, buffer);
        }
    }
}

// How far a PDU is: its octets so far, the declarations still to pass over, the place that it reached, and whether one that has
// something to say found no room.
#[derive(Clone, Copy)]
pub struct Progress {
    pub at: usize,
    pub skip: usize,
    pub end: usize,
    pub full: bool,
}

// The pass of a type that has room left.
fn pass_open(
    table: &[u8],
    p: usize,
    attribute: Attribute,
    from: Progress,
    buffer: &mut [u8],
) -> Progress
    requires { PassIn table.now p (type_of attribute) from buffer.old × (from.full ≡ false) }
    ensures { PassLeaves table.now p (type_of attribute) from buffer.old result buffer.new }
{
    let start = seek(table, p, attribute, from.skip);
    let first = start.first;
    let left = count_saying(table, p, attribute, first);
    let run = Run {
        attribute,
        first,
        count: left,
    };
    let made = take(table, p, run, from.at, buffer);
    let n = made.count;
    Progress {
        at: made.end,
        skip: start.skip,
        end: from.end + reach(table, p, attribute, first, n),
        full: n < left,
    }
}

// The pass of a type.
fn pass(table: &[u8], p: usize, attribute: Attribute, from: Progress, buffer: &mut [u8]) -> Progress
    requires { PassIn table.now p (type_of attribute) from buffer.old }
    ensures { PassLeaves table.now p (type_of attribute) from buffer.old result buffer.new }
{
    if !from.full {
        return pass_open(table, p, attribute, from, buffer);
    }
    let made = write_none(table, p, attribute, from.at, buffer);
    Progress {
        at: made.end,
        skip: 0,
        end: from.end,
        full: true,
    }
}

// What a write answers: the PDU's length, the place that it reached in the list, and whether it carries LeaveAll.
#[derive(Clone, Copy)]
pub struct Taken {
    pub length: usize,
    pub end: usize,
    pub all: bool,
}

// From a place on, the PDU that says as many declarations as fit in 1,500 octets: ProtocolVersion, a pass for each type, EndMark.
pub fn write_pdu(table: &[u8], p: usize, place: usize, buffer: &mut [u8]) -> Taken
    requires { WriteIn table.now p place buffer.old }
    ensures { PduWritten (decode table.now) p place buffer.old result buffer.new }
{
    buffer[0] = 0;
    let begun = Progress {
        at: 1,
        skip: place,
        end: place,
        full: false,
    };
    let a = pass(table, p, Attribute::Advertise, begun, buffer);
    let f = pass(table, p, Attribute::Failed, a, buffer);
    let l = pass(table, p, Attribute::Listener, f, buffer);
    let d = pass(table, p, Attribute::Domain, l, buffer);
    let end = d.at;
    octets::put(buffer, end, END_MARK, 0);
    Taken {
        length: end + END_MARK,
        end: d.end,
        all: leaves_all(table, p),
    }
}
