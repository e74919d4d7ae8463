// What a write does to the machines of its port (02, xiv): those that its PDU reaches get tx!, or with LeaveAll txLA!, and all others
// then txLAF!; with LeaveAll the port's own registrations begin to leave; a stream that has neither a registration nor a machine goes.
#![tactic(auto)]

ghost use Rattle.std.specs.Prelude.{◌≡◌, eqb, true, cond, not, ℕ, ◌+◌, ◌≤◌, ◌<◌, length};
ghost use Rattle.model.specs.Attributes.{kind_of};
ghost use Rattle.model.specs.Lists.{bit};
ghost use Rattle.model.specs.Layout.{sends_size, sender_size};
ghost use Rattle.model.specs.Applicant.{tx_laf, opportunity, step};
ghost use Rattle.model.specs.Sending.{sender_octets, to_sender};
ghost use Rattle.model.specs.Table.{decode};
ghost use Rattle.model.specs.Laid.{LaidSender};
ghost use Rattle.model.specs.Writing.{own_leave_all};
ghost use Rattle.table.specs.Places.{PortIn};
ghost use Rattle.applicants.specs.Octets.{octet};
ghost use Rattle.registrar.specs.Walked.{Walked};
ghost use Rattle.moving.specs.Moves.{octet_by, state_at, in_kind, behind_kind, met_by, Few, all_sent, leave_all_sent, Encodes, MovedTypes, ListMoved, MovedStream, MovedKind, MovedSlot, MovedDomains, MovedSends, MovedSender, SendsGiven, StreamGiven, KindGiven, SenderGiven, SlotGiven, DomainsGiven};

use applicants::Applicant;
use model::attribute::{StreamAttribute, TalkerAttribute};
use table::sender::{APPLICANTS, LEAVE_ALL};
use table::sends::{ADVERTISED, ADVERTISING, FAILED, FAILING, LISTENED, LISTENING};

// A write of a port: the place that its PDU takes declarations from, the end that it reaches, and whether it has LeaveAll.
#[derive(Clone, Copy)]
pub struct Span {
    pub place: usize,
    pub end: usize,
    pub all: bool,
}

// How far the moves are: the machines met, and those left of the ones before the end.
#[derive(Clone, Copy)]
pub struct Met {
    pub count: usize,
    pub left: usize,
}

// An Applicant after the write, at place i of the port's list: what the PDU reaches gets tx!, with LeaveAll txLA!, and with LeaveAll
// all others get txLAF!.
#[tactic(auto, using(crate::proofs::One::left_out_alike), unfolding(crate::specs::Moves::octet_by))]
fn after(state: Applicant, registered: bool, span: Span, i: usize) -> Applicant
    ensures { octet result ≡ octet_by span i registered (octet state) }
{
    if span.place <= i && i < span.end {
        return state.written(registered, span.all);
    }
    if span.all {
        return state.left_out();
    }
    state
}

// The Applicant at a place; where it goes, so do the values behind it.
#[tactic(auto, unfolding(crate::specs::Moves::state_at))]
fn put_state(sent: &mut [u8], at: usize, values: usize, state: Applicant)
    requires { at + 1 + values ≤ length sent.old }
    ensures { sent.new ≡ state_at at values (octet state) sent.old }
{
    if state.is_none() {
        octets::clear(sent, at, values + 1);
        return;
    }
    sent[at] = state as u8;
}

// The place of the Applicant of an AttributeType.
#[tactic(auto, unfolding(crate::specs::Moves::in_kind))]
fn place_of(attribute: StreamAttribute) -> usize
    ensures { (result ≡ in_kind (kind_of attribute)) × (result < sends_size) }
{
    match attribute {
        StreamAttribute::Talker(TalkerAttribute::Advertise) => ADVERTISING,
        StreamAttribute::Talker(TalkerAttribute::Failed) => FAILING,
        StreamAttribute::Listener => LISTENING,
    }
}

// The octets of the values behind it.
#[tactic(auto, unfolding(crate::specs::Moves::behind_kind))]
fn values_of(attribute: StreamAttribute) -> usize
    ensures { result ≡ behind_kind (kind_of attribute) }
{
    match attribute {
        StreamAttribute::Talker(TalkerAttribute::Advertise) => FAILING - ADVERTISED,
        StreamAttribute::Talker(TalkerAttribute::Failed) => LISTENING - FAILED,
        StreamAttribute::Listener => table::SENDS - LISTENED,
    }
}

// How far the moves are behind a machine: it is met, and where it stands before the end and is left it is counted.
#[tactic(auto, unfolding(crate::specs::Moves::met_by, model::specs::Lists::bit))]
fn counted(from: Met, span: Span, state: Applicant) -> Met
    requires { Few from 256 }
    ensures { result ≡ met_by span from 1 (bit (not (eqb (octet state) 0))) }
{
    let mut met = from;
    met.count += 1;
    if from.count < span.end && !state.is_none() {
        met.left += 1;
    }
    met
}

// What the port sends of a stream: the Applicant of an AttributeType, where there is one.
fn move_sent(
    sends: &mut [u8],
    attribute: StreamAttribute,
    registered: bool,
    span: Span,
    from: Met,
) -> Met
    requires { SendsGiven sends.old from }
    ensures { MovedSends span from (kind_of attribute) registered sends.old result sends.new }
{
    let at = place_of(attribute);
    let state = Applicant::from(sends[at]);
    if state.is_none() {
        return from;
    }
    let next = after(state, registered, span, from.count);
    put_state(sends, at, values_of(attribute), next);
    counted(from, span, next)
}

// The machine of an AttributeType that stream k has on port p.
fn move_stream(
    table: &mut [u8],
    k: usize,
    p: usize,
    attribute: StreamAttribute,
    span: Span,
    from: Met,
) -> Met
    requires { StreamGiven table.old k p from }
    ensures { MovedStream span from (kind_of attribute) k p table.old result table.new }
{
    let registered = cells::is_registered(table::cell_at(table, k, p), attribute);
    let a = table::sends_in(table, k, p);
    move_sent(
        &mut table[a..a + table::SENDS],
        attribute,
        registered,
        span,
        from,
    )
}

// The same of each stream.
fn move_kind(table: &mut [u8], p: usize, attribute: StreamAttribute, span: Span, from: Met) -> Met
    requires { KindGiven table.old p from }
    ensures { MovedKind span from (kind_of attribute) p table.old result table.new }
{
    let mut so_far = from;
    for k in 0..table::count(table) {
        so_far = move_stream(table, k, p, attribute, span, so_far);
    }
    so_far
}

// What the port sends by itself: the Applicant of the Domain value in a slot, where there is one.
// A Domain value's Applicant has no values behind it and stands in other octets: after and counted are what streams' share with it.
fn move_slot(sender: &mut [u8], slot: usize, registered: bool, span: Span, from: Met) -> Met
    requires { SenderGiven sender.old slot from }
    ensures { MovedSender span from registered slot sender.old result sender.new }
{
    let at = APPLICANTS + slot;
    let state = Applicant::from(sender[at]);
    if state.is_none() {
        return from;
    }
    let next = after(state, registered, span, from.count);
    sender[at] = next as u8;
    counted(from, span, next)
}

// The machine that port p has for the Domain value in a slot.
fn move_domain(table: &mut [u8], p: usize, slot: usize, span: Span, from: Met) -> Met
    requires { SlotGiven table.old p slot from }
    ensures { MovedSlot span from p slot table.old result table.new }
{
    let value = table::slot_in(table, p, slot);
    let registered = domains::is_registered(&table[value..value + table::SLOT]);
    let a = table::sender_in(table, p);
    move_slot(
        &mut table[a..a + table::SENDER],
        slot,
        registered,
        span,
        from,
    )
}

// The same of each slot.
fn move_domains(table: &mut [u8], p: usize, span: Span, from: Met) -> Met
    requires { DomainsGiven table.old p from }
    ensures { MovedDomains span from p table.old result table.new }
{
    let mut so_far = from;
    for slot in 0..table::SLOTS {
        so_far = move_domain(table, p, slot, span, so_far);
    }
    so_far
}

// LeaveAll was sent: the LeaveAll machine is passive, and its timer goes on.
fn sent_all(sender: &mut [u8])
    requires { LaidSender sender.old × (length sender.old ≡ sender_size) }
    ensures { (clock : ℕ) → sender.new ≡ sender_octets (all_sent clock (to_sender sender.old)) }
{
    octets::put(sender, LEAVE_ALL, 1, 0);
}

// Registrar txLA!: Talkers, Listeners and Domain values of the port begin to leave.
fn leave_own(table: &mut [u8], p: usize)
    requires { PortIn table.old p }
    ensures { Walked true p (own_leave_all true) table.old true table.new }
{
    registrar::leave_all(
        table,
        p,
        StreamAttribute::Talker(TalkerAttribute::Advertise),
    );
    registrar::leave_all(table, p, StreamAttribute::Talker(TalkerAttribute::Failed));
    registrar::leave_all(table, p, StreamAttribute::Listener);
    registrar::leave_domains(table, p);
}

// What a write with LeaveAll does beside: its port's LeaveAll machine is passive, and its registrations begin to leave.
fn leave_all(table: &mut [u8], p: usize, all: bool)
    requires { PortIn table.old p }
    ensures { Encodes (leave_all_sent all p (decode table.old)) table.new }
{
    if all {
        let a = table::sender_in(table, p);
        sent_all(&mut table[a..a + table::SENDER]);
        leave_own(table, p);
    }
}

// The machines of the streams: those of Advertise, of Failed, of Listener.
fn move_streams(table: &mut [u8], p: usize, span: Span) -> Met
    requires { PortIn table.old p }
    ensures { MovedTypes span p table.old result table.new }
{
    let none = Met { count: 0, left: 0 };
    let advertise = StreamAttribute::Talker(TalkerAttribute::Advertise);
    let failed = StreamAttribute::Talker(TalkerAttribute::Failed);
    let advertises = move_kind(table, p, advertise, span, none);
    let faileds = move_kind(table, p, failed, span, advertises);
    move_kind(table, p, StreamAttribute::Listener, span, faileds)
}

// What a write of port p does to the table; the next place.
pub fn move_list(table: &mut [u8], p: usize, span: Span) -> usize
    requires { PortIn table.old p }
    ensures { ListMoved span p table.old result table.new }
{
    let streams = move_streams(table, p, span);
    let met = move_domains(table, p, span, streams);
    leave_all(table, p, span.all);
    table::drop_unheld(table);
    met.left
}
