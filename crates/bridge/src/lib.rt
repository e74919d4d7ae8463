// The bridge: seven calls on a table that the caller lends (docs/TABLE.md). None asks anything of its arguments. For every input
// each promises the one number, the one content of the table and of the buffer: those of crate model's `Calls`, by the relations
// of specs/Promises.
#![tactic(auto)]

ghost use Rattle.std.specs.Prelude.{◌≡◌, ◌<◌, ◌≤◌, length, MatchResult};
ghost use Rattle.model.specs.Layout.{sender_size, slots};
ghost use Rattle.model.specs.Lists.{tabulate};
ghost use Rattle.model.specs.State.{port_at, supports};
ghost use Rattle.model.specs.Registrations.{sending};
ghost use Rattle.model.specs.Sending.{sender_octets, to_sender};
ghost use Rattle.model.specs.Table.{encode, decode};
ghost use Rattle.model.specs.Laid.{LaidSender, Laid};
ghost use Rattle.model.specs.Numbers.{refusal_number, answer_number};
ghost use Rattle.table.specs.Places.{PortIn};
ghost use Rattle.table.specs.Updates.{with_sender};
ghost use Rattle.streams.specs.Answers.{named};
ghost use Rattle.bridge.specs.Joining.{joined_slot, joined_if, joined_own, joined_at};
ghost use Rattle.reports.specs.Shown.{answered};
ghost use Rattle.bridge.specs.Promises.{Starts, port_refusal, PortFound, Receives, ReceivesMmrp, Advances, length_of, next_of, Writes, Reports, Explains};
ghost use Rattle.why.specs.Shown.{why_answered};

use applicants::Applicant;
use model::pdu;
use model::refusal::Refusal;
use moving::Span;
use reports::Reported;
use streams::Class;
use why::Why;

// Octets of a table.
pub const TABLE: usize = table::LENGTH;

// In settings: the place of the octet that begins with the ports field; the octets before the first port's, and of each port's.
pub const PORTS_FIELD: usize = table::HEAD;

pub const SETTINGS: usize = table::PORTS;

pub const PORT_SETTINGS: usize = table::PORT;

// Octets that all that why may list takes.
pub const LIST: usize = 63 * 16;

// Join! of the Domain value in a slot, by what a port sends by itself: VP.
fn join_slot(sender: &mut [u8], slot: usize)
    requires { LaidSender sender.old × (length sender.old ≡ sender_size) × (slot < slots) }
    ensures { sender.new ≡ sender_octets (joined_slot slot (to_sender sender.old)) }
{
    sender[slot] = Applicant::Vp as u8;
}

// The same at place p, where the port supports the value's class.
fn join_class(table: &mut [u8], p: usize, class: Class, slot: usize)
    requires { PortIn table.old p × (slot < slots) }
    ensures { table.new ≡ encode (with_sender p (joined_if (supports (port_at (decode table.old).settings p) (named class)) slot)
        (decode table.old)) }
{
    if columns::supports(table::port_at(table, p), Some(class)) {
        let a = table::sender_in(table, p);
        join_slot(&mut table[a..a + table::SENDER], slot);
    }
}

// The Domain values of both classes; class ID 5 stands before 6.
fn join_domains(table: &mut [u8], p: usize)
    requires { PortIn table.old p }
    ensures { table.new ≡ encode (with_sender p (joined_own (decode table.old).settings p) (decode table.old)) }
{
    let a = table::priority_a(table) as usize;
    let b = table::priority_b(table) as usize;
    join_class(table, p, Class::B, b);
    join_class(table, p, Class::A, 8 + a);
}

// The same at each place.
fn join_all(table: &mut [u8])
    requires { Laid table.old }
    ensures { table.new ≡ encode (sending (decode table.old)
        (tabulate 8 0 (joined_at (decode table.old).settings (decode table.old).senders))) }
{
    for place in 0..8 {
        join_domains(table, place);
    }
}

// Starts a bridge with these settings: no streams, clock 0, the Domain values of each port declared. It looks at the table's length only.
pub fn start(table: &mut [u8], settings: &[u8]) -> Result<(), Refusal>
    ensures { Starts table.old settings.now (answer_number result) table.new }
{
    if table.len() != TABLE {
        return Err(Refusal::Table);
    }
    if !form::settings_formed(settings) {
        return Err(Refusal::Settings);
    }
    octets::clear(table, 0, TABLE);
    table[..settings.len()].copy_from_slice(settings);
    join_all(table);
    Ok(())
}

// The place of a port, numbered from 1, of a table that keeps the form rules: what each call with a port tests first.
fn port_place(table: &[u8], port: u32) -> Result<usize, Refusal>
    ensures { MatchResult result (PortFound table.now port) (λ refusal. refusal_number refusal ≡ port_refusal table.now port) }
{
    if !form::is_formed(table) {
        return Err(Refusal::Table);
    }
    if port == 0 || table::ports(table) < port as usize {
        return Err(Refusal::Port);
    }
    Ok(port as usize - 1)
}

// Takes a PDU that arrived on a port, numbered from 1: refused by number, or all of its events applied.
pub fn receive(table: &mut [u8], port: u32, pdu: &[u8]) -> Result<(), Refusal>
    ensures { Receives table.old port pdu.now (answer_number result) table.new }
{
    let p = port_place(table, port)?;
    msrpdu::check(pdu)?;
    if !registrar::receive_frame(table, p, pdu) {
        return Err(Refusal::Streams);
    }
    Ok(())
}

// Takes an MMRP PDU that arrived on a port, numbered from 1: refused by number, or all of its events applied to the addresses that
// the port holds.
pub fn receive_mmrp(table: &mut [u8], port: u32, pdu: &[u8]) -> Result<(), Refusal>
    ensures { ReceivesMmrp table.old port pdu.now (answer_number result) table.new }
{
    let p = port_place(table, port)?;
    mmrpdu::check(pdu)?;
    let clock = table::clock(table);
    let a = table::own_in(table, p);
    if !mmrp::receive_frame(&mut table[a..a + table::OWN], clock, pdu) {
        return Err(Refusal::Addresses);
    }
    Ok(())
}

// Sets the clock, removes what has left, and decides every column, entry, Listener and total.
pub fn advance(table: &mut [u8], time: u32) -> Result<(), Refusal>
    ensures { Advances table.old time (answer_number result) table.new }
{
    if !form::is_formed(table) {
        return Err(Refusal::Table);
    }
    if time < table::clock(table) {
        return Err(Refusal::Time);
    }
    settling::settle(table, time);
    Ok(())
}

// Whether a buffer has so many octets at least.
fn long_enough(buffer: &[u8], least: usize) -> Result<(), Refusal>
    ensures { MatchResult result (λ _. least ≤ length buffer.now)
        (λ refusal. (refusal_number refusal ≡ 10) × (length buffer.now < least)) }
{
    if buffer.len() < least {
        return Err(Refusal::Buffer);
    }
    Ok(())
}

// What an accepted write answers: the PDU's length, and the next place.
#[derive(Clone, Copy, Default)]
pub struct Wrote {
    pub length: usize,
    pub next: usize,
}

// Writes a PDU of a port's declarations, from a place on, and moves the machines of what it says. Octets of the buffer past its length
// stay.
pub fn write(table: &mut [u8], port: u32, place: u32, buffer: &mut [u8]) -> Result<Wrote, Refusal>
    ensures { Writes table.old port place buffer.old (answer_number result) (length_of result) (next_of result) buffer.new table.new }
{
    let p = port_place(table, port)?;
    long_enough(buffer, pdu::LONGEST)?;
    let from = place as usize;
    if declarations::count_declarations(table, p) < from {
        return Err(Refusal::Place);
    }
    let pdu = declarations::write_pdu(table, p, from, buffer);
    let span = Span {
        place: from,
        end: pdu.end,
        all: pdu.all,
    };
    let next = moving::move_list(table, p, span);
    Ok(Wrote {
        length: pdu.length,
        next,
    })
}

// Reports the streams held, a port's class totals and limits, and the stream at a place as the last advance settled it there.
pub fn report(table: &[u8], port: u32, place: u32) -> Result<Reported, Refusal>
    ensures { Reports table.now port place (answered result) }
{
    let p = port_place(table, port)?;
    if table::count(table) < place as usize {
        return Err(Refusal::Place);
    }
    Ok(reports::report_at(table, p, place as usize))
}

// Tells why a stream has the column that an advance to the held clock would give it on a port; what more important streams reserve
// stands in the buffer where step h decides. Octets of the buffer past the list stay.
pub fn why(table: &[u8], id: u64, port: u32, buffer: &mut [u8]) -> Result<Why, Refusal>
    ensures { Explains table.now id port buffer.old (why_answered result buffer.new) }
{
    let p = port_place(table, port)?;
    let Ok(k) = table::find(table, id) else {
        return Err(Refusal::Stream);
    };
    long_enough(buffer, LIST)?;
    Ok(why::explain(table, k, p, buffer))
}
