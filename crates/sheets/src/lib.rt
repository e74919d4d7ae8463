// The printed sheet (01): all that srpsheet prints, put into octets that the caller lends, of all that it reads. None of the public
// functions asks anything of its arguments: what does not fit is left out.
#![tactic(auto)]

ghost use Rattle.std.specs.Prelude.{◌≡◌, ◌≤◌, length};
ghost use Rattle.console.specs.Texts.{Puts};
ghost use Rattle.model.specs.Layout.{table_length};
ghost use Rattle.model.specs.Table.{ports_field};
ghost use Rattle.model.specs.Calls.{report_on};
ghost use Rattle.sheets.specs.Lines.{class_text, classes_text, port_text, port_line, stream_text, stream_line, refused_line, stop_line};
ghost use Rattle.sheets.specs.Records.{settings_length, frame_of, time_of, record_of, answer_text};
ghost use Rattle.sheets.specs.Sheet.{port_lines, stream_on_ports, stream_lines, report_lines, text_octets};
ghost use Rattle.sheets.specs.Promises.{Took, CalledAll, Printed};

use console::Text;
use model::refusal::{self, Refusal};
use reports::{ClassShown, PortShown};

// Octets of a text: no sheet of an input of 65,536 octets is longer.
pub const TEXT: usize = 16 * 65536;

// Zeros, for a text and for a table. As of `io::large_buffer` the promise gives only the length, which lending the array as a slice
// needs.
pub fn blank_text() -> [u8; TEXT]
    ensures { text_octets ≡ length result }
{
    [0; TEXT]
}

pub fn blank_table() -> [u8; bridge::TABLE]
    ensures { table_length ≡ length result }
{
    [0; bridge::TABLE]
}

// A class in the line of a port: its name, what is reserved and the limit.
fn put_class(text: &mut Text<'_>, name: &[u8], class: ClassShown)
    ensures { Puts text.old (class_text name.now class.total class.limit) text.new }
{
    text.put(name);
    text.put_decimal(class.total);
    text.put(b"/");
    text.put_decimal(class.limit);
}

// Both classes of a port, and the line's end.
fn put_classes(text: &mut Text<'_>, port: PortShown)
    ensures { Puts text.old (classes_text port.a.total port.a.limit port.b.total port.b.limit) text.new }
{
    put_class(text, b" A ", port.a);
    put_class(text, b" B ", port.b);
    text.put(b"\n");
}

fn put_port_number(text: &mut Text<'_>, port: u32)
    ensures { Puts text.old (port_text port) text.new }
{
    text.put(b"port");
    text.put_number(port as u64);
}

// The line of a port, by its report.
pub fn put_port(text: &mut Text<'_>, table: &[u8], port: u32)
    ensures { Puts text.old (port_line port (report_on table.now port 0)) text.new }
{
    let report = bridge::report(table, port, 0).unwrap_or_default();
    put_port_number(text, port);
    put_classes(text, report.port);
}

fn put_stream_number(text: &mut Text<'_>, id: u64, port: u32)
    ensures { Puts text.old (stream_text id port) text.new }
{
    text.put_id(id);
    text.put_number(port as u64);
}

// The line of the stream at a place on a port, by its report.
pub fn put_stream(text: &mut Text<'_>, table: &[u8], port: u32, place: u32)
    ensures { Puts text.old (stream_line port (report_on table.now port place)) text.new }
{
    let stream = bridge::report(table, port, place)
        .unwrap_or_default()
        .stream;
    put_stream_number(text, stream.id, port);
    console::put_shown(text, stream);
    text.put(b"\n");
}

fn put_refused(text: &mut Text<'_>, number: u8)
    ensures { Puts text.old (refused_line number) text.new }
{
    text.put(b"refused");
    text.put_number(number as u64);
    text.put(b"\n");
}

// The line of a call that was refused, by the number that it gave back; nothing for one that was not.
pub fn put_answer(text: &mut Text<'_>, number: u8)
    ensures { Puts text.old (answer_text number) text.new }
{
    if number != 0 {
        put_refused(text, number);
    }
}

#[tactic(auto, unfolding(crate::specs::Lines::stop_line))]
pub fn put_stop(text: &mut Text<'_>)
    ensures { Puts text.old stop_line text.new }
{
    text.put(b"stop\n");
}

// The settings' ports field, 0 where they end before it.
pub fn ports_field(input: &[u8]) -> u32
    ensures { (result ≡ ports_field input.now) × (result ≤ 15) }
{
    if input.len() <= bridge::PORTS_FIELD {
        return 0;
    }
    (input[bridge::PORTS_FIELD] / 16) as u32
}

// The octets of the settings: as many as their ports field says, or what there is.
pub fn settings_length(input: &[u8]) -> usize
    ensures { (result ≡ settings_length input.now) × (result ≤ length input.now) }
{
    let asked = bridge::SETTINGS + bridge::PORT_SETTINGS * ports_field(input) as usize;
    asked.min(input.len())
}

// What a record did: the call's answer, and the record's octets.
#[derive(Clone, Copy)]
pub struct Done {
    pub answer: Result<(), Refusal>,
    pub size: usize,
}

// The record of a PDU: port in the first octet, 16-bit length, octets. None where it is cut.
fn receive(table: &mut [u8], rest: &[u8]) -> Option<Done>
    ensures { Took table.old (frame_of rest.now) (length rest.now) result table.new }
{
    if rest.len() < 3 {
        return None;
    }
    let size = 3 + octets::get(rest, 1, 2) as usize;
    if rest.len() < size {
        return None;
    }
    let port = (rest[0] % 16) as u32;
    let answer = bridge::receive(table, port, &rest[3..size]);
    Some(Done { answer, size })
}

// The record of a time: 32 bits behind the first octet. None where it is cut.
fn advance(table: &mut [u8], rest: &[u8]) -> Option<Done>
    ensures { Took table.old (time_of rest.now) (length rest.now) result table.new }
{
    if rest.len() < 5 {
        return None;
    }
    let time = octets::get(rest, 1, 4) as u32;
    let answer = bridge::advance(table, time);
    Some(Done { answer, size: 5 })
}

// Makes the call of the record in front. None where that ends the reading.
fn call(table: &mut [u8], rest: &[u8]) -> Option<Done>
    requires { 1 ≤ length rest.now }
    ensures { Took table.old (record_of rest.now) (length rest.now) result table.new }
{
    match rest[0] {
        0x10..=0x1F => receive(table, rest),
        0x20 => advance(table, rest),
        _ => None,
    }
}

// Makes the calls of the records one after another, and puts the lines of those that are refused, and of what ends the reading.
pub fn call_all(table: &mut [u8], records: &[u8], text: &mut Text<'_>)
    ensures { CalledAll table.old records.now text.old table.new text.new }
{
    let mut rest = records;
    while !rest.is_empty() {
        let Some(done) = call(table, rest) else {
            return put_stop(text);
        };
        put_answer(text, refusal::number(done.answer));
        rest = &rest[done.size..];
    }
}

// The lines of all ports.
// The three loops stay apart, a line each: one of all would take a closure over the text and two parameters more.
pub fn put_ports(text: &mut Text<'_>, table: &[u8], ports: u32)
    ensures { Puts text.old (port_lines table.now ports) text.new }
{
    for p in 0..ports {
        put_port(text, table, p + 1);
    }
}

// The lines of the stream at a place, one for each port.
fn put_stream_on_ports(text: &mut Text<'_>, table: &[u8], ports: u32, place: u32)
    ensures { Puts text.old (stream_on_ports table.now ports place) text.new }
{
    for p in 0..ports {
        put_stream(text, table, p + 1, place);
    }
}

// The streams that a bridge holds.
fn stream_count(table: &[u8]) -> u32
    ensures { result ≡ (report_on table.now 1 0).count }
{
    bridge::report(table, 1, 0).unwrap_or_default().count as u32
}

// The lines of all streams.
pub fn put_streams(text: &mut Text<'_>, table: &[u8], ports: u32)
    ensures { Puts text.old (stream_lines table.now ports) text.new }
{
    for place in 0..stream_count(table) {
        put_stream_on_ports(text, table, ports, place);
    }
}

// The lines of all ports, then those of all streams.
pub fn put_report(text: &mut Text<'_>, table: &[u8], ports: u32)
    ensures { Puts text.old (report_lines table.now ports) text.new }
{
    put_ports(text, table, ports);
    put_streams(text, table, ports);
}

// The sheet of an input, by calls on a table, put into octets: where it ends.
pub fn put_sheet(table: &mut [u8], input: &[u8], octets: &mut [u8]) -> usize
    ensures { Printed table.old input.now octets.old result table.new octets.new }
{
    let mut text = Text::new(octets);
    let (settings, records) = input.split_at(settings_length(input));
    if bridge::start(table, settings).is_err() {
        put_stop(&mut text);
        return text.len();
    }
    call_all(table, records, &mut text);
    put_report(&mut text, table, ports_field(input));
    text.len()
}
