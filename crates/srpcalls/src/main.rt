// A console for the seven calls. Reads call records from standard input to its end, and prints one line for each call. Numbers in
// records are most significant octet first. The table is zeros at the beginning, so calls before a start are answered with 12.
#![tactic(auto)]

ghost use Rattle.std.specs.Prelude.{◌≤◌, length, ◌≡◌, IfOk};
ghost use Rattle.model.specs.Layout.{table_length};
ghost use Rattle.srpcalls.specs.Room.{room_octets, space_octets};

use console::Text;
use model::refusal::{self, Refusal};
use std::io::Read;

// The room for the table.
const ROOM: usize = bridge::TABLE + 64;

// Settings and PDUs are handed to a call up to this length.
const LONGEST: usize = 4096;

// The space for what is read and what is printed: words and numbers, and two digits for each octet of the room. No line is longer,
// and no octets that are handed over.
const SPACE: usize = 256 + 2 * ROOM;

// How a run ends: with `stop`, at a cut record or an octet that begins none; or without a word, where input or output ends.
#[derive(Drop)]
enum Ending {
    Stop,
    End,
}

// Zeros for both. The promises give only the length, which lending an array as a slice needs.
fn blank_room() -> [u8; ROOM]
    ensures { room_octets ≡ length result }
{
    [0; ROOM]
}

fn blank_space() -> [u8; SPACE]
    ensures { space_octets ≡ length result }
{
    [0; SPACE]
}

// Fills octets from the input, all of them. A read that fails counts as the end of the input.
fn fill(rt: &HostRuntime, octets: &mut [u8]) -> Result<(), Ending> {
    rt.stdin().read_exact(octets).map_err(|_| Ending::Stop)
}

// A field of a record, or all of its fields: each call reads from the system, so the fields of a record are read in one.
fn field<const N: usize>(rt: &HostRuntime) -> Result<[u8; N], Ending> {
    let mut octets = [0u8; N];
    fill(rt, &mut octets)?;
    Ok(octets)
}

// A field of 16 bits.
fn short(rt: &HostRuntime) -> Result<u16, Ending> {
    Ok(u16::from_be_bytes(field(rt)?))
}

// Ends the line and writes it.
fn print(rt: &HostRuntime, line: &mut Text<'_>) -> Result<(), Ending> {
    line.put(b"\n");
    rt.write_all(line.octets()).map_err(|_| Ending::End)
}

// Prints the line of a call that answers with a number alone.
fn print_number(
    rt: &HostRuntime,
    space: &mut [u8],
    call: &[u8],
    answer: Result<(), Refusal>,
) -> Result<(), Ending> {
    let mut line = Text::new(space);
    answers::put_numbers(&mut line, call, &[refusal::number(answer) as u64]);
    print(rt, &mut line)
}

// A call that is handed octets in the space: settings, or a PDU of MSRP or of MMRP that arrived on a port.
// The space comes whole with a length, since the line of the answer is put into it as well.
fn call_handed(
    rt: &HostRuntime,
    table: &mut [u8],
    kind: u8,
    space: &mut [u8],
    n: usize,
) -> Result<(), Ending>
    requires { n ≤ length space.old }
{
    let port = (kind % 16) as u32;
    match kind {
        0x00 => {
            let answer = bridge::start(table, &space[..n]);
            print_number(rt, space, b"start", answer)
        }
        0x10..=0x1F => {
            let answer = bridge::receive(table, port, &space[..n]);
            print_number(rt, space, b"receive", answer)
        }
        _ => {
            let answer = bridge::receive_mmrp(table, port, &space[..n]);
            print_number(rt, space, b"mmrp", answer)
        }
    }
}

// Reads a length and so many octets, all of them, and hands over no more than the longest.
fn hand(rt: &HostRuntime, table: &mut [u8], kind: u8, space: &mut [u8]) -> Result<(), Ending>
    requires { 65535 ≤ length space.old }
{
    let n = short(rt)? as usize;
    fill(rt, &mut space[..n])?;
    call_handed(rt, table, kind, space, n.min(LONGEST))
}

fn advance(rt: &HostRuntime, table: &mut [u8], space: &mut [u8]) -> Result<(), Ending> {
    let time = u32::from_be_bytes(field(rt)?);
    let answer = bridge::advance(table, time);
    print_number(rt, space, b"advance", answer)
}

// A write to a filled buffer of the length asked for, and its line.
fn write(rt: &HostRuntime, table: &mut [u8], port: u32, space: &mut [u8]) -> Result<(), Ending> {
    let rest = field::<4>(rt)?;
    let place = octets::get(&rest, 0, 2) as u32;
    let asked = octets::get(&rest, 2, 2) as usize;
    let mut filled = answers::filled();
    let buffer = &mut filled[..asked.min(answers::BUFFER)];
    let answer = bridge::write(table, port, place, buffer);
    let mut line = Text::new(space);
    answers::put_written(&mut line, answer, buffer);
    print(rt, &mut line)
}

fn report(rt: &HostRuntime, table: &[u8], port: u32, space: &mut [u8]) -> Result<(), Ending> {
    let place = short(rt)? as u32;
    let mut line = Text::new(space);
    answers::put_reported(&mut line, bridge::report(table, port, place));
    print(rt, &mut line)
}

// A why with a filled buffer of the length asked for, and its line.
fn explain(rt: &HostRuntime, table: &[u8], port: u32, space: &mut [u8]) -> Result<(), Ending> {
    let rest = field::<10>(rt)?;
    let id = octets::get(&rest, 0, 8);
    let asked = octets::get(&rest, 8, 2) as usize;
    let mut filled = answers::filled();
    let buffer = &mut filled[..asked.min(answers::BUFFER)];
    let answer = bridge::why(table, id, port, buffer);
    let mut line = Text::new(space);
    answers::put_explained(&mut line, answer, buffer);
    print(rt, &mut line)
}

// Stores an octet in the table's room; past it nothing happens.
fn store(rt: &HostRuntime, room: &mut [u8]) -> Result<(), Ending> {
    let rest = field::<3>(rt)?;
    let at = octets::get(&rest, 0, 2) as usize;
    if at < room.len() {
        room[at] = rest[2];
    }
    Ok(())
}

fn print_sum(rt: &HostRuntime, table: &[u8], space: &mut [u8]) -> Result<(), Ending> {
    let mut line = Text::new(space);
    answers::put_sum(&mut line, table);
    print(rt, &mut line)
}

fn print_octets(rt: &HostRuntime, table: &[u8], space: &mut [u8]) -> Result<(), Ending> {
    let mut line = Text::new(space);
    answers::put_octets(&mut line, b"octets", table);
    print(rt, &mut line)
}

// A record that only looks at the table.
fn look(rt: &HostRuntime, table: &[u8], kind: u8, space: &mut [u8]) -> Result<(), Ending> {
    let port = (kind % 16) as u32;
    match kind {
        0x40..=0x4F => report(rt, table, port, space),
        0x60 => print_sum(rt, table, space),
        0x61 => print_octets(rt, table, space),
        0x80..=0x8F => explain(rt, table, port, space),
        _ => Err(Ending::Stop),
    }
}

// A record of the octets that calls are lent. The low digit of its first octet is the port.
fn call(rt: &HostRuntime, table: &mut [u8], kind: u8, space: &mut [u8]) -> Result<(), Ending>
    requires { 65535 ≤ length space.old }
{
    match kind {
        0x00 | 0x10..=0x1F | 0x70..=0x7F => hand(rt, table, kind, space),
        0x20 => advance(rt, table, space),
        0x30..=0x3F => write(rt, table, (kind % 16) as u32, space),
        _ => look(rt, table, kind, space),
    }
}

// Reads a record and does what it says: how many octets of the room calls are lent from then on.
// The room comes whole with a length: octets are stored past what is lent, and more may be lent again.
fn take_record(
    rt: &HostRuntime,
    room: &mut [u8],
    lent: usize,
    space: &mut [u8],
) -> Result<usize, Ending>
    requires { (lent ≤ length room.old) × (65535 ≤ length space.old) }
    ensures { IfOk result (λ n. n ≤ length room.new) }
{
    let [kind] = field::<1>(rt).map_err(|_| Ending::End)?;
    match kind {
        0x50 => store(rt, room)?,
        0x51 => return Ok((short(rt)? as usize).min(room.len())),
        _ => call(rt, &mut room[..lent], kind, space)?,
    }
    Ok(lent)
}

// A proved loop has to end, and nothing says that an input does. So the loop counts its turns, to a number that no run reaches.
fn run(rt: &HostRuntime, room: &mut [u8], space: &mut [u8])
    requires { (table_length ≤ length room.old) × (65535 ≤ length space.old) }
{
    let mut lent = bridge::TABLE;
    for _ in 0..u64::MAX {
        match take_record(rt, room, lent, space) {
            Ok(n) => {
                lent = n;
            }
            Err(Ending::Stop) => {
                let mut line = Text::new(space);
                line.put(b"stop");
                let _ = print(rt, &mut line);
                return;
            }
            Err(Ending::End) => {
                return;
            }
        }
    }
}

fn main(rt: HostRuntime) {
    let mut room = blank_room();
    let mut space = blank_space();
    run(&rt, &mut room, &mut space);
}
