// The seven calls for programs in C and Rust (include/srp.h, docs/EMBEDDING.md): crate bridge's, under names of their own. A slice
// passes as a pointer and a length; what a call answers beside its number goes to where the caller points. None asks anything of
// its arguments, and each promises what the call below it promises.
#![tactic(auto)]

ghost use Rattle.bridge.specs.Promises.{Starts, Receives, ReceivesMmrp, Advances, Writes};
ghost use Rattle.embed.specs.Boundary.{Told, Explained};

use model::refusal;

// The parts of a report beside its number.
pub const PARTS: usize = 10;

// The parts of a why beside its number.
pub const WHY_PARTS: usize = 4;

#[unsafe(no_mangle)]
pub extern "C" fn srp_start(table: &mut [u8], settings: &[u8]) -> u8
    ensures { Starts table.old settings.now result table.new }
{
    refusal::number(bridge::start(table, settings))
}

#[unsafe(no_mangle)]
pub extern "C" fn srp_receive(table: &mut [u8], port: u32, pdu: &[u8]) -> u8
    ensures { Receives table.old port pdu.now result table.new }
{
    refusal::number(bridge::receive(table, port, pdu))
}

#[unsafe(no_mangle)]
pub extern "C" fn srp_receive_mmrp(table: &mut [u8], port: u32, pdu: &[u8]) -> u8
    ensures { ReceivesMmrp table.old port pdu.now result table.new }
{
    refusal::number(bridge::receive_mmrp(table, port, pdu))
}

#[unsafe(no_mangle)]
pub extern "C" fn srp_advance(table: &mut [u8], time: u32) -> u8
    ensures { Advances table.old time result table.new }
{
    refusal::number(bridge::advance(table, time))
}

#[unsafe(no_mangle)]
pub extern "C" fn srp_write(
    table: &mut [u8],
    port: u32,
    place: u32,
    buffer: &mut [u8],
    length: &mut usize,
    next: &mut usize,
) -> u8
    ensures { Writes table.old port place buffer.old result length.new next.new buffer.new table.new }
{
    match bridge::write(table, port, place, buffer) {
        Ok(wrote) => {
            *length = wrote.length;
            *next = wrote.next;
            0
        }
        Err(refusal) => {
            *length = 0;
            *next = 0;
            refusal.into()
        }
    }
}

// The parts stand in the order of srp.h's struct srp_reported.
#[unsafe(no_mangle)]
pub extern "C" fn srp_report(table: &[u8], port: u32, place: u32, reported: &mut [u64; PARTS]) -> u8
    ensures { Told table.now port place result reported.new }
{
    match bridge::report(table, port, place) {
        Ok(report) => {
            let a = report.port.a;
            let b = report.port.b;
            let stream = report.stream;
            *reported = [
                report.count as u64,
                a.total,
                a.limit,
                b.total,
                b.limit,
                stream.id,
                stream.column as u64,
                stream.code as u64,
                stream.listener as u64,
                stream.entry as u64,
            ];
            0
        }
        Err(refusal) => {
            *reported = [0; PARTS];
            refusal.into()
        }
    }
}

// The parts stand in the order of srp.h's struct srp_explained.
#[unsafe(no_mangle)]
pub extern "C" fn srp_why(
    table: &[u8],
    id: u64,
    port: u32,
    buffer: &mut [u8],
    explained: &mut [u64; WHY_PARTS],
) -> u8
    ensures { Explained table.now id port buffer.old result explained.new buffer.new }
{
    match bridge::why(table, id, port, buffer) {
        Ok(why) => {
            *explained = [
                why::letter(Some(why.step)) as u64,
                why.count as u64,
                why.limit,
                why.shortfall,
            ];
            0
        }
        Err(refusal) => {
            *explained = [0; WHY_PARTS];
            refusal.into()
        }
    }
}
