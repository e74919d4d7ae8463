// The exports of crate embed's seven calls, in a static library for programs in C and Rust (include/srp.h): a library of crates exports
// nothing itself. Each promises what embed's promises, in the same words.
#![tactic(auto)]

ghost use Rattle.bridge.specs.Promises.{Starts, Receives, ReceivesMmrp, Advances, Writes};
ghost use Rattle.embed.specs.Boundary.{Told, Explained};

use embed::{PARTS, WHY_PARTS};

#[unsafe(no_mangle)]
pub extern "C" fn srp_start(table: &mut [u8], settings: &[u8]) -> u8
    ensures { Starts table.old settings.now result table.new }
{
    embed::srp_start(table, settings)
}

#[unsafe(no_mangle)]
pub extern "C" fn srp_receive(table: &mut [u8], port: u32, pdu: &[u8]) -> u8
    ensures { Receives table.old port pdu.now result table.new }
{
    embed::srp_receive(table, port, pdu)
}

#[unsafe(no_mangle)]
pub extern "C" fn srp_receive_mmrp(table: &mut [u8], port: u32, pdu: &[u8]) -> u8
    ensures { ReceivesMmrp table.old port pdu.now result table.new }
{
    embed::srp_receive_mmrp(table, port, pdu)
}

#[unsafe(no_mangle)]
pub extern "C" fn srp_advance(table: &mut [u8], time: u32) -> u8
    ensures { Advances table.old time result table.new }
{
    embed::srp_advance(table, time)
}

#[unsafe(no_mangle)]
pub extern "C" fn srp_write(
    table: &mut [u8],
    port: u32,
    place: u32,
    buffer: &mut [u8],
    length: &mut usize,
    next: &mut usize,
) -> u8
    ensures { Writes table.old port place buffer.old result length.new next.new buffer.new table.new }
{
    embed::srp_write(table, port, place, buffer, length, next)
}

#[unsafe(no_mangle)]
pub extern "C" fn srp_report(table: &[u8], port: u32, place: u32, reported: &mut [u64; PARTS]) -> u8
    ensures { Told table.now port place result reported.new }
{
    embed::srp_report(table, port, place, reported)
}

#[unsafe(no_mangle)]
pub extern "C" fn srp_why(
    table: &[u8],
    id: u64,
    port: u32,
    buffer: &mut [u8],
    explained: &mut [u64; WHY_PARTS],
) -> u8
    ensures { Explained table.now id port buffer.old result explained.new buffer.new }
{
    embed::srp_why(table, id, port, buffer, explained)
}
