// The MAC addresses registered on a port (02, vi), among what the port holds by itself: found, put in and taken out, left, and
// expired (docs/TABLE.md, "What a port holds").
#![tactic(auto)]

ghost use Rattle.std.specs.Prelude.{◌≡◌, cond, map, ◌<◌, ◌≤◌, length, leb};
ghost use Rattle.model.specs.Layout.{most_addresses, address_size, own_size};
ghost use Rattle.model.specs.State.{Settings};
ghost use Rattle.model.specs.Registrations.{change_addresses, joined_address, macs, quit_address, with_joined, with_left};
ghost use Rattle.model.specs.Settling.{holds_address, remain_addresses};
ghost use Rattle.model.specs.Table.{address_octets, to_address, own_octets, to_own};
ghost use Rattle.model.specs.Laid.{LaidAddress, LaidOwn};
ghost use Rattle.table.specs.Find.{found_at};
ghost use Rattle.addresses.specs.Held.{AddressIn, HeldGiven, RoomAt};
ghost use Rattle.addresses.specs.Room.{present_only, lapse_address, put_in, taken_out, with_room};

use table::address::{LEAVES, MAC, REGISTERED};
use table::{ADDRESS, ADDRESSES, ADDRESSES_HELD, MOST_ADDRESSES};

// The octets of a record before its address: registered, leaving, since.
const PRESENCE: usize = MAC;

// The number of addresses held.
fn count(own: &[u8]) -> usize
    requires { LaidOwn own.now × (length own.now ≡ own_size) }
    ensures { (result ≡ length (to_own own.now).addresses) × (result ≤ most_addresses) }
{
    own[ADDRESSES_HELD] as usize
}

// The place of an address, or where it would stand.
fn find(own: &[u8], mac: u64) -> Result<usize, usize>
    requires { LaidOwn own.now × (length own.now ≡ own_size) }
    ensures { result ≡ found_at mac 0 (macs (to_own own.now).addresses) }
{
    let held = count(own);
    for k in 0..held {
        let x = octets::get(own, ADDRESSES + k * ADDRESS + MAC, 6);
        if mac < x {
            return Err(k);
        }
        if mac == x {
            return Ok(k);
        }
    }
    Err(held)
}

// Whether the port holds an address, leaving ones included.
#[tactic(auto, using(crate::proofs::Searching::is_found))]
pub fn holds(own: &[u8], mac: u64) -> bool
    requires { LaidOwn own.now × (length own.now ≡ own_size) }
    ensures { result ≡ holds_address mac (to_own own.now).addresses }
{
    find(own, mac).is_ok()
}

// A vacant record for an address at place k: those from there on move up.
fn insert(own: &mut [u8], k: usize, mac: u64)
    requires { RoomAt own.old k }
    ensures { own.new ≡ own_octets (change_addresses (put_in k mac) (to_own own.old)) }
{
    let n = count(own);
    let at = ADDRESSES + k * ADDRESS;
    own.copy_within(at..ADDRESSES + n * ADDRESS, at + ADDRESS);
    octets::clear(own, at, ADDRESS);
    octets::put(own, at + MAC, 6, mac);
    octets::put(own, ADDRESSES_HELD, 1, (n + 1) as u64);
}

// The record at place k taken out: those behind it move down, with zeros in the freed room.
fn remove(own: &mut [u8], k: usize)
    requires { AddressIn own.old k }
    ensures { own.new ≡ own_octets (change_addresses (taken_out k) (to_own own.old)) }
{
    let last = count(own) - 1;
    let at = ADDRESSES + k * ADDRESS;
    let end = ADDRESSES + last * ADDRESS;
    own.copy_within(at + ADDRESS..end + ADDRESS, at);
    octets::clear(own, end, ADDRESS);
    octets::put(own, ADDRESSES_HELD, 1, last as u64);
}

// Room for an address: a vacant record at its place, unless it has one. False where there are 64 others.
pub fn enrol(own: &mut [u8], mac: u64) -> bool
    requires { LaidOwn own.old × (length own.old ≡ own_size) }
    ensures { (result ≡ leb (length (with_room mac (to_own own.old).addresses)) most_addresses)
        × (own.new ≡ cond result (own_octets (change_addresses (with_room mac) (to_own own.old))) own.old) }
{
    let Err(k) = find(own, mac) else {
        return true;
    };
    if count(own) == MOST_ADDRESSES {
        return false;
    }
    insert(own, k, mac);
    true
}

// A record of an address, registered and not leaving.
fn register(address: &mut [u8], mac: u64)
    requires { length address.old ≡ address_size }
    ensures { address.new ≡ address_octets (joined_address mac) }
{
    octets::clear(address, REGISTERED, ADDRESS);
    octets::put(address, REGISTERED, 1, 1);
    octets::put(address, MAC, 6, mac);
}

// A join of an address that has a record.
pub fn join(own: &mut [u8], mac: u64)
    requires { HeldGiven own.old mac }
    ensures { own.new ≡ own_octets (change_addresses (with_joined mac) (to_own own.old)) }
{
    let Ok(k) = find(own, mac) else {
        return;
    };
    let a = ADDRESSES + k * ADDRESS;
    register(&mut own[a..a + ADDRESS], mac);
}

// Lv or LeaveAll: the address of a record begins to leave, if it is registered.
fn quit(address: &mut [u8], clock: u32)
    requires { LaidAddress address.old × (length address.old ≡ address_size) }
    ensures { address.new ≡ address_octets (quit_address clock (to_address address.old)) }
{
    if 0 < address[REGISTERED] {
        cells::begin(address, LEAVES, clock);
    }
}

// LeaveAll: each address begins to leave.
// By place: of what as_chunks_mut lends a proof knows no element.
pub fn leave_all(own: &mut [u8], clock: u32)
    requires { LaidOwn own.old × (length own.old ≡ own_size) }
    ensures { own.new ≡ own_octets (change_addresses (map (quit_address clock)) (to_own own.old)) }
{
    for k in 0..count(own) {
        let a = ADDRESSES + k * ADDRESS;
        quit(&mut own[a..a + ADDRESS], clock);
    }
}

// Lv of an address, where it is held.
pub fn leave(own: &mut [u8], mac: u64, clock: u32)
    requires { LaidOwn own.old × (length own.old ≡ own_size) }
    ensures { own.new ≡ own_octets (change_addresses (with_left clock mac) (to_own own.old)) }
{
    let Ok(k) = find(own, mac) else {
        return;
    };
    let a = ADDRESSES + k * ADDRESS;
    quit(&mut own[a..a + ADDRESS], clock);
}

// Each address that has been leaving for at least the leave time made vacant.
// By place: of what as_chunks_mut lends a proof knows no element.
fn lapse_all(own: &mut [u8], leave: u32, time: u32)
    requires { LaidOwn own.old × (length own.old ≡ own_size) }
    ensures { own.new ≡ own_octets (change_addresses (map (lapse_address leave time)) (to_own own.old)) }
{
    for k in 0..count(own) {
        let a = ADDRESSES + k * ADDRESS;
        cells::lapse(
            &mut own[a..a + ADDRESS],
            REGISTERED,
            PRESENCE,
            LEAVES,
            leave,
            time,
        );
    }
}

// The vacant ones taken out, the last first.
pub fn drop_vacant(own: &mut [u8])
    requires { LaidOwn own.old × (length own.old ≡ own_size) }
    ensures { own.new ≡ own_octets (change_addresses present_only (to_own own.old)) }
{
    for k in (0..count(own)).rev() {
        if own[ADDRESSES + k * ADDRESS] == 0 {
            remove(own, k);
        }
    }
}

// Removes the addresses that have been leaving for at least the leave time.
pub fn expire(own: &mut [u8], leave: u32, time: u32)
    requires { LaidOwn own.old × (length own.old ≡ own_size) }
    ensures { (st : Settings) → st.leave_time ≡ leave → own.new ≡ own_octets (change_addresses (remain_addresses st time) (to_own own.old)) }
{
    lapse_all(own, leave, time);
    drop_vacant(own);
}
