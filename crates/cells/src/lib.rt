// What the events of a frame and expiry do to one cell of 43 octets, and what it has registered (docs/TABLE.md, "Cell").
#![tactic(auto)]

ghost use Rattle.std.specs.Prelude.{◌≡◌, ℕ, ◌+◌, ◌≤◌, length};
ghost use Rattle.model.specs.Layout.{cell_size, leaving_size};
ghost use Rattle.model.specs.Attributes.{kind_of, talker_kind_of};
ghost use Rattle.model.specs.State.{Settings};
ghost use Rattle.model.specs.Registrations.{quit, does, listen, registered_in};
ghost use Rattle.model.specs.Settling.{expire_cell};
ghost use Rattle.model.specs.Table.{cell_octets, to_cell};
ghost use Rattle.cells.specs.Acts.{talk_of};
ghost use Rattle.cells.specs.Asks.{CellGiven, ListenerGiven, TalkerGiven, FixedGiven, VaryingGiven, ExpiryGiven};
ghost use Rattle.cells.specs.Steps.{begun, lapsed, marked, failing, varied, fixed, same};
ghost use Rattle.model.specs.WrittenFrames.{to_ready};

use model::attribute::{StreamAttribute, TalkerAttribute};
use table::cell::{
    BRIDGE_ID, CHANGED, CODE, DESTINATION, FAILURE, LATENCY, LATENCY_AT_FIRST, LEAVING, LISTENER,
    LISTENER_LEAVES, LISTENER_PART, MARKS, PRIORITY, TALKER, TALKER_LEAVES, TALKER_PART, VLAN,
};

// The places of a Talker's FirstValue.
const FIRST_DESTINATION: usize = 8;

const FIRST_VLAN: usize = 14;

const FIRST_PRIORITY: usize = 20;

const FIRST_LATENCY: usize = 21;

const FIRST_BRIDGE_ID: usize = 25;

const FIRST_CODE: usize = 33;

// Begins leaving at the clock, unless it was begun: the mark at a place, and the time behind it.
#[tactic(auto, using(crate::proofs::Leaving::begun_ways))]
pub fn begin(cell: &mut [u8], at: usize, clock: u32)
    requires { at + leaving_size ≤ length cell.old }
    ensures { cell.new ≡ begun at clock cell.old }
{
    if cell[at] == 0 {
        octets::put(cell, at, 1, 1);
        octets::put(cell, at + 1, 4, clock as u64);
    }
}

// Lv or LeaveAll of an AttributeType: what is held of that type begins to leave.
#[tactic(auto, using(crate::proofs::Leaving::quits))]
pub fn quit(cell: &mut [u8], attribute: StreamAttribute, clock: u32)
    requires { CellGiven cell.old }
    ensures { cell.new ≡ cell_octets (quit clock (kind_of attribute) (to_cell cell.old)) }
{
    match attribute {
        StreamAttribute::Listener => {
            if 0 < cell[LISTENER] {
                begin(cell, LISTENER_LEAVES, clock);
            }
        }
        StreamAttribute::Talker(talker) => {
            if cell[TALKER] == talker as u8 {
                begin(cell, TALKER_LEAVES, clock);
            }
        }
    }
}

// Whether an AttributeType is registered, and not leaving.
#[tactic(auto, using(crate::proofs::Registered::registered))]
pub fn is_registered(cell: &[u8], attribute: StreamAttribute) -> bool
    requires { CellGiven cell.now }
    ensures { result ≡ registered_in (kind_of attribute) (to_cell cell.now) }
{
    match attribute {
        StreamAttribute::Listener => cell[LISTENER] != 0 && cell[LISTENER_LEAVES] == 0,
        StreamAttribute::Talker(talker) => {
            cell[TALKER] == talker as u8 && cell[TALKER_LEAVES] == 0
        }
    }
}

// A Listener's join: the declaration type of a FourPackedEvent, not leaving.
// The type stays an octet, stored as it is read: an enum of the three would need an Option for Ignore, and a test again here.
#[tactic(auto, using(crate::proofs::Joining::listens), unfolding(crate::specs::Steps::heard))]
pub fn join_listener(cell: &mut [u8], four: u8)
    requires { ListenerGiven cell.old four }
    ensures { (clock id : ℕ) → cell.new ≡ cell_octets (does clock (listen id (to_ready four)) (to_cell cell.old)) }
{
    octets::put(cell, LISTENER, 1, four as u64);
    octets::clear(cell, LISTENER_LEAVES, LEAVING);
}

// Whether destination, VLAN, TSpec, priority and rank are those of value n of a FirstValue. VLAN and TSpec are compared as one
// number of six octets.
// No derived equality: both stand in octets, at other places, and value n's destination is the first's plus n.
#[tactic(auto, unfolding(crate::specs::Steps::same, octets::specs::Pick::pick))]
fn is_same(cell: &[u8], first: &[u8], n: usize) -> bool
    requires { FixedGiven cell.now first.now n }
    ensures { result ≡ same first.now n cell.now }
{
    octets::get(cell, DESTINATION, 6) == octets::get(first, FIRST_DESTINATION, 6) + (n as u64)
        && octets::get(cell, VLAN, 6) == octets::get(first, FIRST_VLAN, 6)
        && cell[PRIORITY] / 16 == first[FIRST_PRIORITY] / 16
}

// Takes destination, VLAN, TSpec, priority and rank of value n of a FirstValue, and its latency as the first.
#[tactic(auto, unfolding(crate::specs::Steps::fixed))]
fn write_fixed(cell: &mut [u8], first: &[u8], n: usize)
    requires { FixedGiven cell.old first.now n }
    ensures { cell.new ≡ fixed first.now n cell.old }
{
    octets::put(
        cell,
        DESTINATION,
        6,
        octets::get(first, FIRST_DESTINATION, 6) + (n as u64),
    );
    octets::put(cell, VLAN, 6, octets::get(first, FIRST_VLAN, 6));
    octets::put(cell, PRIORITY, 1, (first[FIRST_PRIORITY] / 16 * 16) as u64);
    octets::put(
        cell,
        LATENCY_AT_FIRST,
        4,
        octets::get(first, FIRST_LATENCY, 4),
    );
}

// Takes the failure of a FirstValue, or none.
#[tactic(auto, unfolding(crate::specs::Steps::failing, model::specs::Frames::first_length))]
fn write_failure(cell: &mut [u8], talker: TalkerAttribute, first: &[u8])
    requires { VaryingGiven cell.old talker first.now }
    ensures { cell.new ≡ failing talker first.now cell.old }
{
    match talker {
        TalkerAttribute::Failed => {
            octets::put(cell, BRIDGE_ID, 8, octets::get(first, FIRST_BRIDGE_ID, 8));
            octets::put(cell, CODE, 1, first[FIRST_CODE] as u64);
        }
        TalkerAttribute::Advertise => octets::clear(cell, BRIDGE_ID, FAILURE),
    }
}

// Takes type, latency and failure of a FirstValue; clears the changed mark and ends leaving.
#[tactic(auto, using(crate::proofs::Joining::first_long, model::proofs::Attributes::talkers_octets_of), unfolding(crate::specs::Steps::varied))]
fn write_varying(cell: &mut [u8], talker: TalkerAttribute, first: &[u8])
    requires { VaryingGiven cell.old talker first.now }
    ensures { cell.new ≡ varied talker first.now cell.old }
{
    octets::put(cell, TALKER, 1, talker as u64);
    octets::clear(cell, CHANGED, MARKS);
    octets::put(cell, LATENCY, 4, octets::get(first, FIRST_LATENCY, 4));
    write_failure(cell, talker, first);
}

// Sets the changed mark and ends leaving.
#[tactic(auto, unfolding(crate::specs::Steps::marked))]
fn mark_changed(cell: &mut [u8])
    requires { length cell.old ≡ cell_size }
    ensures { cell.new ≡ marked cell.old }
{
    octets::put(cell, CHANGED, 1, 1);
    octets::clear(cell, TALKER_LEAVES, LEAVING);
}

// A Talker's join, of value n of a FirstValue: it registers, replaces what may vary, or marks the held Talker as changed.
#[tactic(auto, using(crate::proofs::Joining::joining_ways))]
pub fn join_talker(cell: &mut [u8], talker: TalkerAttribute, first: &[u8], n: usize)
    requires { TalkerGiven cell.old talker first.now n }
    ensures { (clock : ℕ) → cell.new ≡ cell_octets (does clock (talk_of (talker_kind_of talker) first.now n) (to_cell cell.old)) }
{
    if cell[TALKER] == 0 {
        write_varying(cell, talker, first);
        write_fixed(cell, first, n);
        return;
    }
    let unchanged = is_same(cell, first, n);
    if unchanged {
        write_varying(cell, talker, first);
    } else {
        mark_changed(cell);
    }
}

// Clears n octets where the leaving with its mark at a place has lasted the leave time. The sum is of 64 bits, so that it does not wrap.
#[tactic(auto, unfolding(crate::specs::Steps::lapsed, octets::specs::Pick::pick))]
pub fn lapse(cell: &mut [u8], from: usize, n: usize, mark: usize, leave: u32, time: u32)
    requires { (from + n ≤ length cell.old) × (mark + leaving_size ≤ length cell.old) }
    ensures { cell.new ≡ lapsed from n mark leave time cell.old }
{
    if cell[mark] == 0 {
        return;
    }
    if octets::get(cell, mark + 1, 4) + (leave as u64) <= time as u64 {
        octets::clear(cell, from, n);
    }
}

// Removes what has been leaving for at least the leave time.
#[tactic(auto, using(crate::proofs::Leaving::expires_both))]
pub fn expire(cell: &mut [u8], leave: u32, time: u32)
    requires { ExpiryGiven cell.old leave }
    ensures { (st : Settings) → st.leave_time ≡ leave → cell.new ≡ cell_octets (expire_cell st time (to_cell cell.old)) }
{
    lapse(cell, TALKER, TALKER_PART, TALKER_LEAVES, leave, time);
    lapse(cell, LISTENER, LISTENER_PART, LISTENER_LEAVES, leave, time);
}
