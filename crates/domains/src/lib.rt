// What the events of a frame and expiry do to one Domain value of 8 octets, and to all that a port holds; what its Domain values
// say of a class (docs/TABLE.md, "What a port holds").
#![tactic(auto)]

ghost use Rattle.std.specs.Prelude.{◌≡◌, map, not, ◌||◌, ◌<◌, length};
ghost use Rattle.model.specs.Layout.{own_size, slot_size};
ghost use Rattle.model.specs.State.{Settings, stays, domain};
ghost use Rattle.model.specs.Registrations.{quit_domain, domain_stays, change_domains};
ghost use Rattle.model.specs.Settling.{expire_domain, any_domain, other_priority};
ghost use Rattle.model.specs.Table.{domain_octets, to_domain, own_octets, to_own};
ghost use Rattle.model.specs.Laid.{LaidDomain, LaidOwn};
ghost use Rattle.domains.specs.Classes.{ClassIn, class_from, flagged};

use table::slot::{HELD, LEAVES, VLAN};

// Lv or LeaveAll: the value begins to leave, if it is registered.
// Addresses have these lines at places of their own: what both share is cells::begin.
pub fn quit(slot: &mut [u8], clock: u32)
    requires { LaidDomain slot.old × (length slot.old ≡ slot_size) }
    ensures { slot.new ≡ domain_octets (quit_domain clock (to_domain slot.old)) }
{
    if 0 < slot[HELD] {
        cells::begin(slot, LEAVES, clock);
    }
}

// Whether the value is registered, and not leaving.
pub fn is_registered(slot: &[u8]) -> bool
    requires { length slot.now ≡ slot_size }
    ensures { result ≡ domain_stays (to_domain slot.now) }
{
    if slot[HELD] == 0 {
        return false;
    }
    slot[LEAVES] == 0
}

// A join: registered with this VLAN, not leaving.
pub fn join(slot: &mut [u8], vlan: u64)
    requires { (length slot.old ≡ slot_size) × (vlan < 65536) }
    ensures { slot.new ≡ domain_octets (domain vlan stays) }
{
    octets::clear(slot, HELD, table::SLOT);
    octets::put(slot, HELD, 1, 1);
    octets::put(slot, VLAN, 2, vlan);
}

// Removes the value where it has been leaving for at least the leave time.
pub fn expire(slot: &mut [u8], leave: u32, time: u32)
    requires { LaidDomain slot.old × (length slot.old ≡ slot_size) }
    ensures { (st : Settings) → st.leave_time ≡ leave → slot.new ≡ domain_octets (expire_domain st time (to_domain slot.old)) }
{
    cells::lapse(slot, HELD, table::SLOT, LEAVES, leave, time);
}

// The same on each Domain value of a port.
// By place: of what as_chunks_mut lends a proof knows no element.
pub fn expire_all(own: &mut [u8], leave: u32, time: u32)
    requires { LaidOwn own.old × (length own.old ≡ own_size) }
    ensures { (st : Settings) → st.leave_time ≡ leave → own.new ≡ own_octets (change_domains (map (expire_domain st time)) (to_own own.old)) }
{
    for i in 0..table::SLOTS {
        let a = i * table::SLOT;
        expire(&mut own[a..a + table::SLOT], leave, time);
    }
}

// Whether a Domain value of a class, the eight from a slot on, is registered.
fn any_held(own: &[u8], from: usize) -> bool
    requires { ClassIn own.now from }
    ensures { result ≡ any_domain (class_from from (to_own own.now).domains) }
{
    (0..8).any(|q: usize| own[(from + q) * table::SLOT + HELD] != 0)
}

// Whether one of another priority is.
// Two tests and not one, as there are two definitions: each is a closure of a line.
fn other_priority(own: &[u8], from: usize, priority: u64) -> bool
    requires { ClassIn own.now from }
    ensures { result ≡ other_priority priority 0 (class_from from (to_own own.now).domains) }
{
    (0..8).any(|q: usize| (own[(from + q) * table::SLOT + HELD] != 0) & (q as u64 != priority))
}

// Whether the port is at the edge of a class that it supports: no Domain value of the class is registered, or one of another priority.
pub fn unmatched(own: &[u8], from: usize, priority: u64) -> bool
    requires { ClassIn own.now from }
    ensures { result ≡ (not (any_domain (class_from from (to_own own.now).domains))
        || other_priority priority 0 (class_from from (to_own own.now).domains)) }
{
    !any_held(own, from) || other_priority(own, from, priority)
}

// The port's flags, of class A and of class B.
pub fn set_flags(own: &mut [u8], a: bool, b: bool)
    requires { LaidOwn own.old × (length own.old ≡ own_size) }
    ensures { own.new ≡ own_octets (flagged a b (to_own own.old)) }
{
    octets::put(own, table::BOUNDARY, 1, a as u64);
    octets::put(own, table::BOUNDARY_B, 1, b as u64);
}
