// The form rules of settings (number 11) and of the lent table (number 12): docs/TABLE.md has the layout and the rules. Each
// function promises to be the definition of the same rules in the model. Rules are taken together by `&`, in the definition's
// order, and the loops over rules do not stop early: what is in form is tested whole anyway, and tests without an exit go many
// octets at a time.
#![tactic(auto)]

ghost use Rattle.std.specs.Prelude.{◌≡◌, Bool, List, ℕ, not, ◌&&◌, ◌||◌, ◌+◌, ◌*◌, ◌%◌, ◌≤◌, ◌<◌, length, get_or, take, drop, leb, eqb, count_by};
ghost use Rattle.std.specs.List.{list_all, list_any};
ghost use Rattle.octets.specs.Fields.{fields};
ghost use Rattle.octets.specs.Parts.{part};
ghost use Rattle.model.specs.Layout.{advertising_size, applicant_size, cell_widths, failing_size, listening_size, name_widths, offer_size, port_place, in_table, in_record};
ghost use Rattle.model.specs.Lists.{all_true, all_zero, implies, parts};
ghost use Rattle.model.specs.Sending.{offer_formed, failed_formed, ready_formed, domain_standing, slots_standing, sender_formed};
ghost use Rattle.model.specs.Table.{ports_field, port_rule, settings_rules, settings_formed};
ghost use Rattle.model.specs.Table.{leaving_rule, cell_rules, cell_formed, domain_formed, address_formed, own_rules, own_formed, cells_part, holds, stream_formed};
ghost use Rattle.model.specs.Table.{at_most, any_holds, count_field, records_part, table_rules, formed};
ghost use Rattle.form.specs.Asks.{Tests, TestsPairs, Gives, all_pairs, IsHead, TableGiven, registers, sends_any, declares_any, standing_as, sent_as, result_beside, sent_beside, within, sender_beside, is_either, slot_if};

use table::{
    ADDRESS, ADDRESSES, ADDRESSES_HELD, ALL_SENDS, BOUNDARY, BOUNDARY_B, CELL, CELLS, CLOCK, COUNT,
    FAN_IN, HEAD, LENGTH, MOST_ADDRESSES, OWN, OWNS, PORT, PORTS, PORTS_UNIT, PRIORITY_A_UNIT,
    PRIORITY_B_UNIT, PRUNING_UNIT, RECORD, RECORDS, RESULT, RESULTS, SENDER, SENDERS, SENDS,
    SETTLED, SETTLED_PRIORITY, SLOT, SLOTS, TOTAL, TOTAL_B, TOTALS, VLAN, address, cell, port,
    result, sender, sends, slot,
};

// The first count parts of SIZE octets, and what is behind them.
fn split_parts<const SIZE: usize>(s: &[u8], count: usize) -> (&[[u8; SIZE]], &[u8])
    requires sized { 0 < SIZE }
    requires room { count * SIZE ≤ length s.now }
    ensures parts { result.0.now ≡ parts SIZE (λ (o : List ℕ). o) count s.now }
    ensures count { length result.0.now ≡ count }
    ensures behind { result.1.now ≡ drop (count * SIZE) s.now }
{
    let (chunks, _) = s.as_chunks::<SIZE>();
    (&chunks[..count], &s[count * SIZE..])
}

// Each of some parts keeps a rule.
fn every<T, F: Fn(&T) -> bool>(parts: &[T], rule: F) -> bool
    requires { F.IsAlwaysCallable rule }
    ensures { (test : T → Bool) → Tests F.Fn rule test → result ≡ list_all test parts.now }
{
    let mut ok = true;
    for part in parts {
        ok &= rule(part);
    }
    ok
}

// Each of some parts keeps a rule beside the part at its place among others.
fn every_pair<A, B, F: Fn(&A, &B) -> bool>(parts: &[A], others: &[B], rule: F) -> bool
    requires same { length parts.now ≡ length others.now }
    requires callable { F.IsAlwaysCallable rule }
    ensures { (test : A → B → Bool) → TestsPairs F.Fn rule test → result ≡ all_pairs test parts.now others.now }
{
    let mut ok = true;
    for (part, other) in parts.iter().zip(others) {
        ok &= rule(part, other);
    }
    ok
}

// How many parts pass a test. By `filter` and `count`, which branch at each part, the rules of a full table take 4 % more instructions.
fn count<T, F: Fn(&T) -> bool>(parts: &[T], test: F) -> usize
    requires { F.IsAlwaysCallable test }
    ensures { (t : T → Bool) → Tests F.Fn test t → result ≡ count_by t parts.now }
{
    let mut n = 0;
    for part in parts {
        n += usize::from(test(part));
    }
    n
}

// Every octet is zero.
#[tactic(auto, using(crate::proofs::Zeros::zero_all))]
fn is_zero(s: &[u8]) -> bool
    ensures { result ≡ all_zero s.now }
{
    let mut clear = true;
    for octet in s {
        clear &= *octet == 0;
    }
    clear
}

// Nine octets from a place on are zero. With `is_zero` of so few, or without the early return, the rules of a full table take 9 % more
// instructions.
fn nine_zero(s: &[u8], at: usize) -> bool
    requires { at + 9 ≤ length s.now }
    ensures { result ≡ all_zero (part at 9 s.now) }
{
    if octets::get(s, at, 8) != 0 {
        return false;
    }
    s[at + 8] == 0
}

// The clock and the leave time of a table.
#[derive(Clone, Copy)]
struct Times {
    clock: u64,
    leave: u64,
}

impl Times {
    // Not leaving, with no time; or leaving, since a time less than the leave time before the clock.
    #[tactic(auto, using(crate::proofs::Tests::orders), unfolding(model::specs::Table::leaving_rule))]
    fn leaving_formed(self, leaving: u8, since: u64) -> bool
        ensures { result ≡ leaving_rule self.clock self.leave leaving since }
    {
        if leaving == 0 {
            return since == 0;
        }
        if self.clock < since {
            return false;
        }
        if self.leave <= self.clock - since {
            return false;
        }
        leaving == 1
    }
}

// What the rules of the parts of a table read of its head: its ports, the slots of the Domain values of class A and of class B, and its
// clock and leave time.
#[derive(Clone, Copy)]
struct Head {
    ports: usize,
    slot_a: usize,
    slot_b: usize,
    times: Times,
}

impl Head {
    fn of(table: &[u8; LENGTH]) -> Head
        ensures { IsHead table.now result }
    {
        let word = octets::get(table, HEAD, 3);
        Head {
            ports: (word / PORTS_UNIT) as usize,
            slot_a: 8 + (word / PRIORITY_A_UNIT % 8) as usize,
            slot_b: (word / PRIORITY_B_UNIT % 8) as usize,
            times: Times {
                clock: octets::get(table, CLOCK, 4),
                leave: word % PRIORITY_B_UNIT,
            },
        }
    }
}

// The rules of a Talker that is there, Advertise or Failed: its mark, its leaving and its priority octet.
#[tactic(auto, using(crate::proofs::Cells::by_octets))]
fn registration_formed(cell: &[u8; CELL], times: Times) -> bool
    ensures { result ≡ all_true (take 3 (drop 1 (cell_rules times.clock times.leave (fields cell_widths 0 cell.now)))) }
{
    let since = octets::get(cell, cell::TALKER_SINCE, 4);
    (cell[cell::CHANGED] <= 1)
        & times.leaving_formed(cell[cell::TALKER_LEAVES], since)
        & (cell[cell::PRIORITY] % 16 == 0)
}

// The rules of a cell's Talker: without one all of it is zero, and an Advertise has no failure.
#[tactic(auto, using(crate::proofs::Cells::by_octets))]
fn talker_formed(cell: &[u8; CELL], times: Times) -> bool
    ensures { result ≡ all_true (take 6 (cell_rules times.clock times.leave (fields cell_widths 0 cell.now))) }
{
    let kind = cell[cell::TALKER];
    if kind == 0 {
        return is_zero(&cell[cell::CHANGED..cell::LISTENER]);
    }
    if kind == 1 {
        return registration_formed(cell, times)
            & is_zero(&cell[cell::BRIDGE_ID..cell::FAILURE_END]);
    }
    (kind <= 2) & registration_formed(cell, times)
}

// The rules of a cell's Listener: without one it is not leaving, and so has no time.
#[tactic(auto, using(crate::proofs::Cells::by_octets))]
fn listener_formed(cell: &[u8; CELL], times: Times) -> bool
    ensures { result ≡ all_true (drop 6 (cell_rules times.clock times.leave (fields cell_widths 0 cell.now))) }
{
    let kind = cell[cell::LISTENER];
    let leaves = cell[cell::LISTENER_LEAVES];
    let since = octets::get(cell, cell::LISTENER_SINCE, 4);
    if leaves == 0 {
        return (kind <= 3) & (since == 0);
    }
    (kind <= 3) & (kind != 0) & times.leaving_formed(leaves, since)
}

// The rules of a cell.
fn cell_formed(cell: &[u8; CELL], times: Times) -> bool
    ensures { result ≡ cell_formed times.clock times.leave cell.now }
{
    talker_formed(cell, times) & listener_formed(cell, times)
}

// The rules of a result, by its column: no latency without one, no failure unless Failed, an entry for a column, forwarding for an
// Advertise alone, and no second of an age without an entry or after the clock's. Beside its port's cell, where so many ports have a
// Talker: a column only from another port's, a Listener declared only to this port's, and an entry for a Listener only where one is.
#[tactic(auto, using(crate::proofs::Stored::by_octets))]
fn result_formed(cell: &[u8; CELL], res: &[u8; RESULT], clock: u64, talkers: usize) -> bool
    ensures { result ≡ result_beside clock talkers cell.now res.now }
{
    let column = res[result::COLUMN];
    let entry = res[result::ENTRY];
    let declared = res[result::DECLARED];
    let second = octets::get(res, result::AGE, 4);
    let rest = (second <= clock / 100) & (declared <= 3);
    if column == 0 {
        return is_zero(&res[result::LATENCY..result::ENTRY])
            & (entry <= 1)
            & ((entry != 0) | (second == 0))
            & rest
            & ((declared == 0) | (cell[cell::TALKER] != 0))
            & ((entry == 0) | (cell[cell::LISTENER] != 0));
    }
    let apart = (usize::from(cell[cell::TALKER] != 0) < talkers) & (declared == 0);
    if column == 1 {
        return nine_zero(res, result::BRIDGE_ID)
            & (entry <= 2)
            & (1 <= entry)
            & rest
            & apart
            & ((entry <= 1) | (cell[cell::LISTENER] != 0));
    }
    (column <= 2) & (entry == 1) & rest & apart
}

// The result of each port keeps its rules, where so many ports have a Talker, and at most one port declares a Listener.
fn results_formed(
    cells: &[[u8; CELL]],
    results: &[[u8; RESULT]],
    clock: u64,
    talkers: usize,
) -> bool
    requires { length cells.now ≡ length results.now }
    ensures { result ≡ (all_pairs (result_beside clock talkers) cells.now results.now && leb (count_by declares_any results.now) 1) }
{
    every_pair(
        cells,
        results,
        |cell, res| result_formed(cell, res, clock, talkers),
    ) & (count(results, |res| res[result::DECLARED] != 0) <= 1)
}

// An Applicant keeps its rules beside whether its declaration is decided: without a state its values are zero, where it is decided it
// stands, and else it is an unsent Lv, and these keep the rules of its values.
// The state stays an octet: a table under test may hold any, and Applicant::from reads those above 6 as LA.
fn standing_formed<K: Fn() -> bool, Z: Fn() -> bool>(
    state: u8,
    decided: bool,
    kept: K,
    zero: Z,
) -> bool
    requires kept { K.IsAlwaysCallable kept }
    requires zero { Z.IsAlwaysCallable zero }
    ensures { (k z : Bool) → Gives K.Fn kept k → Gives Z.Fn zero z → result ≡ standing_as state z k decided }
{
    if state == 0 {
        return zero() & !decided;
    }
    if decided {
        return (state <= 5) & kept();
    }
    (state == 6) & kept()
}

// The values of a Talker, behind the state of its Applicant, are zero.
// Eight octets and then nine, as at nine_zero: is_zero of so few takes more instructions.
fn offer_zero(offer: &[u8]) -> bool
    requires { advertising_size ≤ length offer.now }
    ensures { result ≡ all_zero (part applicant_size offer_size offer.now) }
{
    if octets::get(offer, 1, 8) != 0 {
        return false;
    }
    nine_zero(offer, 9)
}

// The rules of the Applicant of an Advertise; the spare bits of its priority octet are zero.
fn advertise_formed(offer: &[u8], decided: bool) -> bool
    requires { length offer.now ≡ advertising_size }
    ensures { result ≡ sent_as offer_formed offer.now decided }
{
    standing_formed(
        offer[0],
        decided,
        || offer[1 + sends::PRIORITY] % 16 == 0,
        || offer_zero(offer),
    )
}

// And of a Failed.
fn failed_formed(offer: &[u8], decided: bool) -> bool
    requires { length offer.now ≡ failing_size }
    ensures { result ≡ sent_as failed_formed offer.now decided }
{
    standing_formed(
        offer[0],
        decided,
        || offer[1 + sends::PRIORITY] % 16 == 0,
        || offer_zero(offer) & nine_zero(offer, 1 + sends::BRIDGE_ID),
    )
}

// And of a Listener, with a declaration type.
fn ready_formed(ready: &[u8], decided: bool) -> bool
    requires { length ready.now ≡ listening_size }
    ensures { result ≡ sent_as ready_formed ready.now decided }
{
    let kind = ready[1];
    standing_formed(
        ready[0],
        decided,
        || (1 <= kind) & (kind <= 3),
        || kind == 0,
    )
}

// The rules of what a port sends of a stream, beside its result: a declaration stands exactly where the result has one.
#[tactic(auto, using(crate::proofs::Sent::by_octets))]
fn sent_formed(res: &[u8; RESULT], sent: &[u8; SENDS]) -> bool
    ensures { result ≡ sent_beside res.now sent.now }
{
    let column = res[result::COLUMN];
    advertise_formed(&sent[sends::ADVERTISING..sends::FAILING], column == 1)
        & failed_formed(&sent[sends::FAILING..sends::LISTENING], 2 <= column)
        & ready_formed(&sent[sends::LISTENING..SENDS], res[result::DECLARED] != 0)
}

// Some port has a registration: a Talker or a Listener.
// Crate table asks the same of all eight places of a record: here it is the form rule's, of the ports alone.
fn is_registered(cells: &[[u8; CELL]]) -> bool
    ensures { result ≡ list_any registers cells.now }
{
    cells.iter().any(|cell| (cell[cell::TALKER] != 0) | (cell[cell::LISTENER] != 0))
}

// Some port sends of a stream: an Applicant that is not 0.
fn is_sent(sent: &[[u8; SENDS]]) -> bool
    ensures { result ≡ list_any sends_any sent.now }
{
    sent.iter().any(|port| {
        (port[sends::ADVERTISING] != 0)
            | (port[sends::FAILING] != 0)
            | (port[sends::LISTENING] != 0)
    })
}

// A stream is held: by a registration, or else because a port sends of it.
fn is_held(cells: &[[u8; CELL]], sent: &[[u8; SENDS]]) -> bool
    ensures { result ≡ (list_any registers cells.now || list_any sends_any sent.now) }
{
    is_registered(cells) || is_sent(sent)
}

// The settled values of a stream of which so many ports have a Talker: zero without one.
fn settled_formed(rec: &[u8; RECORD], talkers: usize) -> bool
    ensures { result ≡ (eqb (get_or rec.now in_record.priority 0 % 16) 0
        && implies (eqb talkers 0) (all_zero (drop 1 (fields name_widths 0 rec.now)))) }
{
    let spare = rec[SETTLED_PRIORITY] % 16 == 0;
    if talkers == 0 {
        return spare & is_zero(&rec[SETTLED..CELLS]);
    }
    spare
}

// The rules of a stream record: what belongs to no port is zero.
fn record_formed(rec: &[u8; RECORD], ports: usize, times: Times) -> bool
    requires { ports ≤ 8 }
    ensures { result ≡ stream_formed ports times.clock times.leave rec.now }
{
    let (cells, behind_cells) = split_parts::<CELL>(&rec[CELLS..RESULTS], ports);
    let (results, behind_results) = split_parts::<RESULT>(&rec[RESULTS..ALL_SENDS], ports);
    let (sent, behind_sent) = split_parts::<SENDS>(&rec[ALL_SENDS..RECORD], ports);
    let talkers = count(cells, |cell| cell[cell::TALKER] != 0);
    settled_formed(rec, talkers)
        & every(cells, |cell| cell_formed(cell, times))
        & is_held(cells, sent)
        & is_zero(behind_cells)
        & results_formed(cells, results, times.clock, talkers)
        & is_zero(behind_results)
        & every_pair(results, sent, |res, sent| sent_formed(res, sent))
        & is_zero(behind_sent)
}

// A record has a registration on one of so many ports.
fn has_registered(rec: &[u8; RECORD], ports: usize) -> bool
    requires { ports ≤ 8 }
    ensures { result ≡ holds ports (cells_part rec.now) }
{
    let (cells, _) = split_parts::<CELL>(&rec[CELLS..RESULTS], ports);
    is_registered(cells)
}

// One of the records of a table has a registration on one of so many ports.
fn any_registered(table: &[u8; LENGTH], ports: usize) -> bool
    requires few { get_or table.now in_table.count 0 ≤ 64 }
    requires few_ports { ports ≤ 8 }
    ensures { result ≡ any_holds ports (count_field table.now) (records_part table.now) }
{
    let (records, _) = split_parts::<RECORD>(&table[RECORDS..LENGTH], table[COUNT] as usize);
    records.iter().any(|rec| has_registered(rec, ports))
}

// The five bits after a port's flags are zero.
#[tactic(auto, unfolding(model::specs::Table::port_rule))]
fn port_formed(port: &[u8; PORT]) -> bool
    ensures { result ≡ port_rule port.now }
{
    port[port::FLAGS] % 32 == 0
}

// The rules of settings, where there are octets for as many ports as they say; that number is tested first.
fn settings_rules(settings: &[u8]) -> bool
    requires { (in_table.ports ≤ length settings.now)
        × (ports_field settings.now ≤ 8 → port_place (ports_field settings.now) ≤ length settings.now) }
    ensures { result ≡ all_true (settings_rules settings.now) }
{
    let head = octets::get(settings, HEAD, 3);
    let ports = head / PORTS_UNIT;
    if 8 < ports {
        return false;
    }
    let vlan = octets::get(settings, VLAN, 2) % PRUNING_UNIT;
    let fan_in = octets::get(settings, FAN_IN, 1);
    let (each, _) = split_parts::<PORT>(&settings[PORTS..], ports as usize);
    (1 <= ports)
        & (head / PRIORITY_A_UNIT % 8 != head / PRIORITY_B_UNIT % 8)
        & (1 <= head % PRIORITY_B_UNIT)
        & every(each, |port| port_formed(port))
        & (1 <= vlan)
        & (vlan <= 4094)
        & (fan_in <= 8)
}

// Number 11: settings have their length and keep every rule.
pub fn settings_formed(settings: &[u8]) -> bool
    ensures { result ≡ settings_formed settings.now }
{
    if settings.len() < PORTS {
        return false;
    }
    let ports = octets::get(settings, HEAD, 3) / PORTS_UNIT;
    if settings.len() != PORTS + (ports as usize) * PORT {
        return false;
    }
    settings_rules(settings)
}

// What a class total may be: the limit in force, where some stream has a registration and the port supports the class.
#[tactic(auto, unfolding(model::specs::Table::at_most))]
fn at_most(some: bool, supports: bool, limit: u64) -> u64
    ensures { result ≡ at_most some supports limit }
{
    if some & supports { limit } else { 0 }
}

// Neither class total of a port is above what it may be, where some stream has a registration or none.
#[tactic(auto, unfolding(crate::specs::Asks::within, model::specs::Table::totals_within, model::specs::Table::to_totals, model::specs::Table::to_port, model::specs::Table::port_from, model::specs::Lists::is_one, octets::specs::Fields::fields))]
fn total_within(totals: &[u8; TOTAL], port: &[u8; PORT], some: bool) -> bool
    ensures { result ≡ within some totals.now port.now }
{
    let total_a = octets::get(totals, 0, 5);
    let total_b = octets::get(totals, TOTAL_B, 6);
    let limit_a = octets::get(port, port::LIMIT_A, 5);
    let limit_b = table::limit_b(port, total_a);
    let flags = octets::get(port, port::FLAGS, 1);
    (total_a <= at_most(some, flags / 128 == 1, limit_a))
        & (total_b <= at_most(some, flags / 64 % 2 == 1, limit_b))
}

// The rules of the settings of a table; those of places that are no port are zero.
fn header_formed(table: &[u8; LENGTH]) -> bool
    ensures { result ≡ all_true (take 2 (table_rules table.now)) }
{
    let settings = &table[0..CLOCK];
    if !settings_rules(settings) {
        return false;
    }
    let ports = (octets::get(settings, HEAD, 3) / PORTS_UNIT) as usize;
    let (_, behind) = split_parts::<PORT>(&table[PORTS..CLOCK], ports);
    is_zero(behind)
}

// The rules of the class totals of a table; places that are no port have none.
fn totals_formed(table: &[u8; LENGTH], head: Head) -> bool
    requires { TableGiven table.now head }
    ensures { result ≡ all_true (take 1 (drop 2 (table_rules table.now))) }
{
    let some = any_registered(table, head.ports);
    let (totals, behind) = split_parts::<TOTAL>(&table[TOTALS..OWNS], head.ports);
    let (ports, _) = split_parts::<PORT>(&table[PORTS..CLOCK], head.ports);
    every_pair(
        totals,
        ports,
        |totals, port| total_within(totals, port, some),
    ) & is_zero(behind)
}

// The rules of a Domain value: one that is not registered is zero.
#[tactic(auto, using(crate::proofs::Edges::by_octets))]
fn slot_formed(slot: &[u8; SLOT], times: Times) -> bool
    ensures { result ≡ domain_formed times.clock times.leave slot.now }
{
    let held = slot[slot::HELD];
    let leaves = slot[slot::LEAVES];
    let since = octets::get(slot, slot::SINCE, 4);
    let vlan = octets::get(slot, slot::VLAN, 2);
    (held <= 1)
        & times.leaving_formed(leaves, since)
        & ((held != 0) | ((leaves == 0) & (since == 0) & (vlan == 0)))
}

// The rules of an address record: it is registered.
#[tactic(auto, using(crate::proofs::Edges::by_octets))]
fn address_formed(address: &[u8; ADDRESS], times: Times) -> bool
    ensures { result ≡ address_formed times.clock times.leave address.now }
{
    let since = octets::get(address, address::SINCE, 4);
    (address[address::REGISTERED] == 1) & times.leaving_formed(address[address::LEAVES], since)
}

// The rules of the addresses that a port holds, which rise; what follows them is zero.
fn held_formed(own: &[u8; OWN], times: Times) -> bool
    ensures { result ≡ all_true (drop 3 (own_rules times.clock times.leave own.now)) }
{
    let count = own[ADDRESSES_HELD] as usize;
    if MOST_ADDRESSES < count {
        return false;
    }
    let (held, behind) = split_parts::<ADDRESS>(&own[ADDRESSES..OWN], count);
    every(held, |address| address_formed(address, times))
        & held.is_sorted_by(|a, b| octets::get(a, address::MAC, 6)
            < octets::get(b, address::MAC, 6))
        & is_zero(behind)
}

// The rules of what a port holds by itself: its Domain values, its flags and its addresses.
fn own_formed(own: &[u8; OWN], times: Times) -> bool
    ensures { result ≡ own_formed times.clock times.leave own.now }
{
    let (slots, _) = split_parts::<SLOT>(&own[0..BOUNDARY], SLOTS);
    every(slots, |slot| slot_formed(slot, times))
        & (own[BOUNDARY] <= 1)
        & (own[BOUNDARY_B] <= 1)
        & held_formed(own, times)
}

// The rules of what the ports of a table hold; what belongs to no port is zero.
fn edges_formed(table: &[u8; LENGTH], head: Head) -> bool
    requires { TableGiven table.now head }
    ensures { result ≡ all_true (take 2 (drop 3 (table_rules table.now))) }
{
    let (owns, behind) = split_parts::<OWN>(&table[OWNS..SENDERS], head.ports);
    every(owns, |own| own_formed(own, head.times)) & is_zero(behind)
}

// The Applicant of a Domain value: VP, AA or QA where the port declares the value, else none.
// The state stays an octet: a table under test may hold any, and Applicant::from reads those above 6 as LA.
#[tactic(auto, unfolding(model::specs::Sending::domain_standing))]
fn applicant_formed(state: u8, own: bool) -> bool
    ensures { result ≡ domain_standing own state }
{
    if own {
        (state == 1) | ((state == 4) | (state == 5))
    } else {
        state == 0
    }
}

// The Applicants of a port's Domain values, where it declares those of slots a and b.
fn applicants_formed(applicants: &[u8], a: usize, b: usize) -> bool
    ensures { result ≡ slots_standing (is_either a b) 0 applicants.now }
{
    let mut ok = true;
    for (slot, state) in applicants.iter().enumerate() {
        ok &= applicant_formed(*state, (slot == a) | (slot == b));
    }
    ok
}

// The rules of what a port sends by itself, where it declares the Domain values of slots a and b: their Applicants, and its LeaveAll
// machine, of which the timer has not run out.
#[tactic(auto, using(crate::proofs::Senders::by_octets))]
fn sender_formed(sender: &[u8; SENDER], clock: u64, a: usize, b: usize) -> bool
    ensures { result ≡ sender_formed (is_either a b) clock sender.now }
{
    let start = octets::get(sender, sender::TIMER, 4);
    applicants_formed(&sender[sender::APPLICANTS..sender::LEAVE_ALL], a, b)
        & (sender[sender::LEAVE_ALL] <= 1)
        & (start <= clock)
        & (clock < start + sender::LEAVE_ALL_TIME)
}

// The slot of a class's Domain value where a port supports the class, else one past the last.
#[tactic(auto, unfolding(crate::specs::Asks::slot_if))]
fn slot_if(supports: bool, slot: usize) -> usize
    ensures { result ≡ slot_if supports slot }
{
    if supports { slot } else { SLOTS }
}

// What a port sends by itself, which declares its Domain value of each class that its flags support.
#[tactic(auto, unfolding(crate::specs::Asks::sender_beside))]
fn sending_port_formed(port: &[u8; PORT], sender: &[u8; SENDER], head: Head) -> bool
    ensures { result ≡ sender_beside head.slot_a head.slot_b head.times.clock port.now sender.now }
{
    let flags = port[port::FLAGS];
    let b = slot_if(flags / 64 % 2 == 1, head.slot_b);
    let a = slot_if(flags / 128 == 1, head.slot_a);
    sender_formed(sender, head.times.clock, b, a)
}

// The rules of what the ports of a table send; what belongs to no port is zero.
fn sending_formed(table: &[u8; LENGTH], head: Head) -> bool
    requires { TableGiven table.now head }
    ensures { result ≡ all_true (take 2 (drop 5 (table_rules table.now))) }
{
    let (ports, _) = split_parts::<PORT>(&table[PORTS..CLOCK], head.ports);
    let (senders, behind) = split_parts::<SENDER>(&table[SENDERS..RECORDS], head.ports);
    every_pair(
        ports,
        senders,
        |port, sender| sending_port_formed(port, sender, head),
    ) & is_zero(behind)
}

// The rules of the stream records of a table, of which the StreamIDs rise; what follows those in use is zero.
fn streams_formed(table: &[u8; LENGTH], head: Head) -> bool
    requires { TableGiven table.now head }
    ensures { result ≡ all_true (drop 7 (table_rules table.now)) }
{
    let count = table[COUNT] as usize;
    let (records, behind) = split_parts::<RECORD>(&table[RECORDS..LENGTH], count);
    every(records, |rec| record_formed(rec, head.ports, head.times))
        & records.is_sorted_by(|a, b| octets::get(a, 0, 8) < octets::get(b, 0, 8))
        & is_zero(behind)
}

// Number 12: a table has its length and keeps every form rule.
pub fn is_formed(table: &[u8]) -> bool
    ensures { result ≡ formed table.now }
{
    let Some(table) = table.as_array::<LENGTH>() else {
        return false;
    };
    if 64 < table[COUNT] {
        return false;
    }
    if !header_formed(table) {
        return false;
    }
    let head = Head::of(table);
    totals_formed(table, head)
        & edges_formed(table, head)
        & sending_formed(table, head)
        & streams_formed(table, head)
}
