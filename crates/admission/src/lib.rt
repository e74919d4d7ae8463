// Stage 2 of settling: on one port, in one class, the streams that stand at step h are taken by importance. One that does not
// fit in what is left fails with code 1 and takes nothing; one that fits reserves its demand where its Listener is ready.
#![tactic(auto)]

ghost use Rattle.std.specs.Prelude.{◌≡◌, [], ◌++◌, ◌+◌, ◌≤◌, ◌<◌, ◌^◌, length, take};
ghost use Rattle.model.specs.Layout.{result_size, total_size};
ghost use Rattle.model.specs.Lists.{keep};
ghost use Rattle.model.specs.State.{Settings, Totals, result_at};
ghost use Rattle.model.specs.Table.{to_result, result_octets, totals_octets, decode, encode};
ghost use Rattle.model.specs.Laid.{LaidResult, Laid};
ghost use Rattle.table.specs.Updates.{stream_at, totals_at, with_result, with_totals};
ghost use Rattle.table.specs.Places.{PortIn, StandsOn};
ghost use Rattle.streams.specs.Answers.{named};
ghost use Rattle.columns.specs.Stages as stages;
ghost use Rattle.sorting.specs.Sort.{sorted};
ghost use Rattle.admission.specs.Sharing.{order_of, is_heard, demand_in, orders_on, used_on, turns_on};
ghost use Rattle.admission.specs.Numbers.{Numbered, Turned, TookTurns};

use streams::{Class, PerSecond};
use table::{cell, port, result};

// Where priority and rank stand among a stream's settled values.
const PRIORITY: usize = cell::PRIORITY - cell::DESTINATION;

// Whether stream k stands at step h on the port at place p, in a class.
fn waiting(table: &[u8], k: usize, p: usize, class: Class) -> bool
    requires { StandsOn table.now k p }
    ensures { result ≡ stages.waits (decode table.now).settings p (named class) (stream_at k (decode table.now)) }
{
    let result = table::result_at(table, k, p);
    if result[result::COLUMN] == 1 {
        let settled = table::settled_at(table, k);
        let priority = octets::get(settled, PRIORITY, 1) / 32;
        return streams::class_of(table, priority) == Some(class);
    }
    false
}

// Its importance as one number: rank, then the second of its age, then its place.
// Crate why has a number of its own: of what is registered and of the held clock, where this one is of what the advance settled.
// The place stands in the number, so that numbers alone are sorted, in fixed memory.
fn order_of(table: &[u8], k: usize, p: usize) -> u64
    requires { StandsOn table.now k p }
    ensures { result ≡ order_of p (stream_at k (decode table.now)) k }
{
    let rank = octets::get(table::settled_at(table, k), PRIORITY, 1) / 16 % 2;
    let age = octets::get(table::result_at(table, k, p), result::AGE, 4);
    (rank * 4294967296 + age) * 64 + (k as u64)
}

// The numbers of all that wait; how many there are.
fn gather(table: &[u8], p: usize, class: Class, numbers: &mut [u64; 64]) -> usize
    requires { PortIn table.now p }
    ensures { (take result numbers.new ≡ orders_on p (named class) (decode table.now)) × (result ≤ 64) }
{
    let mut n = 0;
    for k in 0..table::count(table) {
        if waiting(table, k, p, class) {
            numbers[n] = order_of(table, k, p);
            n += 1;
        }
    }
    n
}

// The numbers of all that wait, the most important first.
fn in_order<'a>(table: &[u8], p: usize, class: Class, numbers: &'a mut [u64; 64]) -> &'a [u64]
    requires { PortIn table.now p }
    ensures { result.now ≡ sorted (orders_on p (named class) (decode table.now)) }
{
    let n = gather(table, p, class, numbers);
    sorting::sort(numbers, n);
    &numbers[..n]
}

// The limit in force on the port at place p; class A is shared out before B, and has its total there.
#[tactic(auto, unfolding(columns::specs::Stages::limit_shown, streams::specs::Answers::named, model::specs::State::in_force, model::specs::Table::to_totals, model::specs::Table::to_port, model::specs::Table::port_from, octets::specs::Fields::fields))]
fn limit_in_force(table: &[u8], p: usize, class: Class) -> u64
    requires { PortIn table.now p }
    ensures { (result ≡ stages.limit_shown (decode table.now).settings (decode table.now) p (named class))
        × (result < 256 ^ 6) }
{
    let port = table::port_at(table, p);
    match class {
        Class::A => octets::get(port, port::LIMIT_A, 5),
        Class::B => {
            let used_by_a = octets::get(table::totals_at(table, p), 0, 5);
            table::limit_b(port, used_by_a)
        }
    }
}

// The demand of stream k on the port at place p.
fn demand_in(table: &[u8], k: usize, p: usize, class: Class) -> PerSecond
    requires { StandsOn table.now k p }
    ensures { (result.0 ≡ demand_in (decode table.now).settings p (named class) (stream_at k (decode table.now)))
        × (result.0 < 2 ^ 50) }
{
    let demand = streams::demand(table::port_at(table, p), table::settled_at(table, k));
    streams::rate(demand, class)
}

// Whether a Listener of stream k on the port at place p is Ready or Ready Failed, by its number: a match on alternatives gets no proof.
pub fn is_heard(table: &[u8], k: usize, p: usize) -> bool
    requires { StandsOn table.now k p }
    ensures { result ≡ is_heard p (stream_at k (decode table.now)) }
{
    2 <= table::cell_at(table, k, p)[cell::LISTENER]
}

// A result made a failure with code 1 of the bridge with this Bridge ID: the column, the Bridge ID, the code, and an entry that
// filters.
fn lack(res: &mut [u8], id: u64)
    requires { LaidResult res.old × (length res.old ≡ result_size) }
    ensures { (st : Settings) → st.bridge_id ≡ id → res.new ≡ result_octets (stages.lacking st (to_result res.old)) }
{
    octets::put(res, result::COLUMN, 1, 2);
    octets::put(res, result::BRIDGE_ID, 8, id);
    octets::put(res, result::CODE, 1, 1);
    octets::put(res, result::ENTRY, 1, 1);
}

// The result of stream k on the port at place p.
fn lack_at(table: &mut [u8], k: usize, p: usize)
    requires { StandsOn table.old k p }
    ensures { table.new
        ≡ encode (with_result k p (stages.lacking (decode table.old).settings (result_at (stream_at k (decode table.old)) p))
        (decode table.old)) }
{
    let id = table::bridge_id(table);
    let r = table::result_in(table, k, p);
    lack(&mut table[r..r + table::RESULT], id);
}

// The turn of stream k, where so much of the limit is used; what is used after it.
fn turn(table: &mut [u8], k: usize, p: usize, class: Class, limit: u64, used: u64) -> u64
    requires { StandsOn table.old k p × (used ≤ limit) }
    ensures { Turned p (named class) limit k used (decode table.old) table.new result }
{
    let d = demand_in(table, k, p, class).0;
    if limit - used < d {
        lack_at(table, k, p);
        return used;
    }
    if is_heard(table, k, p) {
        return used + d;
    }
    used
}

// The turns of the streams with these numbers, one after another; what is used after them.
fn take_turns(table: &mut [u8], numbers: &[u64], p: usize, class: Class, limit: u64) -> u64
    requires { Numbered table.old numbers.now × (p < 8) }
    ensures { TookTurns p (named class) limit numbers.now (decode table.old) table.new result }
{
    let mut used = 0;
    for number in numbers {
        used = turn(table, (number % 64) as usize, p, class, limit, used);
    }
    used
}

// The class total put among a port's totals.
#[tactic(auto, using(crate::proofs::Laws::total_a, crate::proofs::Laws::total_b), unfolding(streams::specs::Answers::named))]
fn put_total(totals: &mut [u8], class: Class, total: u64)
    requires { length totals.old ≡ total_size }
    ensures { (t : Totals) → totals.old ≡ totals_octets t → totals.new ≡ totals_octets (stages.with_total (named class) total t) }
{
    match class {
        Class::A => octets::put(totals, 0, 5, total),
        Class::B => octets::put(totals, table::TOTAL_B, 6, total),
    }
}

// The class total of the port at place p.
fn store_total(table: &mut [u8], p: usize, class: Class, total: u64)
    requires { PortIn table.old p }
    ensures { table.new
        ≡ encode (with_totals p (stages.with_total (named class) total (totals_at p (decode table.old))) (decode table.old)) }
{
    let a = table::totals_in(table, p);
    put_total(&mut table[a..a + table::TOTAL], class, total);
}

// Bandwidth shared out on the port at place p, in a class.
pub fn admit_class(table: &mut [u8], p: usize, class: Class)
    requires { Laid table.old × (p < 8) }
    ensures { table.new ≡ encode (stages.admission p (named class) (decode table.old)) }
{
    let mut room = [0u64; 64];
    let numbers = in_order(table, p, class, &mut room);
    let limit = limit_in_force(table, p, class);
    let used = take_turns(table, numbers, p, class, limit);
    store_total(table, p, class, used);
}
