// Settling: what advance does to the table. First every registration that has been leaving for at least the leave time goes, and
// each port finds whether it is at the edge of a class's domain; then each stream is decided, bandwidth is shared out on each port, and
// each stream's Talker port declares the merged Listener. Last the Applicants get Join! of what was decided and Lv! of what was not,
// streams that are neither registered nor sent are dropped, and LeaveAll timers run out.
#![tactic(auto)]

ghost use Rattle.std.specs.Prelude.{◌≡◌, map, cond, ◌<◌, length};
ghost use Rattle.model.specs.Layout.{failed_size, own_size, result_size};
ghost use Rattle.model.specs.Lists.{tabulate};
ghost use Rattle.model.specs.State.{Settings, Column, stream_at, result_at, is_port, own_at};
ghost use Rattle.model.specs.Registrations.{holding, owning, sending};
ghost use Rattle.model.specs.Settling as model;
ghost use Rattle.model.specs.Listeners.{declared_of};
ghost use Rattle.model.specs.Table.{column_number, to_result, result_octets, to_own, own_octets, encode, decode};
ghost use Rattle.model.specs.Laid.{LaidResult, LaidOwn, Laid};
ghost use Rattle.table.specs.Places.{Stands, StandsOn, PortIn};
ghost use Rattle.table.specs.Updates.{with_stream, with_sends, with_own, with_sender};
ghost use Rattle.streams.specs.Answers.{class_shown};
ghost use Rattle.columns.specs.Stages as stages;
ghost use Rattle.declaring.specs.Octets.{offered_octets, timed};
ghost use Rattle.settling.specs.Removed.{unmatched_of, expired_own, flagged_own, removed};

use model::listener::{self, Listener};
use streams::Class;

// The octets of a Talker Failed's values, which are those of an Advertise and a failure.
const VALUES: usize = table::sends::CODE + 1;

// Removes from stream k what has been leaving for at least the leave time.
fn expire_stream(table: &mut [u8], k: usize, leave: u32, time: u32)
    requires { Stands table.old k × (leave ≡ (decode table.old).settings.leave_time) }
    ensures { table.new ≡ encode (with_stream k (model.expire (decode table.old).settings time
        (stream_at k (decode table.old))) (decode table.old)) }
{
    for p in 0..8 {
        let a = table::cell_in(table, k, p);
        cells::expire(&mut table[a..a + table::CELL], leave, time);
    }
}

// The same on each stream.
// Each loop over streams or places is three lines: one over a closure that changes the table would be no shorter.
fn expire_all(table: &mut [u8], time: u32)
    requires { Laid table.old }
    ensures { table.new ≡ encode (holding (decode table.old)
        (map (model.expire (decode table.old).settings time) (decode table.old).streams)) }
{
    let leave = table::leave_time(table);
    for k in 0..table::count(table) {
        expire_stream(table, k, leave, time);
    }
}

// Whether some port of the bridge supports a class.
fn any_supports(table: &[u8], class: Option<Class>) -> bool
    requires { Laid table.now }
    ensures { result ≡ model.any_supports (class_shown class) (decode table.now).settings.ports }
{
    let ports = table::ports(table);
    for p in 0..ports {
        if columns::supports(table::port_at(table, p), class) {
            return true;
        }
    }
    false
}

// Whether the Domain values of a class on the port at place p are other than the bridge's; class ID 5 stands before 6.
fn unmatched(table: &[u8], p: usize, class: Option<Class>) -> bool
    requires { PortIn table.now p }
    ensures { result ≡ unmatched_of (decode table.now).settings (class_shown class) (own_at (decode table.now).owns p).domains }
{
    let own = table::own_at(table, p);
    match class {
        None => true,
        Some(Class::A) => domains::unmatched(own, 8, table::priority_a(table)),
        Some(Class::B) => domains::unmatched(own, 0, table::priority_b(table)),
    }
}

// Whether the port at place p is at the edge of a class's domain; a place that is no port is not.
pub fn flag(table: &[u8], p: usize, class: Option<Class>) -> bool
    requires { PortIn table.now p }
    ensures { result ≡ model.flag_of (decode table.now).settings p (class_shown class) (own_at (decode table.now).owns p).domains }
{
    if table::ports(table) <= p {
        return false;
    }
    if columns::supports(table::port_at(table, p), class) {
        return unmatched(table, p, class);
    }
    any_supports(table, class)
}

// Removes from what a port holds each Domain value and each address that has been leaving for at least the leave time. Both times stay
// numbers of their own: contracts tie one of them to the settings.
fn expire_held(own: &mut [u8], leave: u32, time: u32)
    requires { LaidOwn own.old × (length own.old ≡ own_size) }
    ensures { (st : Settings) → st.leave_time ≡ leave → own.new ≡ own_octets (expired_own st time (to_own own.old)) }
{
    domains::expire_all(own, leave, time);
    addresses::expire(own, leave, time);
}

// The same at place p.
fn expire_own(table: &mut [u8], p: usize, leave: u32, time: u32)
    requires { PortIn table.old p × (leave ≡ (decode table.old).settings.leave_time) }
    ensures { table.new ≡ encode (with_own p (expired_own (decode table.old).settings time (own_at (decode table.old).owns p))
        (decode table.old)) }
{
    let a = table::own_in(table, p);
    expire_held(&mut table[a..a + table::OWN], leave, time);
}

// The flags of the port at place p, by the Domain values that it holds.
fn decide_flags(table: &mut [u8], p: usize)
    requires { PortIn table.old p }
    ensures { table.new ≡ encode (with_own p (flagged_own (decode table.old).settings p (own_at (decode table.old).owns p))
        (decode table.old)) }
{
    let edge_a = flag(table, p, Some(Class::A));
    let edge_b = flag(table, p, Some(Class::B));
    let a = table::own_in(table, p);
    domains::set_flags(&mut table[a..a + table::OWN], edge_a, edge_b);
}

// What the port at place p holds by itself: first the removals, then its flags.
fn decide_own(table: &mut [u8], p: usize, leave: u32, time: u32)
    requires { PortIn table.old p × (leave ≡ (decode table.old).settings.leave_time) }
    ensures { table.new ≡ encode (with_own p (model.decide_own (decode table.old).settings time (decode table.old).owns p)
        (decode table.old)) }
{
    expire_own(table, p, leave, time);
    decide_flags(table, p);
}

// The same at each place.
fn decide_owns(table: &mut [u8], time: u32)
    requires { Laid table.old }
    ensures { table.new ≡ encode (owning (decode table.old)
        (model.decide_owns (decode table.old).settings time (decode table.old).owns)) }
{
    let leave = table::leave_time(table);
    for p in 0..8 {
        decide_own(table, p, leave, time);
    }
}

// The clock set, what has lasted the leave time removed, what the ports hold by themselves decided, and nothing reserved.
fn remove(table: &mut [u8], time: u32)
    requires { Laid table.old }
    ensures { table.new ≡ encode (removed time (decode table.old)) }
{
    expire_all(table, time);
    table::set_clock(table, time);
    table::clear_totals(table);
    decide_owns(table, time);
}

// Bandwidth shared out on each port, in class A and then in class B.
fn admit_all(table: &mut [u8])
    requires { Laid table.old }
    ensures { table.new ≡ encode (stages.admissions (length (decode table.old).settings.ports) 0 (decode table.old)) }
{
    for p in 0..table::ports(table) {
        admission::admit_class(table, p, Class::A);
        admission::admit_class(table, p, Class::B);
    }
}

// The Listener passed on from a port, by the number of its column and the Listener registered there. The column stays a number: its
// words are an enum of crate reports, above, and no case here needs one.
#[tactic(auto, using(crate::proofs::Merging::passes), unfolding(model::specs::Settling::passed))]
fn passed_on(column: u8, listener: Option<Listener>) -> Option<Listener>
    ensures { (c : Column) → column ≡ column_number c → declared_of result ≡ model.passed c (declared_of listener) }
{
    match column {
        0 => None,
        1 => listener,
        _ => listener.map(|_| Listener::AskingFailed),
    }
}

// Two Listeners merged: alike gives itself, none gives the other, any two unlike give Ready Failed.
#[tactic(auto, using(crate::proofs::Merging::merges), unfolding(model::specs::Settling::merge))]
fn merge_two(a: Option<Listener>, b: Option<Listener>) -> Option<Listener>
    ensures { declared_of result ≡ model.merge (declared_of a) (declared_of b) }
{
    match (a, b) {
        (None, _) => b,
        (_, None) => a,
        (Some(one), Some(other)) if one == other => a,
        (Some(_), Some(_)) => Some(Listener::ReadyFailed),
    }
}

// The Listeners of stream k passed on from all ports, merged.
fn merged(table: &[u8], k: usize) -> Option<Listener>
    requires { Stands table.now k }
    ensures { declared_of result ≡ stages.merged_shown (stream_at k (decode table.now)) }
{
    let mut sum = None;
    for p in (0..8).rev() {
        let result = table::result_at(table, k, p);
        let cell = table::cell_at(table, k, p);
        let listener = Listener::from_octet(cell[table::cell::LISTENER]);
        sum = merge_two(passed_on(result[table::result::COLUMN], listener), sum);
    }
    sum
}

// The Listener that a result declares.
fn set_listener(res: &mut [u8], listener: Option<Listener>)
    requires { LaidResult res.old × (length res.old ≡ result_size) }
    ensures { res.new ≡ result_octets (stages.declaring (declared_of listener) (to_result res.old)) }
{
    let octet = listener::octet(listener);
    octets::put(res, table::result::DECLARED, 1, octet.into());
}

// The Talker port of stream k declares the merged Listener.
fn merge_stream(table: &mut [u8], k: usize)
    requires { Stands table.old k }
    ensures { table.new ≡ encode (with_stream k (stages.merging (stream_at k (decode table.old))) (decode table.old)) }
{
    let Some(t) = streams::source(table, k) else {
        return;
    };
    let listener = merged(table, k);
    let a = table::result_in(table, k, t);
    set_listener(&mut table[a..a + table::RESULT], listener);
}

// The same on each stream.
fn merge_all(table: &mut [u8])
    requires { Laid table.old }
    ensures { table.new ≡ encode (holding (decode table.old)
        (map stages.merging (decode table.old).streams)) }
{
    for k in 0..table::count(table) {
        merge_stream(table, k);
    }
}

// The clock set, and every stream decided anew.
fn decide(table: &mut [u8], time: u32)
    requires { Laid table.old }
    ensures { table.new ≡ encode (model.deciding time (decode table.old)) }
{
    remove(table, time);
    columns::early_all(table, time);
    admit_all(table);
    merge_all(table);
}

// The values of stream k's Talker that the port at place p declares: the settled ones, then latency, Bridge ID and code of the result.
fn offer(table: &[u8], k: usize, p: usize, values: &mut [u8])
    requires { StandsOn table.now k p × (length values.old ≡ failed_size) }
    ensures { values.new ≡ offered_octets (stream_at k (decode table.now)).settled (result_at (stream_at k (decode table.now)) p) }
{
    let settled = table::settled_at(table, k);
    values[..table::sends::LATENCY].copy_from_slice(settled);
    let result = table::result_at(table, k, p);
    values[table::sends::LATENCY..VALUES].copy_from_slice(
        &result[table::result::LATENCY..table::result::ENTRY],
    );
}

// What the port at place p sends of stream k: Join! of what its result says, Lv! of the rest.
fn redeclare(table: &mut [u8], k: usize, p: usize)
    requires { StandsOn table.old k p }
    ensures { table.new ≡ encode (with_sends k p (model.declare_sends (stream_at k (decode table.old)).settled
        (result_at (stream_at k (decode table.old)) p)) (decode table.old)) }
{
    let mut values = [0u8; VALUES];
    offer(table, k, p, &mut values);
    let result = table::result_at(table, k, p);
    let column = result[table::result::COLUMN];
    let listener = result[table::result::DECLARED];
    let a = table::sends_in(table, k, p);
    declaring::declare_all(&mut table[a..a + table::SENDS], &values, column, listener);
}

// The same, where it is not left as it is.
fn declare_on(table: &mut [u8], k: usize, p: usize)
    requires { StandsOn table.old k p }
    ensures { table.new ≡ encode (with_sends k p (model.declare_sends (stream_at k (decode table.old)).settled
        (result_at (stream_at k (decode table.old)) p)) (decode table.old)) }
{
    let sends = table::sends_at(table, k, p);
    let settled = table::settled_at(table, k);
    let result = table::result_at(table, k, p);
    if declaring::stays(sends, settled, result) {
        return;
    }
    redeclare(table, k, p);
}

// The same on each port.
fn declare_stream(table: &mut [u8], k: usize)
    requires { Stands table.old k }
    ensures { table.new ≡ encode (with_stream k (model.declare (stream_at k (decode table.old))) (decode table.old)) }
{
    for p in 0..8 {
        declare_on(table, k, p);
    }
}

// The same of each stream.
fn declare_all(table: &mut [u8])
    requires { Laid table.old }
    ensures { table.new ≡ encode (holding (decode table.old)
        (map model.declare (decode table.old).streams)) }
{
    for k in 0..table::count(table) {
        declare_stream(table, k);
    }
}

// leavealltimer! at place p, where that is a port.
fn time_sender(table: &mut [u8], p: usize, time: u32)
    requires { PortIn table.old p }
    ensures { table.new ≡ encode (with_sender p (λ s. cond (is_port (decode table.old).settings p) (timed time s) s)
        (decode table.old)) }
{
    if table::ports(table) <= p {
        return;
    }
    let a = table::sender_in(table, p);
    declaring::time(&mut table[a..a + table::SENDER], time);
}

// The same at each place.
fn time_all(table: &mut [u8], time: u32)
    requires { Laid table.old }
    ensures { table.new ≡ encode (sending (decode table.old)
        (tabulate 8 0 (model.time_sender (decode table.old).settings time (decode table.old).senders))) }
{
    for p in 0..8 {
        time_sender(table, p, time);
    }
}

// What is sent after it was decided at a time: declared and withdrawn; the streams that are no longer held dropped; the timers.
fn send(table: &mut [u8], time: u32)
    requires { Laid table.old × (time ≡ (decode table.old).clock) }
    ensures { table.new ≡ encode (model.declaring (decode table.old)) }
{
    declare_all(table);
    table::drop_unheld(table);
    time_all(table, time);
}

// Advance.
pub fn settle(table: &mut [u8], time: u32)
    requires { Laid table.old }
    ensures { table.new ≡ encode (model.settle time (decode table.old)) }
{
    decide(table, time);
    send(table, time);
}
