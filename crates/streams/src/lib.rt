// What the stages of settling share of a stream: its class, its Talker port, and its demand as a rate.
#![tactic(auto)]

ghost use Rattle.std.specs.Prelude.{◌≡◌, ◌≤◌, ◌<◌, ◌^◌, length};
ghost use Rattle.model.specs.Layout.{fixed_size, port_size};
ghost use Rattle.model.specs.State.{class_of};
ghost use Rattle.model.specs.Bandwidth as bandwidth;
ghost use Rattle.model.specs.Bandwidth.{rate_of};
ghost use Rattle.model.specs.Settling.{source_of, fixed_of};
ghost use Rattle.model.specs.Table.{to_port, decode};
ghost use Rattle.model.specs.Laid.{Laid};
ghost use Rattle.table.specs.Updates.{stream_at};
ghost use Rattle.table.specs.Places.{Stands};
ghost use Rattle.table.specs.Reads.{to_fixed, ReadsFixed};
ghost use Rattle.streams.specs.Answers.{named, intervals_of, class_shown, source_port, talker_port};

use table::{cell, port};

// Where TSpec stands among a Talker's fixed values.
const FRAME_SIZE: usize = cell::FRAME_SIZE - cell::DESTINATION;

const FRAMES: usize = cell::FRAMES - cell::DESTINATION;

// A demand in octets per interval of a class.
#[derive(Clone, Copy)]
pub struct PerInterval(pub u64);

// A rate in bits per second.
#[derive(Clone, Copy)]
pub struct PerSecond(pub u64);

// The demand of a stream on a port, from the port's settings and its fixed values: doubled where the port sends twice.
pub fn demand(port: &[u8], fixed: &[u8]) -> PerInterval
    requires { (length port.now ≡ port_size) × (length fixed.now ≡ fixed_size) }
    ensures { (result.0 ≡ (bandwidth.demand (to_port port.now) (to_fixed fixed.now)).octets) × (result.0 < 2 ^ 34) }
{
    let size = octets::get(fixed, FRAME_SIZE, 2);
    let frames = octets::get(fixed, FRAMES, 2);
    let overhead = octets::get(port, port::OVERHEAD, 1);
    let flags = octets::get(port, port::FLAGS, 1);
    let once = (size + overhead + 1) * frames;
    if flags / 32 % 2 == 1 {
        PerInterval(once * 2)
    } else {
        PerInterval(once)
    }
}

// The SR classes.
#[derive(Clone, Copy, PartialEq, Eq)]
pub enum Class {
    A,
    B,
}

impl Class {
    // The intervals in a second.
    #[tactic(auto, unfolding(crate::specs::Answers::intervals_of))]
    fn intervals(self) -> u64
        ensures { (result ≡ intervals_of self) × (result ≤ 8000) }
    {
        match self {
            Class::A => 8000,
            Class::B => 4000,
        }
    }
}

// A demand as a rate of class A.
#[tactic(auto, using(crate::proofs::Demands::rate_is, crate::proofs::Demands::bits_bound), unfolding(crate::specs::Answers::named, model::specs::Bandwidth::rate_of))]
pub fn rate_of_a(d: PerInterval) -> PerSecond
    requires { d.0 < 2 ^ 34 }
    ensures { (result.0 ≡ (bandwidth.rate_of_a (record { octets = d.0 })).bits) × (result.0 < 2 ^ 50) }
{
    PerSecond(d.0 * 8 * Class::A.intervals())
}

// The same of class B.
#[tactic(auto, using(crate::proofs::Demands::rate_is, crate::proofs::Demands::bits_bound), unfolding(crate::specs::Answers::named, model::specs::Bandwidth::rate_of))]
pub fn rate_of_b(d: PerInterval) -> PerSecond
    requires { d.0 < 2 ^ 34 }
    ensures { (result.0 ≡ (bandwidth.rate_of_b (record { octets = d.0 })).bits) × (result.0 < 2 ^ 50) }
{
    PerSecond(d.0 * 8 * Class::B.intervals())
}

// The same of a class.
#[tactic(auto, unfolding(crate::specs::Answers::named, model::specs::Bandwidth::rate_of))]
pub fn rate(d: PerInterval, class: Class) -> PerSecond
    requires { d.0 < 2 ^ 34 }
    ensures { (result.0 ≡ (rate_of (named class) (record { octets = d.0 })).bits) × (result.0 < 2 ^ 50) }
{
    match class {
        Class::A => rate_of_a(d),
        Class::B => rate_of_b(d),
    }
}

// The class of a priority; not every priority has one.
#[tactic(auto, unfolding(crate::specs::Answers::class_shown, crate::specs::Answers::named, model::specs::State::class_of))]
pub fn class_of(table: &[u8], priority: u64) -> Option<Class>
    requires { Laid table.now }
    ensures { class_shown result ≡ class_of (decode table.now).settings priority }
{
    if priority == table::priority_a(table) {
        return Some(Class::A);
    }
    if priority == table::priority_b(table) {
        return Some(Class::B);
    }
    None
}

// The Talker port of stream k: the lowest place with a Talker registration.
pub fn source(table: &[u8], k: usize) -> Option<usize>
    requires { Stands table.now k }
    ensures { result ≡ source_port (source_of (stream_at k (decode table.now))) }
{
    for p in 0..8 {
        let here = table::cell_at(table, k, p);
        if here[cell::TALKER] != 0 {
            return Some(p);
        }
    }
    None
}

// The same as a number: 0 where no port has a Talker.
// A place and no Option: where no port has a Talker, the cell at place 0 has none either, and its readers see that.
#[tactic(auto, using(crate::proofs::Sources::port_below))]
pub fn talker_port(table: &[u8], k: usize) -> usize
    requires { Stands table.now k }
    ensures { (result ≡ talker_port (source_of (stream_at k (decode table.now)))) × (result < 8) }
{
    source(table, k).unwrap_or(0)
}

// The fixed values that stream k has registered at its Talker port, zeros without one.
pub fn registered(table: &[u8], k: usize) -> &[u8]
    requires { Stands table.now k }
    ensures { ReadsFixed result.now (fixed_of (source_of (stream_at k (decode table.now)))) }
{
    let said = table::cell_at(table, k, talker_port(table, k));
    &said[cell::DESTINATION..cell::DESTINATION + table::FIXED]
}
