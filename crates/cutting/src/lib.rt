// Listener declarations packed into vectors: how many of a port's fit in a PDU, and their least cutting.
#![tactic(auto)]

ghost use Rattle.std.specs.Prelude.{◌≡◌, ◌+◌, ◌≤◌, ◌<◌, length, get_or, take};
ghost use Rattle.model.specs.Cutting.{values, octets_for};
ghost use Rattle.model.specs.Best.{price, least, run};
ghost use Rattle.cutting.specs.Named.{ids_of, Named, PartIn};
ghost use Rattle.cutting.specs.Plan.{none, lower, entries, Weighed, Counted, Costed, Kept, Packed};

// The octets of a vector before its events, header and StreamID, and of a vector of one value.
const HEAD: u64 = 10;

const ALONE: u64 = HEAD + 2;

// What weighs an octet, beside 1 for each vector: as there are at most 64 vectors, fewer octets always weigh less.
const OCTET: u64 = 65;

const ALONE_WEIGHS: u64 = ALONE * OCTET + 1;

// The StreamIDs of one MAC.
const OF_A_MAC: u64 = 65536;

// What the best cutting of a tail weighs, and how many declarations its first vector has.
#[derive(Clone, Copy)]
pub struct Entry {
    pub weighs: u64,
    pub first: usize,
}

// The octets of a vector of n values.
#[tactic(auto, unfolding(model::specs::Cutting::octets_for, model::specs::Frames::three_length, model::specs::Frames::four_length))]
fn octets_for(n: u64) -> u64
    requires { n ≤ 65536 }
    ensures { (result ≡ octets_for n) × (result < 40000) }
{
    HEAD + (n + 2) / 3 + (n + 3) / 4
}

// The weight of a vector of n values.
#[tactic(auto, unfolding(model::specs::Best::price))]
fn price_of(n: u64) -> u64
    requires { n ≤ 65536 }
    ensures { (result ≡ price n) × (result < 4194304) }
{
    octets_for(n) * OCTET + 1
}

// The StreamID of the stream that is named at place i.
// Streams are named by their places in the table, an octet each: there is no heap, and memory is fixed.
pub fn id_of(table: &[u8], places: &[u8], i: usize) -> u64
    requires { Named table.now places.now × (i < length places.now) }
    ensures { result ≡ get_or (ids_of table.now places.now) i 0 }
{
    table::id_at(table, places[i] as usize)
}

// The values of the vector of a part: from its first StreamID to its last.
pub fn values_of(table: &[u8], places: &[u8]) -> u64
    requires { PartIn table.now places.now }
    ensures { (result ≡ values (ids_of table.now places.now)) × (result ≤ 65536) }
{
    let first = id_of(table, places, 0);
    id_of(table, places, places.len() - 1) - first + 1
}

// The octets of that vector.
pub fn size_of(table: &[u8], places: &[u8]) -> usize
    requires { PartIn table.now places.now }
    ensures { (result ≡ octets_for (values (ids_of table.now places.now))) × (result < 40000) }
{
    octets_for(values_of(table, places)) as usize
}

// Of two entries the one that weighs less; where they weigh the same, the second, whose first vector is longer.
// No order of entries: of equal weights the second must win, where min_by_key gives the first.
#[tactic(auto, unfolding(crate::specs::Plan::lower))]
fn lower(e: Entry, f: Entry) -> Entry
    ensures { result ≡ lower e f }
{
    if f.weighs <= e.weighs {
        return f;
    }
    e
}

// The entry of the tail from `at` on, given what each later tail weighs.
fn choose(table: &[u8], places: &[u8], at: usize, weighs: &[u16]) -> Entry
    requires { Named table.now places.now × (at < length places.now) × (length weighs.now ≡ 65) × Weighed (ids_of table.now places.now) (at + 1) weighs.now }
    ensures { result ≡ get_or (entries (ids_of table.now places.now)) at none }
{
    let x = id_of(table, places, at);
    let mut best = Entry {
        weighs: ALONE_WEIGHS + weighs[at + 1] as u64,
        first: 1,
    };
    for k in 1..places.len() - at {
        let y = id_of(table, places, at + k);
        if y / OF_A_MAC != x / OF_A_MAC {
            return best;
        }
        let longer = Entry {
            weighs: price_of(y - x + 1) + weighs[at + k + 1] as u64,
            first: k + 1,
        };
        best = lower(best, longer);
    }
    best
}

// The entries of all tails of at most 64 rising StreamIDs, in two slices and not in one of entries: `fit` keeps its costs in the first.
fn plan(table: &[u8], places: &[u8], weighs: &mut [u16], firsts: &mut [u8])
    requires { Named table.now places.now × (length weighs.old ≡ 65) × (length firsts.old ≡ 65) }
    ensures { Weighed (ids_of table.now places.now) 0 weighs.new × Counted (ids_of table.now places.now) 0 firsts.new
        × Kept (length places.now) weighs.old weighs.new × Kept (length places.now) firsts.old firsts.new }
{
    let n = places.len();
    weighs[n] = 0;
    firsts[n] = 0;
    for i in (0..n).rev() {
        let e = choose(table, places, i, weighs);
        weighs[i] = e.weighs as u16;
        firsts[i] = e.first as u8;
    }
}

// The least octets of the first k + 1 declarations, given those of the first 0, 1 .. k.
fn least_to(table: &[u8], places: &[u8], k: usize, costs: &[u16]) -> u64
    requires { Named table.now places.now × (k < length places.now) × (length costs.now ≡ 65) × Costed (ids_of table.now places.now) k costs.now }
    ensures { result ≡ least (take (k + 1) (ids_of table.now places.now)) }
{
    let y = id_of(table, places, k);
    let mut least = costs[k] as u64 + ALONE;
    for j in (0..k).rev() {
        let x = id_of(table, places, j);
        if x / OF_A_MAC != y / OF_A_MAC {
            return least;
        }
        least = least.min(costs[j] as u64 + octets_for(y - x + 1));
    }
    least
}

// How many declarations, from the first on, fit in `room` octets. A vector for each is always enough.
fn fit(table: &[u8], places: &[u8], room: u64, costs: &mut [u16]) -> usize
    requires { Named table.now places.now × (length costs.old ≡ 65) }
    ensures { (result ≡ run room (ids_of table.now places.now)) × (result ≤ length places.now) × Kept result costs.old costs.new }
{
    let n = places.len();
    if (n as u64) * ALONE <= room {
        return n;
    }
    costs[0] = 0;
    for k in 0..n {
        let least = least_to(table, places, k, costs);
        if room < least {
            return k;
        }
        costs[k + 1] = least as u16;
    }
    n
}

// The run to write in at most `room` octets, and the plan of its least cutting; behind it both slices stay.
pub fn pack(table: &[u8], places: &[u8], room: u64, weighs: &mut [u16], firsts: &mut [u8]) -> usize
    requires { Named table.now places.now × (length weighs.old ≡ 65) × (length firsts.old ≡ 65) }
    ensures { Packed room (ids_of table.now places.now) result weighs.new firsts.new
        × Kept result weighs.old weighs.new × Kept result firsts.old firsts.new }
{
    let n = fit(table, places, room, weighs);
    plan(table, &places[..n], weighs, firsts);
    n
}
