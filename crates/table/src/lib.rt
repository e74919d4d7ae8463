// The caller's table: its layout; each part of it by the place k of a stream and the place p of a port, read where a function hands
// it out, changed at the address that another gives; and its stream records found, put in and dropped.
#![tactic(auto)]

ghost use Rattle.std.specs.Prelude.{◌≡◌, ◌+◌, ◌*◌, ◌^◌, ◌≤◌, ◌<◌, length, replicate};
ghost use Rattle.octets.specs.Parts.{part, patch};
ghost use Rattle.model.specs.Layout.{cell_place, cell_size, fixed_size, priority_b_unit, record_place, record_size, own_place, own_size, port_size, result_place, result_size, sender_place, sender_size, sends_place, sends_size, settled_of, slot_place, slot_size, table_length, total_place, total_size};
ghost use Rattle.model.specs.State.{port_at, cell_at, result_at, sends_at, own_at, sender_at, no_totals, class_b, both_limits, in_force};
ghost use Rattle.model.specs.Registrations.{holding, ids};
ghost use Rattle.model.specs.Settling.{held, any_sending, is_held, drop_unheld};
ghost use Rattle.model.specs.Table.{to_port, to_stream, encode, decode};
ghost use Rattle.model.specs.Laid.{Laid};
ghost use Rattle.table.specs.Find.{found_at};
ghost use Rattle.table.specs.Octets.{record_put, record_kept};
ghost use Rattle.table.specs.Updates.{clocked, totalled, inserted, stream_at, totals_at};
ghost use Rattle.table.specs.Places.{Stands, PortIn, SlotIn, StandsOn, RoomAt, RecordTo};
ghost use Rattle.table.specs.Reads.{ReadsCell, ReadsResult, ReadsSends, ReadsFixed, ReadsPort, ReadsTotals, ReadsOwn, ReadsSender};

pub mod address;
pub mod cell;
pub mod port;
pub mod result;
pub mod sender;
pub mod sends;
pub mod slot;

// The layout of a table, in octets (docs/TABLE.md). How long a port's settings and its totals are, where class B's stand among
// these; a Talker's fixed values, which a stream's settled ones are; a cell, a result and what is sent.
pub const PORT: usize = port::LATENCY_B + 4;

pub const TOTAL_B: usize = 5;

pub const TOTAL: usize = TOTAL_B + 6;

pub const FIXED: usize = cell::PRIORITY + 1 - cell::DESTINATION;

pub const CELL: usize = cell::LISTENER + cell::LISTENER_PART;

pub const RESULT: usize = result::DECLARED + 1;

pub const SENDS: usize = sends::LISTENED + 1;

// What a port holds by itself: two classes of eight Domain values, then whether it is at the edge of class A and of class B; then
// how many addresses it holds, and room for 64 of them.
pub const SLOT: usize = slot::VLAN + 2;

pub const SLOTS: usize = 16;

pub const BOUNDARY: usize = SLOTS * SLOT;

pub const BOUNDARY_B: usize = BOUNDARY + 1;

pub const ADDRESS: usize = address::MAC + 6;

pub const ADDRESSES_HELD: usize = BOUNDARY_B + 1;

pub const ADDRESSES: usize = ADDRESSES_HELD + 1;

pub const MOST_ADDRESSES: usize = 64;

pub const OWN: usize = ADDRESSES + MOST_ADDRESSES * ADDRESS;

// What it sends by itself.
pub const SENDER: usize = sender::TIMER + 4;

// A record: behind the StreamID the settled values, with priority and rank last of them; cells, results and what is sent.
pub const SETTLED: usize = 8;

pub const SETTLED_PRIORITY: usize = CELLS - 1;

pub const CELLS: usize = SETTLED + FIXED;

pub const RESULTS: usize = CELLS + 8 * CELL;

pub const ALL_SENDS: usize = RESULTS + 8 * RESULT;

pub const RECORD: usize = ALL_SENDS + 8 * SENDS;

// A table: behind the Bridge ID the field of the number of ports, class priorities and leave time, talkerPruning with the VLAN of the
// Domain values, msrpMaxFanInPorts, the ports' settings, the clock, the number of streams, the totals, what the ports hold,
// what they send and the records.
pub const HEAD: usize = 8;

pub const VLAN: usize = HEAD + 3;

pub const FAN_IN: usize = VLAN + 2;

pub const PORTS: usize = FAN_IN + 1;

pub const CLOCK: usize = PORTS + 8 * PORT;

pub const COUNT: usize = CLOCK + 4;

pub const TOTALS: usize = COUNT + 1;

pub const OWNS: usize = TOTALS + 8 * TOTAL;

pub const SENDERS: usize = OWNS + 8 * OWN;

pub const RECORDS: usize = SENDERS + 8 * SENDER;

pub const LENGTH: usize = RECORDS + 64 * RECORD;

// Units of the field of ports, class priorities and leave time.
pub const PRIORITY_B_UNIT: u64 = 16384;

pub const PRIORITY_A_UNIT: u64 = 8 * PRIORITY_B_UNIT;

pub const PORTS_UNIT: u64 = 8 * PRIORITY_A_UNIT;

// The unit of talkerPruning, above the VLAN.
pub const PRUNING_UNIT: u64 = 32768;

// The number of streams held.
pub fn count(table: &[u8]) -> usize
    requires { Laid table.now }
    ensures { (result ≡ length (decode table.now).streams) × (result ≤ 64) }
{
    table[COUNT] as usize
}

// The clock, in hundredths of a second.
pub fn clock(table: &[u8]) -> u32
    requires { Laid table.now }
    ensures { result ≡ (decode table.now).clock }
{
    octets::get(table, CLOCK, 4) as u32
}

// The number of ports.
pub fn ports(table: &[u8]) -> usize
    requires { Laid table.now }
    ensures { (result ≡ length (decode table.now).settings.ports) × (result ≤ 8) }
{
    (octets::get(table, HEAD, 3) / PORTS_UNIT) as usize
}

// The leave time, in hundredths of a second.
pub fn leave_time(table: &[u8]) -> u32
    requires { Laid table.now }
    ensures { (result ≡ (decode table.now).settings.leave_time) × (result < priority_b_unit) }
{
    (octets::get(table, HEAD, 3) % PRIORITY_B_UNIT) as u32
}

// The Bridge ID.
pub fn bridge_id(table: &[u8]) -> u64
    requires { Laid table.now }
    ensures { result ≡ (decode table.now).settings.bridge_id }
{
    octets::get(table, 0, 8)
}

// The priorities of class A and class B.
// Two functions of one line: Class is of crate streams, which stands above this one.
pub fn priority_a(table: &[u8]) -> u64
    requires { Laid table.now }
    ensures { result ≡ (decode table.now).settings.priority_a }
{
    octets::get(table, HEAD, 3) / PRIORITY_A_UNIT % 8
}

pub fn priority_b(table: &[u8]) -> u64
    requires { Laid table.now }
    ensures { result ≡ (decode table.now).settings.priority_b }
{
    octets::get(table, HEAD, 3) / PRIORITY_B_UNIT % 8
}

// The VLAN of the Domain values declared.
pub fn domain_vlan(table: &[u8]) -> u64
    requires { Laid table.now }
    ensures { result ≡ (decode table.now).settings.vlan }
{
    octets::get(table, VLAN, 2) % PRUNING_UNIT
}

// talkerPruning: whether Talkers go only where their destination is registered.
pub fn pruning(table: &[u8]) -> bool
    requires { Laid table.now }
    ensures { result ≡ (decode table.now).settings.pruning }
{
    octets::get(table, VLAN, 2) / PRUNING_UNIT == 1
}

// msrpMaxFanInPorts: how many ports may bring streams in, or 0 for any number.
pub fn fan_in(table: &[u8]) -> u64
    requires { Laid table.now }
    ensures { result ≡ (decode table.now).settings.fan_in }
{
    octets::get(table, FAN_IN, 1)
}

// The settings of the port at place p.
// Each part has its own function, since its contract says another thing (ReadsPort, ReadsCell, ..): what they share is the slice.
pub fn port_at(table: &[u8], p: usize) -> &[u8]
    requires { PortIn table.now p }
    ensures { ReadsPort result.now (port_at (decode table.now).settings p) }
{
    let a = PORTS + p * PORT;
    let e = a + PORT;
    &table[a..e]
}

// What both classes together may reserve on a port, by its settings: class A's limit counts where the port supports the class.
pub fn both_limits(port: &[u8]) -> u64
    requires { length port.now ≡ port_size }
    ensures { (result ≡ both_limits (to_port port.now)) × (result < 256 ^ 6) }
{
    let limit_b = octets::get(port, port::LIMIT_B, 5);
    let flags = octets::get(port, port::FLAGS, 1);
    if flags / 128 == 1 {
        return octets::get(port, port::LIMIT_A, 5) + limit_b;
    }
    limit_b
}

// The limit in force of class B there, where class A reserves so much.
pub fn limit_b(port: &[u8], used: u64) -> u64
    requires { length port.now ≡ port_size }
    ensures { (result ≡ in_force (to_port port.now) used class_b) × (result < 256 ^ 6) }
{
    let both = both_limits(port);
    if both < used {
        return 0;
    }
    both - used
}

// What is changed is lent at its address: a function that hands out a `&mut` part of a slice gets no proof of what its caller leaves.

// The address of a port's totals, and the totals.
pub fn totals_in(table: &[u8], p: usize) -> usize
    requires { PortIn table.now p }
    ensures { (result ≡ total_place p) × (result + total_size ≤ length table.now) }
{
    TOTALS + p * TOTAL
}

pub fn totals_at(table: &[u8], p: usize) -> &[u8]
    requires { PortIn table.now p }
    ensures { ReadsTotals result.now (totals_at p (decode table.now)) }
{
    let a = totals_in(table, p);
    let e = a + TOTAL;
    &table[a..e]
}

// The address of what it holds by itself, and that; the address of its Domain value in slot i.
pub fn own_in(table: &[u8], p: usize) -> usize
    requires { PortIn table.now p }
    ensures { (result ≡ own_place p) × (result + own_size ≤ length table.now) }
{
    OWNS + p * OWN
}

pub fn own_at(table: &[u8], p: usize) -> &[u8]
    requires { PortIn table.now p }
    ensures { ReadsOwn result.now (own_at (decode table.now).owns p) }
{
    let a = own_in(table, p);
    let e = a + OWN;
    &table[a..e]
}

pub fn slot_in(table: &[u8], p: usize, i: usize) -> usize
    requires { SlotIn table.now p i }
    ensures { (result ≡ slot_place p i) × (result + slot_size ≤ length table.now) }
{
    own_in(table, p) + i * SLOT
}

// The address of what it sends by itself, and that.
pub fn sender_in(table: &[u8], p: usize) -> usize
    requires { PortIn table.now p }
    ensures { (result ≡ sender_place p) × (result + sender_size ≤ length table.now) }
{
    SENDERS + p * SENDER
}

pub fn sender_at(table: &[u8], p: usize) -> &[u8]
    requires { PortIn table.now p }
    ensures { ReadsSender result.now (sender_at (decode table.now).senders p) }
{
    let a = sender_in(table, p);
    let e = a + SENDER;
    &table[a..e]
}

// The address of the record of stream k.
fn record_in(table: &[u8], k: usize) -> usize
    requires { Stands table.now k }
    ensures { (result ≡ record_place k) × (result + record_size ≤ length table.now) }
{
    RECORDS + k * RECORD
}

// The StreamID of stream k.
pub fn id_at(table: &[u8], k: usize) -> u64
    requires { Stands table.now k }
    ensures { result ≡ (stream_at k (decode table.now)).id }
{
    octets::get(table, record_in(table, k), 8)
}

// The address of its settled values, and the values.
pub fn settled_in(table: &[u8], k: usize) -> usize
    requires { Stands table.now k }
    ensures { (result ≡ settled_of k) × (result + fixed_size ≤ length table.now) }
{
    record_in(table, k) + SETTLED
}

pub fn settled_at(table: &[u8], k: usize) -> &[u8]
    requires { Stands table.now k }
    ensures { ReadsFixed result.now (stream_at k (decode table.now)).settled }
{
    let a = settled_in(table, k);
    let e = a + FIXED;
    &table[a..e]
}

// The address of its cell on the port at place p, and the cell.
pub fn cell_in(table: &[u8], k: usize, p: usize) -> usize
    requires { StandsOn table.now k p }
    ensures { (result ≡ cell_place k p) × (result + cell_size ≤ length table.now) }
{
    record_in(table, k) + CELLS + p * CELL
}

pub fn cell_at(table: &[u8], k: usize, p: usize) -> &[u8]
    requires { StandsOn table.now k p }
    ensures { ReadsCell result.now (cell_at (stream_at k (decode table.now)) p) }
{
    let a = cell_in(table, k, p);
    let e = a + CELL;
    &table[a..e]
}

// The address of its result there, and the result.
pub fn result_in(table: &[u8], k: usize, p: usize) -> usize
    requires { StandsOn table.now k p }
    ensures { (result ≡ result_place k p) × (result + result_size ≤ length table.now) }
{
    record_in(table, k) + RESULTS + p * RESULT
}

pub fn result_at(table: &[u8], k: usize, p: usize) -> &[u8]
    requires { StandsOn table.now k p }
    ensures { ReadsResult result.now (result_at (stream_at k (decode table.now)) p) }
{
    let a = result_in(table, k, p);
    let e = a + RESULT;
    &table[a..e]
}

// The address of what the port sends of it, and that.
pub fn sends_in(table: &[u8], k: usize, p: usize) -> usize
    requires { StandsOn table.now k p }
    ensures { (result ≡ sends_place k p) × (result + sends_size ≤ length table.now) }
{
    record_in(table, k) + ALL_SENDS + p * SENDS
}

pub fn sends_at(table: &[u8], k: usize, p: usize) -> &[u8]
    requires { StandsOn table.now k p }
    ensures { ReadsSends result.now (sends_at (stream_at k (decode table.now)) p) }
{
    let a = sends_in(table, k, p);
    let e = a + SENDS;
    &table[a..e]
}

// The clock set.
pub fn set_clock(table: &mut [u8], time: u32)
    requires { Laid table.old }
    ensures { table.new ≡ encode (clocked time (decode table.old)) }
{
    octets::put(table, CLOCK, 4, time as u64);
}

// Nothing reserved on any port.
pub fn clear_totals(table: &mut [u8])
    requires { Laid table.old }
    ensures { table.new ≡ encode (totalled (replicate 8 no_totals) (decode table.old)) }
{
    octets::clear(table, TOTALS, 8 * TOTAL);
}

// The place of a StreamID among the records in use, or where it would stand, by halving.
// By hand: the library's binary_search_by_key goes on past a hit, so to find one of 64 it reads 7 records, where this reads 5.1 on average.
pub fn find(table: &[u8], id: u64) -> Result<usize, usize>
    requires { Laid table.now }
    ensures { result ≡ found_at id 0 (ids (decode table.now).streams) }
{
    let mut low: usize = 0;
    let mut high = count(table);
    while low < high {
        let middle = low + (high - low) / 2;
        let x = octets::get(table, RECORDS + middle * RECORD, 8);
        if x == id {
            return Ok(middle);
        }
        if x < id {
            low = middle + 1;
        } else {
            high = middle;
        }
    }
    Err(low)
}

// An empty record for the stream id at place k of n: those from there on move up.
fn put_record(table: &mut [u8], n: usize, k: usize, id: u64)
    requires { RecordTo table.old k n }
    ensures { table.new ≡ record_put n k id table.old }
{
    let at = RECORDS + k * RECORD;
    // On the part from there on, where both places are constants: that becomes one memmove, and no loop over octets.
    table[at..].copy_within(..(n - k) * RECORD, RECORD);
    octets::clear(table, at, RECORD);
    octets::put(table, at, 8, id);
    octets::put(table, COUNT, 1, (n + 1) as u64);
}

// A record for the stream id, which is not held, at its place k.
pub fn insert(table: &mut [u8], k: usize, id: u64)
    requires { RoomAt table.old k }
    ensures { table.new ≡ encode (inserted k id (decode table.old)) }
{
    let n = count(table);
    put_record(table, n, k, id);
}

// Whether some port has a registration of the stream: a Talker or a Listener in one of the cells.
fn is_registered(rec: &[u8]) -> bool
    requires { length rec.now ≡ record_size }
    ensures { result ≡ held (to_stream rec.now).cells }
{
    let (cells, _) = rec[CELLS..RESULTS].as_chunks::<CELL>();
    cells.iter().any(|held| held[cell::TALKER] != 0 || held[cell::LISTENER] != 0)
}

// Whether some port sends of it: an Applicant that is not 0.
fn is_sent(rec: &[u8]) -> bool
    requires { length rec.now ≡ record_size }
    ensures { result ≡ any_sending (to_stream rec.now).sends }
{
    let (ports, _) = rec[ALL_SENDS..RECORD].as_chunks::<SENDS>();
    ports.iter().any(|sent| {
        sent[sends::ADVERTISING] != 0 || sent[sends::FAILING] != 0 || sent[sends::LISTENING] != 0
    })
}

// Whether the stream is held.
#[tactic(auto, unfolding(model::specs::Settling::is_held))]
fn is_held(rec: &[u8]) -> bool
    requires { length rec.now ≡ record_size }
    ensures { result ≡ is_held (to_stream rec.now) }
{
    is_registered(rec) || is_sent(rec)
}

// The record at place i, moved down to place j.
fn keep_record(table: &mut [u8], i: usize, j: usize)
    requires { RecordTo table.old j i }
    ensures { table.new ≡ record_kept i j table.old }
{
    if j < i {
        let from = RECORDS + i * RECORD;
        table.copy_within(from..from + RECORD, RECORDS + j * RECORD);
    }
}

// The records of streams that are not held dropped: the others move down, with zeros in the freed room.
pub fn drop_unheld(table: &mut [u8])
    requires { Laid table.old }
    ensures { table.new ≡ encode (holding (decode table.old) (drop_unheld (decode table.old).streams)) }
{
    let n = count(table);
    let mut j: usize = 0;
    for i in 0..n {
        let a = RECORDS + i * RECORD;
        if is_held(&table[a..a + RECORD]) {
            keep_record(table, i, j);
            j += 1;
        }
    }
    octets::clear(table, RECORDS + j * RECORD, (n - j) * RECORD);
    octets::put(table, COUNT, 1, j as u64);
}
