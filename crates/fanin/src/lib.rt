// Inbound ports and shared addresses: the own failure that a stream has on every port alike.
#![tactic(auto)]

ghost use Rattle.std.specs.Prelude.{◌≡◌, ◌<◌, ◌≤◌, ◌+◌};
ghost use Rattle.model.specs.Settling.{scene_of, inbounds_of, source_of, fixed_of, is_inbound, may_bring};
ghost use Rattle.model.specs.Table.{decode};
ghost use Rattle.model.specs.Laid.{Laid};
ghost use Rattle.table.specs.Updates.{stream_at};
ghost use Rattle.table.specs.Places.{Stands};
ghost use Rattle.fanin.specs.Sets.{set_to, includes, Placed};
ghost use Rattle.fanin.specs.Failures.{address_of, has_address, is_taken, common_failure};
ghost use Rattle.fanin.specs.Places.{SettledTo, Addresses};

// A set of ports with a stream's Talker port in it.
#[tactic(auto, using(crate::proofs::Sets::unit), unfolding(crate::specs::Sets::includes))]
fn including(set: u8, source: Option<usize>) -> u8
    requires { Placed source }
    ensures { result ≡ includes set source }
{
    match source {
        Some(t) => set | (1u8 << t),
        None => set,
    }
}

// The inbound ports: those that are the Talker port of some stream.
pub fn inbound_ports(table: &[u8]) -> u8
    requires { Laid table.now }
    ensures { result ≡ set_to (is_inbound (inbounds_of (decode table.now).streams)) 8 }
{
    let mut set: u8 = 0;
    for k in 0..table::count(table) {
        set = including(set, streams::source(table, k));
    }
    set
}

// Whether the port at place t may bring streams in: with no limit, or where fewer of the inbound ports than that stand below it.
fn may_bring(table: &[u8], inbound: u8, t: usize) -> bool
    requires { Laid table.now × (t < 8) × (inbound ≡ set_to (is_inbound (inbounds_of (decode table.now).streams)) 8) }
    ensures { result ≡ may_bring (decode table.now).settings.fan_in (inbounds_of (decode table.now).streams) t }
{
    let limit = table::fan_in(table);
    if limit == 0 {
        return true;
    }
    let below = inbound & ((1u8 << t) - 1);
    (u8::count_ones(below) as u64) < limit
}

// Whether stream k, whose fixed values have this address, has a Talker with the address wanted.
#[tactic(auto, using(crate::proofs::Addresses::its_address, crate::proofs::Addresses::another_address))]
fn has_address(table: &[u8], k: usize, address: u64, wanted: u64) -> bool
    requires { Stands table.now k × (address ≡ address_of (fixed_of (source_of (stream_at k (decode table.now))))) }
    ensures { result ≡ has_address wanted (source_of (stream_at k (decode table.now))) }
{
    address == wanted && streams::source(table, k).is_some()
}

// The address of stream k, read from its settled values, where they are its Talker's.
fn settled_address(table: &[u8], k: usize) -> u64
    requires { Stands table.now k × ((stream_at k (decode table.now)).settled ≡ fixed_of (source_of (stream_at k (decode table.now)))) }
    ensures { result ≡ address_of (fixed_of (source_of (stream_at k (decode table.now)))) }
{
    octets::get(table::settled_at(table, k), 0, 8)
}

// The same, read from what is registered.
fn registered_address(table: &[u8], k: usize) -> u64
    requires { Stands table.now k }
    ensures { result ≡ address_of (fixed_of (source_of (stream_at k (decode table.now)))) }
{
    octets::get(streams::registered(table, k), 0, 8)
}

// Whether a stream before stream k has a Talker with its address, where each stream's address is known.
fn is_taken<F: Fn(usize) -> u64>(table: &[u8], k: usize, address: F) -> bool
    requires { Stands table.now k × Addresses table.now k F.pre F.post address }
    ensures { result ≡ is_taken (decode table.now) k }
{
    let wanted = address(k);
    for j in 0..k {
        if has_address(table, j, address(j), wanted) {
            return true;
        }
    }
    false
}

// The same, read from the settled values, where they are the Talkers'.
pub fn taken_settled(table: &[u8], k: usize) -> bool
    requires { SettledTo table.now (k + 1) }
    ensures { result ≡ is_taken (decode table.now) k }
{
    is_taken(table, k, |j| settled_address(table, j))
}

// The same, read from what is registered.
pub fn taken_registered(table: &[u8], k: usize) -> bool
    requires { Stands table.now k }
    ensures { result ≡ is_taken (decode table.now) k }
{
    is_taken(table, k, |j| registered_address(table, j))
}

// The own failures that a stream has on every port alike, by their codes.
#[derive(Clone, Copy, PartialEq, Eq)]
pub enum CommonFailure {
    SharedAddress = 5,
    FanIn = 15,
}

// The own failure of stream k on every port: for an address that is taken, or for a port that may not bring streams in.
pub fn common_failure(table: &[u8], k: usize, inbound: u8, taken: bool) -> Option<CommonFailure>
    requires { Stands table.now k × (inbound ≡ set_to (is_inbound (inbounds_of (decode table.now).streams)) 8) × (taken ≡ is_taken (decode table.now) k) }
    ensures { result ≡ common_failure (scene_of (decode table.now)) (stream_at k (decode table.now)) }
{
    let t = streams::source(table, k)?;
    if taken {
        return Some(CommonFailure::SharedAddress);
    }
    if may_bring(table, inbound, t) {
        return None;
    }
    Some(CommonFailure::FanIn)
}
