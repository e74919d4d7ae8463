// Stage 1 of settling: the steps before h, and what a stream shows on a port before bandwidth is shared.
#![tactic(auto)]

ghost use Rattle.std.specs.Prelude.{◌≡◌, [], ◌∷◌, ℕ, ◌+◌, ◌≤◌, ◌<◌, ◌^◌, length};
ghost use Rattle.octets.specs.Fields.{packed};
ghost use Rattle.octets.specs.Parts.{patch};
ghost use Rattle.octets.specs.Be.{be_at};
ghost use Rattle.model.specs.Layout.{cell_size, in_result, in_cell, port_size, result_size};
ghost use Rattle.model.specs.State as state;
ghost use Rattle.model.specs.State.{class_latency, port_at, cell_at, own_at, failed};
ghost use Rattle.model.specs.Settling as model;
ghost use Rattle.model.specs.Settling.{Scene, scene_of, is_inbound, source_of, fixed_of, talker_type_of, failed_column, no_step, step_i, step_l, steps_from, steps, age_of, latency_out, entry_of, age_kept};
ghost use Rattle.model.specs.Why.{letter, first_name, column_by};
ghost use Rattle.model.specs.Listeners.{declared_of};
ghost use Rattle.model.specs.Table.{to_port, to_cell, to_result, to_entry, to_declared, entry_number, result_octets, encode, decode};
ghost use Rattle.model.specs.Laid.{Laid};
ghost use Rattle.table.specs.Updates.{stream_at, with_settled};
ghost use Rattle.table.specs.Places.{Stands, PortIn, StandsOn};
ghost use Rattle.streams.specs.Answers.{named, class_shown, source_in};
ghost use Rattle.fanin.specs.Sets.{set_to};
ghost use Rattle.fanin.specs.Places.{SettledTo};
ghost use Rattle.columns.specs.Stages.{shown_by, last_step, early_column, early, early_all};
ghost use Rattle.columns.specs.Answers.{column_shown, entry_shown, talker_number, latency_place_of, size_place, column_widths, column_numbers, entry_widths, entry_size};
ghost use Rattle.columns.specs.Steps.{step_shown, step_or, outcome_shown, about_shown, steps_before, edge_of, EdgesOf};
ghost use Rattle.columns.specs.Places.{Asked, pruned_on, SceneOn, TalkerAt, FailureAt, changed_at, early_one, early_to};

use fanin::CommonFailure;
use model::attribute::TalkerAttribute;
use model::listener::Listener;
use streams::Class;
use table::{cell, port, result};

// The columns that declare a Talker: Advertise, or Failed with a Bridge ID and a code. Column none is `None`.
#[derive(Clone, Copy)]
pub enum Column {
    Advertise,
    Failed(u64, u8),
}

// An own failure carries this Bridge ID.
#[tactic(auto, unfolding(crate::specs::Answers::column_shown))]
fn own_failure(table: &[u8], code: u8) -> Column
    requires { Laid table.now }
    ensures { column_shown (Some result) ≡ failed (decode table.now).settings.bridge_id code }
{
    Column::Failed(table::bridge_id(table), code)
}

// Whether a port supports a class; a priority that is no class is not one that it fails to support.
#[tactic(auto, unfolding(streams::specs::Answers::class_shown, streams::specs::Answers::named, model::specs::State::supports, model::specs::Table::to_port, model::specs::Table::port_from, model::specs::Lists::is_one, octets::specs::Fields::fields))]
pub fn supports(port: &[u8], class: Option<Class>) -> bool
    requires { length port.now ≡ port_size }
    ensures { result ≡ state.supports (to_port port.now) (class_shown class) }
{
    let flags = octets::get(port, port::FLAGS, 1);
    match class {
        None => true,
        Some(Class::A) => flags / 128 == 1,
        Some(Class::B) => flags / 64 % 2 == 1,
    }
}

// The steps of settling (01, "Settling"; 02, ix) by their letters in ASCII.
#[derive(Clone, Copy, PartialEq, Eq)]
pub enum Step {
    A = 97,
    B,
    C,
    D,
    E,
    F,
    G,
    H,
    I,
    J,
    K,
    L,
    M,
    N,
}

// What a step gives: column none, the failure that is registered, Advertise, or an own failure of some code.
// A code stays 01's number, which the result holds in an octet; those that crate fanin decides have names there.
#[derive(Clone, Copy)]
pub enum Outcome {
    Nothing,
    Registered,
    Admitted,
    Failure(u8),
}

impl Step {
    #[tactic(auto, using(crate::proofs::Steps::letter_is))]
    pub fn letter(self) -> u8
        ensures { result ≡ letter (step_shown self) }
    {
        self as u8
    }

    #[tactic(auto, unfolding(crate::specs::Steps::step_shown, crate::specs::Steps::outcome_shown))]
    pub fn outcome(self) -> Outcome
        ensures { outcome_shown result ≡ (model.about (step_shown self)).outcome }
    {
        match self {
            Step::A => Outcome::Nothing,
            Step::B => Outcome::Nothing,
            Step::C => Outcome::Registered,
            Step::D => Outcome::Failure(16),
            Step::E => Outcome::Failure(4),
            Step::F => Outcome::Failure(13),
            Step::G => Outcome::Failure(14),
            Step::H => Outcome::Failure(1),
            Step::I => Outcome::Admitted,
            Step::J => Outcome::Failure(8),
            Step::K => Outcome::Failure(7),
            Step::L => Outcome::Failure(CommonFailure::SharedAddress as u8),
            Step::M => Outcome::Failure(CommonFailure::FanIn as u8),
            Step::N => Outcome::Nothing,
        }
    }
}

// The letter of a step in ASCII, 0 for none, and what it gives.
#[derive(Clone, Copy)]
pub struct About(pub u8, pub Outcome);

// Each step's letter and outcome, and those of none.
#[tactic(auto, unfolding(crate::specs::Steps::outcome_shown, crate::specs::Steps::about_shown, model::specs::Why::letter))]
pub fn describe(step: Option<Step>) -> About
    ensures { about_shown result ≡ model.about (step_or step no_step) }
{
    match step {
        None => About(0, Outcome::Nothing),
        Some(named) => About(named.letter(), named.outcome()),
    }
}

// Whether a port is at the edge of the domain of class A, and of class B.
#[derive(Clone, Copy)]
pub struct Edges {
    pub a: bool,
    pub b: bool,
}

impl Edges {
    // The flag of a class.
    #[tactic(auto, unfolding(crate::specs::Steps::edge_of, streams::specs::Answers::named))]
    fn of(self, class: Class) -> bool
        ensures { result ≡ edge_of self (named class) }
    {
        match class {
            Class::A => self.a,
            Class::B => self.b,
        }
    }
}

// What a port's own part says of a stream: the port's flags, and whether the stream's Talker is pruned there.
// Both are answers that the steps read, and neither is a switch of the other: so they are two fields, and no enum.
#[derive(Clone, Copy)]
pub struct OwnRead {
    pub edges: Edges,
    pub pruned: bool,
}

// The flags that the port at place p has stored.
fn stored_edges(table: &[u8], p: usize) -> Edges
    requires { PortIn table.now p }
    ensures { EdgesOf result (own_at (decode table.now).owns p) }
{
    let own = table::own_at(table, p);
    Edges {
        a: own[table::BOUNDARY] == 1,
        b: own[table::BOUNDARY_B] == 1,
    }
}

// Whether the port at place p gets no Talker of stream k: Talkers are pruned, and it doesn't hold the destination at place t.
pub fn is_pruned(table: &[u8], k: usize, p: usize, t: usize) -> bool
    requires { TalkerAt table.now k t × (p < 8) }
    ensures { result ≡ pruned_on (decode table.now) p (source_of (stream_at k (decode table.now))) }
{
    if table::pruning(table) {
        let said = table::cell_at(table, k, t);
        let destination = octets::get(said, cell::DESTINATION, 6);
        return !addresses::holds(table::own_at(table, p), destination);
    }
    false
}

// The steps before l on the port at place p with these flags, whose cell is here, for the Talker's cell said at place t, which is
// pruned there or not: the first that applies, if one does.
fn first_step(
    table: &[u8],
    here: &[u8],
    said: &[u8],
    p: usize,
    t: usize,
    own: OwnRead,
) -> Option<Step>
    requires { Asked table.now here.now said.now p × (own.pruned ≡ pruned_on (decode table.now) p (source_in t (to_cell said.now))) }
    ensures { (sc : Scene) (n : ℕ) → SceneOn (decode table.now) p own.edges sc → (m : model.StepName)
        → step_or result m ≡ first_name (steps_before step_l (steps_from sc p (to_cell here.now) n (source_in t (to_cell said.now)))) m }
{
    let kind = said[cell::TALKER];
    let mark = said[cell::CHANGED];
    if kind == 0 {
        return Some(Step::A);
    }
    if p == t {
        return Some(Step::A);
    }
    let class = streams::class_of(table, octets::get(said, cell::PRIORITY, 1) / 32);
    if !supports(table::port_at(table, p), class) {
        return Some(Step::B);
    }
    if own.pruned {
        return Some(Step::N);
    }
    if kind != 1 {
        return Some(Step::C);
    }
    if mark == 1 {
        return Some(Step::D);
    }
    if octets::get(said, cell::LATENCY_AT_FIRST, 4) < octets::get(said, cell::LATENCY, 4) {
        return Some(Step::K);
    }
    if here[cell::TALKER] != 0 {
        return Some(Step::E);
    }
    let Some(class) = class else {
        return Some(Step::F);
    };
    let edges = own.edges;
    if edges.of(class) {
        return Some(Step::J);
    }
    None
}

// The steps from l on, for the Talker's cell said: the own failure that the stream has on every port, then g; i where none applies.
#[tactic(auto, unfolding(crate::specs::Steps::step_shown, crate::specs::Stages::last_step))]
fn last_step(table: &[u8], said: &[u8], p: usize, common: Option<CommonFailure>) -> Step
    requires { PortIn table.now p × (length said.now ≡ cell_size) }
    ensures { step_shown result ≡ last_step common (port_at (decode table.now).settings p) (be_at 2 said.now size_place) }
{
    match common {
        Some(CommonFailure::SharedAddress) => Step::L,
        Some(CommonFailure::FanIn) => Step::M,
        None => {
            let port = table::port_at(table, p);
            if octets::get(port, port::LARGEST, 2) < octets::get(said, cell::FRAME_SIZE, 2) {
                Step::G
            } else {
                Step::I
            }
        }
    }
}

// The first step before h that applies to stream k on the port at place p, where t is its Talker's place, common the own failure that
// it has on every port, and own the port's flags, whatever they are, and whether the Talker is pruned there; i where none does.
pub fn early_step(
    table: &[u8],
    k: usize,
    p: usize,
    t: usize,
    common: Option<CommonFailure>,
    own: OwnRead,
) -> Step
    requires { FailureAt table.now k t common × (p < 8) × (own.pruned ≡ pruned_on (decode table.now) p (source_of (stream_at k (decode table.now)))) }
    ensures { (sc : Scene) → SceneOn (decode table.now) p own.edges sc
        → step_shown result ≡ first_name (steps sc p (stream_at k (decode table.now))) step_i }
{
    if table::ports(table) <= p {
        return Step::A;
    }
    let here = table::cell_at(table, k, p);
    let talker = table::cell_at(table, k, t);
    match first_step(table, here, talker, p, t, own) {
        Some(step) => step,
        None => last_step(table, talker, p, common),
    }
}

// The failure that the Talker's cell said has registered; none without one.
fn failure_in(said: &[u8]) -> Option<Column>
    requires { length said.now ≡ cell_size }
    ensures { (t : ℕ) → column_shown result ≡ failed_column (talker_type_of (source_in t (to_cell said.now))) }
{
    if said[cell::TALKER] < 2 {
        return None;
    }
    Some(Column::Failed(octets::get(said, cell::BRIDGE_ID, 8), said[cell::CODE]))
}

// The column that a step gives, for the Talker's cell said.
fn column_of(table: &[u8], said: &[u8], step: Step) -> Option<Column>
    requires { Laid table.now × (length said.now ≡ cell_size) }
    ensures { (t : ℕ) → column_shown result
        ≡ column_by (decode table.now).settings (source_in t (to_cell said.now)) (step_shown step) }
{
    match step.outcome() {
        Outcome::Nothing => None,
        Outcome::Registered => failure_in(said),
        Outcome::Admitted => Some(Column::Advertise),
        Outcome::Failure(code) => Some(own_failure(table, code)),
    }
}

// The column of stream k on the port at place p before bandwidth is shared, where t is its Talker's place and common the own
// failure that it has on every port.
fn early_column(
    table: &[u8],
    k: usize,
    p: usize,
    t: usize,
    common: Option<CommonFailure>,
) -> Option<Column>
    requires { FailureAt table.now k t common × (p < 8) }
    ensures { column_shown result ≡ early_column (scene_of (decode table.now)) p (stream_at k (decode table.now)) }
{
    let own = OwnRead {
        edges: stored_edges(table, p),
        pruned: is_pruned(table, k, p, t),
    };
    let step = early_step(table, k, p, t, common, own);
    column_of(table, table::cell_at(table, k, t), step)
}

// Where a port's latency of a class stands.
#[tactic(auto, unfolding(crate::specs::Answers::latency_place_of))]
fn latency_place(class: Class) -> usize
    ensures { (result ≡ latency_place_of class) × (result + 4 ≤ port_size) }
{
    match class {
        Class::A => port::LATENCY_A,
        Class::B => port::LATENCY_B,
    }
}

// A port's latency of a class, in nanoseconds; 0 without a class. One reading for both classes: the compiler takes it in one load.
#[tactic(auto, using(crate::proofs::Talkers::latency_of_class), unfolding(streams::specs::Answers::class_shown, model::specs::State::class_latency))]
fn class_latency(port: &[u8], class: Option<Class>) -> u64
    requires { length port.now ≡ port_size }
    ensures { (result ≡ class_latency (to_port port.now) (class_shown class)) × (result < 2 ^ 32) }
{
    class.map_or(0, |c| octets::get(port, latency_place(c), 4))
}

// Latency of stream k out of the port at place p, at most 2^32 - 1, where t is its Talker's place.
fn latency_out(table: &[u8], k: usize, p: usize, t: usize) -> u64
    requires { TalkerAt table.now k t × (p < 8) }
    ensures { result ≡ latency_out (decode table.now).settings p (stream_at k (decode table.now)) }
{
    let talker = table::cell_at(table, k, t);
    let class = streams::class_of(table, octets::get(talker, cell::PRIORITY, 1) / 32);
    let sum = octets::get(talker, cell::LATENCY, 4)
        + class_latency(table::port_at(table, p), class);
    if 4294967295 < sum {
        return 4294967295;
    }
    sum
}

// The entries of Table 35-12, which may be none.
#[derive(Clone, Copy)]
pub enum Entry {
    Filter = 1,
    Forward = 2,
}

// The entry from the column and the Listener.
#[tactic(auto, unfolding(crate::specs::Answers::column_shown, crate::specs::Answers::entry_shown, model::specs::Settling::entry_of, model::specs::Settling::is_ready))]
fn entry_of(column: Option<Column>, listener: Option<Listener>) -> Option<Entry>
    ensures { entry_shown result ≡ entry_of (column_shown column) (declared_of listener) }
{
    match column {
        None => listener.map(|_| Entry::Filter),
        Some(Column::Advertise) => match listener {
            Some(Listener::Ready) => Some(Entry::Forward),
            Some(Listener::ReadyFailed) => Some(Entry::Forward),
            Some(Listener::AskingFailed) => Some(Entry::Filter),
            None => Some(Entry::Filter),
        },
        Some(Column::Failed(_, _)) => Some(Entry::Filter),
    }
}

// The number of an entry: 0 none, 1 filter, 2 forward.
#[tactic(auto, using(crate::proofs::Entries::entry_numbers), unfolding(crate::specs::Answers::entry_shown, model::specs::Table::entry_number))]
fn entry_number(entry: Option<Entry>) -> u64
    ensures { result ≡ entry_number (entry_shown entry) }
{
    entry.map_or(0, |kind| kind as u64)
}

// The second that an entry's age is counted from: that of the result before, or this one where there was no entry; 0 of none.
pub fn age_of(res: &[u8], entry: Option<Entry>, time: u32) -> u64
    requires { length res.now ≡ result_size }
    ensures { (result ≡ age_kept (entry_shown entry) (age_of time (to_result res.now))) × (result < 2 ^ 32) }
{
    if entry.is_none() {
        return 0;
    }
    if res[result::ENTRY] == 0 {
        return (time / 100) as u64;
    }
    octets::get(res, result::AGE, 4)
}

// The number of what a column declares of a Talker: 0 none, 1 Advertise, 2 Failed.
#[tactic(auto, using(crate::proofs::Entries::talker_numbers), unfolding(crate::specs::Answers::talker_number))]
fn talker_number(talker: Option<TalkerAttribute>) -> u64
    ensures { result ≡ talker_number talker }
{
    talker.map_or(0, |kind| kind as u64)
}

// The fields of a result's column: what it declares of a Talker, latency out, Bridge ID and code.
fn store_column(
    res: &mut [u8],
    talker: Option<TalkerAttribute>,
    latency: u64,
    bridge: u64,
    code: u8,
)
    requires { length res.old ≡ result_size }
    ensures { res.new ≡ patch 0 in_result.entry (packed column_widths (talker_number talker ∷ latency ∷ bridge ∷ code ∷ [])) res.old }
{
    octets::put(res, result::COLUMN, 1, talker_number(talker));
    octets::put(res, result::LATENCY, 4, latency);
    octets::put(res, result::BRIDGE_ID, 8, bridge);
    octets::put(res, result::CODE, 1, code as u64);
}

#[tactic(auto, unfolding(crate::specs::Answers::column_shown, crate::specs::Answers::talker_number, crate::specs::Answers::column_numbers, model::specs::Table::column_number, model::specs::Table::column_bridge, model::specs::Table::column_code, model::specs::Settling::latency_kept))]
fn write_column(res: &mut [u8], column: Option<Column>, latency: u64)
    requires { length res.old ≡ result_size }
    ensures { res.new ≡ patch 0 in_result.entry (packed column_widths (column_numbers (column_shown column) latency)) res.old }
{
    match column {
        None => store_column(res, None, 0, 0, 0),
        Some(Column::Advertise) => store_column(
            res,
            Some(TalkerAttribute::Advertise),
            latency,
            0,
            0,
        ),
        Some(Column::Failed(id, code)) => store_column(
            res,
            Some(TalkerAttribute::Failed),
            latency,
            id,
            code,
        ),
    }
}

// The fields of a result's entry, which declares no Listener yet.
fn write_entry(res: &mut [u8], entry: Option<Entry>, age: u64)
    requires { length res.old ≡ result_size }
    ensures { res.new ≡ patch in_result.entry entry_size (packed entry_widths (entry_number (entry_shown entry) ∷ age ∷ 0 ∷ [])) res.old }
{
    octets::put(res, result::ENTRY, 1, entry_number(entry));
    octets::put(res, result::AGE, 4, age);
    octets::put(res, result::DECLARED, 1, 0);
}

// What a stream shows on a port, in the place of what it showed.
fn write_result(
    res: &mut [u8],
    column: Option<Column>,
    latency: u64,
    listener: Option<Listener>,
    time: u32,
)
    requires { length res.old ≡ result_size }
    ensures { res.new ≡ result_octets (shown_by (column_shown column) latency (declared_of listener) time (to_result res.old)) }
{
    let entry = entry_of(column, listener);
    let age = age_of(res, entry, time);
    write_column(res, column, latency);
    write_entry(res, entry, age);
}

// What stream k shows on the port at place p, where t is its Talker's place and common the own failure that it has on every port.
fn early_at(
    table: &mut [u8],
    k: usize,
    p: usize,
    t: usize,
    common: Option<CommonFailure>,
    time: u32,
)
    requires { FailureAt table.old k t common × (p < 8) }
    ensures { table.new ≡ encode (changed_at k (early_one p time) (decode table.old)) }
{
    let column = early_column(table, k, p, t, common);
    let latency = latency_out(table, k, p, t);
    let listener = Listener::from_octet(table::cell_at(table, k, p)[cell::LISTENER]);
    let r = table::result_in(table, k, p);
    write_result(
        &mut table[r..r + table::RESULT],
        column,
        latency,
        listener,
        time,
    );
}

// The fixed values that stream k has registered at place t, zeros without a Talker there, as its settled values.
fn copy_fixed(table: &mut [u8], k: usize, t: usize)
    requires { StandsOn table.old k t }
    ensures { table.new
        ≡ encode (with_settled k (fixed_of (source_in t (cell_at (stream_at k (decode table.old)) t))) (decode table.old)) }
{
    let from = table::cell_in(table, k, t) + cell::DESTINATION;
    let to = table::settled_in(table, k);
    table.copy_within(from..from + table::FIXED, to);
}

// What stream k shows on each of the eight ports, of which some may be none.
fn early_ports(table: &mut [u8], k: usize, t: usize, common: Option<CommonFailure>, time: u32)
    requires { FailureAt table.old k t common }
    ensures { table.new ≡ encode (changed_at k (early_to 8 time) (decode table.old)) }
{
    for p in 0..8 {
        early_at(table, k, p, t, common, time);
    }
}

// The settled values of stream k, and what it shows on every port before bandwidth is shared; those before it are done.
fn early_record(table: &mut [u8], k: usize, inbound: u8, time: u32)
    requires { Stands table.old k × SettledTo table.old k × (inbound ≡ set_to (is_inbound (scene_of (decode table.old)).inbound) 8) }
    ensures { table.new ≡ encode (changed_at k (λ sc. early sc time) (decode table.old)) }
{
    let t = streams::talker_port(table, k);
    copy_fixed(table, k, t);
    let taken = fanin::taken_settled(table, k);
    let common = fanin::common_failure(table, k, inbound, taken);
    early_ports(table, k, t, common, time);
}

// Stage 1 for every stream held.
pub fn early_all(table: &mut [u8], time: u32)
    requires { Laid table.old }
    ensures { table.new ≡ encode (early_all time (decode table.old)) }
{
    let inbound = fanin::inbound_ports(table);
    let count = table::count(table);
    for k in 0..count {
        early_record(table, k, inbound, time);
    }
}
