// What an advance makes of the Applicants of a stream on a port, and of the port's LeaveAll timer (02, xiv): Join! of what was decided,
// with the octets decided, Lv! of what was not.
#![tactic(auto)]

ghost use Rattle.std.specs.Prelude.{◌≡◌, true, ◌++◌, suc, ◌+◌, ◌≤◌, length};
ghost use Rattle.model.specs.Layout.{failed_size, sender_size, sends_size};
ghost use Rattle.model.specs.State.{Fixed, Result};
ghost use Rattle.model.specs.Sending.{sends_octets, to_sends, sender_octets, to_sender};
ghost use Rattle.model.specs.Settling.{declare_sends};
ghost use Rattle.model.specs.Laid.{LaidSends, LaidSender};
ghost use Rattle.applicants.specs.Octets.{octet};
ghost use Rattle.declaring.specs.Octets.{same_octets, declared_state, declared_octets, withdrawn_octets, decided_octets, Offered, Given, Told, timed};

use applicants::Applicant;

// Whether the values decided are those last declared: by hand and with no early exit, so that the compiler takes many octets at a
// time. By `==` an advance with 64 streams takes a tenth more.
#[tactic(auto, using(crate::proofs::Comparing::same_next, crate::proofs::Comparing::same_done))]
fn is_same(values: &[u8], last: &[u8]) -> bool
    requires { length last.now ≡ length values.now }
    ensures { result ≡ same_octets values.now last.now }
{
    let mut same = true;
    for (i, value) in values.iter().enumerate() {
        same = same & (*value == last[i]);
    }
    same
}

// The state after Join!, where the content is the same, or in VP; else after New!.
#[tactic(auto, unfolding(crate::specs::Octets::declared_state, octets::specs::Pick::pick))]
fn declared_state(state: Applicant, same: bool) -> Applicant
    ensures { octet result ≡ declared_state same (octet state) }
{
    match state {
        Applicant::None | Applicant::Vp => state.joined(),
        _ if same => state.joined(),
        _ => state.renewed(),
    }
}

// A machine declares the values.
#[tactic(auto, using(crate::proofs::Machines::declared_put, crate::proofs::Machines::declared_read))]
fn declare(machine: &mut [u8], values: &[u8])
    requires { length machine.old ≡ suc (length values.now) }
    ensures { machine.new ≡ declared_octets values.now machine.old }
{
    let same = is_same(values, &machine[1..]);
    let state = Applicant::from(machine[0]);
    machine[0] = declared_state(state, same) as u8;
    machine[1..].copy_from_slice(values);
}

// A machine declares nothing: it has an unsent Lv, or goes.
#[tactic(auto, using(applicants::proofs::Octets::step_read, applicants::proofs::Octets::none_read, crate::proofs::Machines::all_cleared, crate::proofs::Machines::state_put), unfolding(crate::specs::Octets::withdrawn_octets, crate::specs::Octets::left_octets, octets::specs::Pick::pick))]
fn withdraw(machine: &mut [u8])
    requires { 1 ≤ length machine.old }
    ensures { machine.new ≡ withdrawn_octets machine.old }
{
    let state = Applicant::from(machine[0]);
    if state.is_none() {
        return;
    }
    let next = state.left();
    if next.is_none() {
        let n = machine.len();
        octets::clear(machine, 0, n);
        return;
    }
    machine[0] = next as u8;
}

// A machine after it was decided whether it declares the values; a flag beside them, since they are at hand in either case.
#[tactic(auto, unfolding(crate::specs::Octets::decided_octets, octets::specs::Pick::pick))]
fn decide(machine: &mut [u8], values: &[u8], declared: bool)
    requires { length machine.old ≡ suc (length values.now) }
    ensures { machine.new ≡ decided_octets declared values.now machine.old }
{
    if declared {
        declare(machine, values);
        return;
    }
    withdraw(machine);
}

// What a port sends of a stream, by the Talker's values, the number of its column and that of the Listener declared.
pub fn declare_all(sends: &mut [u8], values: &[u8], column: u8, listener: u8)
    requires { LaidSends sends.old × (length sends.old ≡ sends_size) × (length values.now ≡ failed_size) }
    ensures { (f : Fixed) (r : Result) → Offered values.now column listener f r
        → sends.new ≡ sends_octets (declare_sends f r (to_sends sends.old)) }
{
    decide(
        &mut sends[0..table::sends::FAILING],
        &values[0..table::sends::OFFER],
        column == 1,
    );
    decide(
        &mut sends[table::sends::FAILING..table::sends::LISTENING],
        values,
        column == 2,
    );
    let ready: [u8; 1] = [listener];
    decide(
        &mut sends[table::sends::LISTENING..table::SENDS],
        &ready,
        listener != 0,
    );
}

// Whether a machine is left as it is: Join! does not move it, and it has the values, which come in two parts; or Lv! does not.
// The flag stands beside the values as in decide: they are at hand in either case.
fn is_steady(machine: &[u8], first: &[u8], rest: &[u8], declared: bool) -> bool
    requires { length machine.now ≡ suc (length first.now + length rest.now) }
    ensures { result ≡ true → decided_octets declared (first.now ++ rest.now) machine.now ≡ machine.now }
{
    let state = Applicant::from(machine[0]);
    if declared {
        if state.joined() as u8 != machine[0] {
            return false;
        }
        let n = 1 + first.len();
        let e = n + rest.len();
        return is_same(first, &machine[1..n]) & is_same(rest, &machine[n..e]);
    }
    state.left() as u8 == machine[0]
}

// Whether all that a port sends of a stream is left as it is, by the stream's settled values and its result there.
pub fn stays(sends: &[u8], settled: &[u8], res: &[u8]) -> bool
    requires { Given sends.now settled.now res.now }
    ensures { result ≡ true → (f : Fixed) (x : Result) → Told settled.now res.now f x
        → sends.now ≡ sends_octets (declare_sends f x (to_sends sends.now)) }
{
    let column = res[table::result::COLUMN];
    let listener = res[table::result::DECLARED];
    is_steady(
        &sends[0..table::sends::FAILING],
        settled,
        &res[table::result::LATENCY..table::result::BRIDGE_ID],
        column == 1,
    ) && is_steady(
        &sends[table::sends::FAILING..table::sends::LISTENING],
        settled,
        &res[table::result::LATENCY..table::result::ENTRY],
        column == 2,
    ) && is_steady(
        &sends[table::sends::LISTENING..table::SENDS],
        &settled[0..0],
        &res[table::result::DECLARED..table::RESULT],
        listener != 0,
    )
}

// leavealltimer!, where the timer has run out.
pub fn time(sender: &mut [u8], clock: u32)
    requires { LaidSender sender.old × (length sender.old ≡ sender_size) }
    ensures { sender.new ≡ sender_octets (timed clock (to_sender sender.old)) }
{
    let start = octets::get(sender, table::sender::TIMER, 4);
    if start + table::sender::LEAVE_ALL_TIME <= clock as u64 {
        octets::put(sender, table::sender::LEAVE_ALL, 1, 1);
        octets::put(sender, table::sender::TIMER, 4, clock as u64);
    }
}
