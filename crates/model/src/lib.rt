// The definitions of the bridge stand in specs/, the theorems about them in proofs/; here stand the constants and enums that the crates
// share.
#![tactic(auto)]

ghost use Rattle.std.specs.Prelude.{◌≡◌};

pub mod attribute;
pub mod event;
pub mod listener;
pub mod pdu;
pub mod refusal;

// The most streams that a bridge holds.
pub fn streams_held_at_most() -> usize
    ensures { result ≡ 64 }
{
    64
}
