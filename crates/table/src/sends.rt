// The places within what a port sends of a stream (docs/TABLE.md): the Applicants of its Advertise, its Failed and its Listener, each
// with what it declares behind it.
pub const ADVERTISING: usize = 0;

pub const ADVERTISED: usize = ADVERTISING + 1;

pub const FAILING: usize = ADVERTISED + OFFER;

pub const FAILED: usize = FAILING + 1;

pub const LISTENING: usize = FAILED + CODE + 1;

pub const LISTENED: usize = LISTENING + 1;

// Among the values of a Talker, in the order of a FirstValue; those of an Advertise end with the latency.
pub const DESTINATION: usize = 0;

pub const VLAN: usize = DESTINATION + 6;

pub const FRAME_SIZE: usize = VLAN + 2;

pub const FRAMES: usize = FRAME_SIZE + 2;

pub const PRIORITY: usize = FRAMES + 2;

pub const LATENCY: usize = PRIORITY + 1;

pub const OFFER: usize = LATENCY + 4;

pub const BRIDGE_ID: usize = OFFER;

pub const CODE: usize = BRIDGE_ID + 8;
