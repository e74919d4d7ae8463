// The places within a cell (docs/TABLE.md, "Cell").
pub const TALKER: usize = 0;

pub const CHANGED: usize = TALKER + 1;

pub const TALKER_LEAVES: usize = CHANGED + 1;

pub const TALKER_SINCE: usize = TALKER_LEAVES + 1;

pub const DESTINATION: usize = TALKER_SINCE + 4;

pub const VLAN: usize = DESTINATION + 6;

pub const FRAME_SIZE: usize = VLAN + 2;

pub const FRAMES: usize = FRAME_SIZE + 2;

pub const PRIORITY: usize = FRAMES + 2;

pub const LATENCY: usize = PRIORITY + 1;

pub const BRIDGE_ID: usize = LATENCY + 4;

pub const CODE: usize = BRIDGE_ID + 8;

pub const FAILURE_END: usize = CODE + 1;

// the latency of the join that made the registration
pub const LATENCY_AT_FIRST: usize = FAILURE_END;

pub const LISTENER: usize = LATENCY_AT_FIRST + 4;

pub const LISTENER_LEAVES: usize = LISTENER + 1;

pub const LISTENER_SINCE: usize = LISTENER_LEAVES + 1;

// How many octets they take: leaving with its time, alone and behind the changed mark; a failure; a Talker, a Listener.
pub const LEAVING: usize = DESTINATION - TALKER_LEAVES;

pub const MARKS: usize = DESTINATION - CHANGED;

pub const FAILURE: usize = FAILURE_END - BRIDGE_ID;

pub const TALKER_PART: usize = LISTENER - TALKER;

pub const LISTENER_PART: usize = LISTENER_SINCE + 4 - LISTENER;
