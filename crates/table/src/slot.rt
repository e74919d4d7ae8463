// The places within a Domain value (docs/TABLE.md, "What a port holds").
pub const HELD: usize = 0;

pub const LEAVES: usize = HELD + 1;

pub const SINCE: usize = LEAVES + 1;

pub const VLAN: usize = SINCE + 4;
