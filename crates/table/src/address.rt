// The places within an address record (docs/TABLE.md, "What a port holds").
pub const REGISTERED: usize = 0;

pub const LEAVES: usize = REGISTERED + 1;

pub const SINCE: usize = LEAVES + 1;

pub const MAC: usize = SINCE + 4;
