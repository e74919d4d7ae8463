// The places within a port's settings (docs/TABLE.md, "Settings").
pub const FLAGS: usize = 0;

pub const OVERHEAD: usize = FLAGS + 1;

pub const LARGEST: usize = OVERHEAD + 1;

pub const LIMIT_A: usize = LARGEST + 2;

pub const LIMIT_B: usize = LIMIT_A + 5;

pub const LATENCY_A: usize = LIMIT_B + 5;

pub const LATENCY_B: usize = LATENCY_A + 4;
