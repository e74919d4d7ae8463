// The places within a result (docs/TABLE.md, "Result").
pub const COLUMN: usize = 0;

pub const LATENCY: usize = COLUMN + 1;

pub const BRIDGE_ID: usize = LATENCY + 4;

pub const CODE: usize = BRIDGE_ID + 8;

pub const ENTRY: usize = CODE + 1;

pub const AGE: usize = ENTRY + 1;

pub const DECLARED: usize = AGE + 4;
