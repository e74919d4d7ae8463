// Lengths of an MSRPDU in octets (01, "The PDU"): the longest PDU, and the FirstValue of each AttributeType; and those of MMRP.

pub const LONGEST: usize = 1500;

pub const ADVERTISE: usize = 25;

pub const FAILED: usize = 34;

pub const LISTENER: usize = 8;

pub const DOMAIN: usize = 4;

pub const SERVICE: usize = 1;

pub const MAC: usize = 6;
