// The places within what a port sends by itself (docs/TABLE.md): an Applicant for each of its 16 Domain values, whether its LeaveAll is
// active, and the clock at which the LeaveAll timer was started.
pub const APPLICANTS: usize = 0;

pub const LEAVE_ALL: usize = APPLICANTS + 16;

pub const TIMER: usize = LEAVE_ALL + 1;

// LeaveAllTime, in hundredths of a second: after so long the timer has run out.
pub const LEAVE_ALL_TIME: u64 = 1000;
