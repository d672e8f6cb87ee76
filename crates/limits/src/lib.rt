// The limits of junctions and plans (document 01, "The junction file" and "Judging a plan"; document 02), as specs/Limits.antt has them.
#![tactic(auto)]

// A junction file has at most so many bytes, streams, zones and counts.
pub const MOST_BYTES: usize = 16384;

pub const MOST_STREAMS: usize = 16;

pub const MOST_ZONES: usize = 64;

pub const MOST_COUNTS: usize = 128;

// Phases have the numbers 1 to at most this.
pub const MOST_PHASES: usize = 6;

// A cycle has at most so many seconds; one more stands for none.
pub const MOST_SECONDS: u16 = 180;

pub const NO_CYCLE: u16 = 181;

// The flow of a count in E/h.
pub const LEAST_FLOW: u16 = 1;

pub const GREATEST_FLOW: u16 = 9999;

// A period of the day, in a heading and in a count (document 02, 2026-04).
pub const LEAST_PERIOD: u8 = 1;

pub const GREATEST_PERIOD: u8 = 4;
