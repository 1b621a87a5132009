// Document 01's sizes. specs/Sizes.antt has the sentence over each.
// Kept: each value stands there too, since a definition can't name a constant of src; each use is held to the definition's by a proof.
#![tactic(auto)]

pub const TIMESLOTS: usize = 4;

// The frames of a multiframe.
pub const FRAMES: usize = 18;

// How many numbers an address may have.
pub const ADDRESS_NUMBERS: u32 = 1 << 24;

// The places of a timeslot, and those of the queue.
pub const PER_TIMESLOT: usize = 16;

pub const QUEUE_PLACES: usize = TIMESLOTS * PER_TIMESLOT;

// No place, where one of a timeslot's places is named.
pub const NO_PLACE: u8 = 16;

// The octets of a cell, of a timeslot's cells, and of the store.
pub const CELL_OCTETS: usize = 256;

pub const TIMESLOT_OCTETS: usize = CELL_OCTETS * PER_TIMESLOT;

pub const STORE_OCTETS: usize = TIMESLOTS * TIMESLOT_OCTETS;

// The bits of the longest SDU.
pub const SDU_BITS: usize = 8 * CELL_OCTETS;

// The bits of a block, and its octets.
pub const BLOCK_WIDTH: usize = 268;

pub const BLOCK_OCTETS: usize = 34;

// The frames that a request searches, and the latest delay of a grant.
pub const FRAMES_SEARCHED: usize = 17;

pub const LATEST_DELAY: usize = 13;
