// The station and the queue as words of 32 bits, for callers that have no Rattle types (the layout: specs/Words.antt).
#![tactic(auto)]

pub mod queue;
pub mod station;
pub mod word;

use sizes::{FRAMES, QUEUE_PLACES, TIMESLOTS};

// The words of a time, of an entry of the table, and of a row.
pub const TIME_WORDS: usize = 4;

pub const ENTRY_WORDS: usize = 3;

pub const ROW_WORDS: usize = ENTRY_WORDS * FRAMES;

// Where in a station's words the table begins, the counters of usage markers, and the numbers of records queued; and its words.
pub const TABLE: usize = TIME_WORDS;

pub const COUNTERS: usize = TABLE + ROW_WORDS * TIMESLOTS;

pub const COUNTS: usize = COUNTERS + TIMESLOTS;

pub const STATION_WORDS: usize = COUNTS + TIMESLOTS;

// The words of a channel allocation, of a record, and of the queue; and where in a record's words its allocation begins.
pub const ALLOC_WORDS: usize = 10;

pub const RECORD_WORDS: usize = 23;

pub const RECORD_ALLOC: usize = 11;

pub const QUEUE_WORDS: usize = RECORD_WORDS * QUEUE_PLACES;
