// Records as words: the places of those that are not 0, and the records that several rows queue.
// Kept: places and kinds by number, since the rows are about the C interface, whose callers write words of any content.

pub(crate) type RecordWords = [u32; 23];

pub(crate) const KIND: usize = 0;

pub(crate) const ADDRESS_KIND: usize = 1;

pub(crate) const NUMBER: usize = 2;

pub(crate) const POS_OF_GRANT: usize = 4;

pub(crate) const ENCRYPTION_MODE: usize = 5;

pub(crate) const EVENT_LABEL: usize = 7;

pub(crate) const USAGE_MARKER: usize = 8;

pub(crate) const POWER_CONTROL: usize = 9;

pub(crate) const SLOT_GRANTING: usize = 10;

pub(crate) const HAS_CHAN_ALLOC: usize = 11;

pub(crate) const TS_ASSIGNED: usize = 13;

pub(crate) const UL_DL_ASSIGNED: usize = 14;

pub(crate) const CARRIER_NUM: usize = 17;

pub(crate) const EXT_CARRIER_NUM_FLAG: usize = 18;

pub(crate) const MON_PATTERN: usize = 19;

pub(crate) const FRAME18_MON_PATTERN: usize = 20;

pub(crate) const BITS: usize = 21;

pub(crate) const SENT: usize = 22;

// The kinds of a record that is to be sent, waits to start fragments, or has started.
pub(crate) const RECORD: u32 = 2;

pub(crate) const WAITING: u32 = 3;

pub(crate) const STARTED: u32 = 4;

// A record with an SSI, a header of 43 bits and an SDU of so many bits, of which so many are sent.
pub(crate) fn plain(kind: u32, number: u32, bits: u32, sent: u32) -> RecordWords {
    let mut w = [0; 23];
    w[KIND] = kind;
    w[NUMBER] = number;
    w[BITS] = bits;
    w[SENT] = sent;
    w
}

// The record with a channel allocation, of pattern 0 with a frame-18 pattern: 27 bits more.
pub(crate) fn allocating(mut w: RecordWords) -> RecordWords {
    w[HAS_CHAN_ALLOC] = 1;
    w[TS_ASSIGNED] = 4;
    w[UL_DL_ASSIGNED] = 3;
    w[CARRIER_NUM] = 1000;
    w[FRAME18_MON_PATTERN] = 2;
    w
}
