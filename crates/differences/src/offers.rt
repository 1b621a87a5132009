// Records offered to the queue of a new station, as words.
ghost use Rattle.std.specs.Prelude.{◌<◌};

use crate::memory::{self, Memory};
use crate::record::{
    self, ADDRESS_KIND, CARRIER_NUM, ENCRYPTION_MODE, EVENT_LABEL, EXT_CARRIER_NUM_FLAG,
    FRAME18_MON_PATTERN, MON_PATTERN, POS_OF_GRANT, RECORD, RecordWords, UL_DL_ASSIGNED,
};
use std::io;

// What the queue answers, and whether state, queue or store are altered.
fn offered(rt: &impl Print, text: &str, record: RecordWords) -> io::Result<()> {
    let mut m = Memory::new();
    let before = m;
    let n = m.enqueue(&record, &[0xa5]);
    print!(rt; "{text} {n}")?;
    memory::compared(rt, m == before)
}

// A record with a word changed.
fn with(mut record: RecordWords, place: usize, word: u32) -> RecordWords
    requires { place < 23 }
{
    record[place] = word;
    record
}

pub(crate) fn run(rt: &impl Print) -> io::Result<()> {
    // An SDU of one octet.
    let plain = record::plain(RECORD, 1, 8, 0);
    offered(rt, "R9 no label queued:", plain)?;
    offered(rt, "R9 label queued:", with(plain, EVENT_LABEL, 6))?;
    offered(
        rt,
        "R10 encryption 1 queued:",
        with(plain, ENCRYPTION_MODE, 1),
    )?;
    offered(rt, "R14 position 2 queued:", with(plain, POS_OF_GRANT, 2))?;
    offered(
        rt,
        "R15 address kind 3 queued:",
        with(plain, ADDRESS_KIND, 3),
    )?;
    let allocating = record::allocating(plain);
    offered(rt, "R11 direction 3 queued:", allocating)?;
    offered(
        rt,
        "R11 direction 0 queued:",
        with(allocating, UL_DL_ASSIGNED, 0),
    )?;
    offered(
        rt,
        "R11 extended carrier queued:",
        with(allocating, EXT_CARRIER_NUM_FLAG, 1),
    )?;
    offered(
        rt,
        "R12 pattern 0 without frame-18 pattern queued:",
        with(allocating, FRAME18_MON_PATTERN, 0),
    )?;
    offered(
        rt,
        "R13 pattern 1 with frame-18 pattern queued:",
        with(allocating, MON_PATTERN, 1),
    )?;
    offered(
        rt,
        "R14 carrier 4096 queued:",
        with(allocating, CARRIER_NUM, 4096),
    )
}
