// Which records start fragments, go on or wait: the PDUs of a block, and what it leaves in the queue.
ghost use Rattle.std.specs.Prelude.{◌≤◌, length};

use crate::memory::Memory;
use crate::named::Named;
use crate::record::{
    self, KIND, NUMBER, POWER_CONTROL, RECORD, RecordWords, SENT, SLOT_GRANTING, STARTED,
    USAGE_MARKER, WAITING,
};
use std::io;

// A record with power control, 4 bits more, and a channel allocation.
fn allocating(record: RecordWords) -> RecordWords {
    let mut w = record::allocating(record);
    w[POWER_CONTROL] = 4;
    w
}

// A record with a usage marker, 6 bits more, and a grant, 8 bits more.
fn granted(mut w: RecordWords) -> RecordWords {
    w[USAGE_MARKER] = 5;
    w[SLOT_GRANTING] = 17;
    w
}

// The headers of a block and where they stand.
fn headers(rt: &impl Print, block: &[u8]) -> io::Result<()> {
    if let Ok(b) = mac_reader::read_block(block) {
        for p in b.as_slice() {
            print!(rt; " at {} {};", p.at, Named(p.header))?;
        }
    }
    Ok(())
}

// A record that stays: its number, its kind and how much of it is sent; nothing for an empty place.
fn stays(rt: &impl Print, number: u32, kind: u32, sent: u32) -> io::Result<()> {
    if number == 0 {
        return Ok(());
    }
    print!(rt; " SSI {number}")?;
    if kind == WAITING {
        print!(rt; " waiting;")
    } else {
        print!(rt; " started, sent {sent};")
    }
}

// The block of a queue that begins with such records, `count` of them for timeslot 1, and what it leaves, two records at most. Word 224 is their
// number. Each SDU is all zero.
fn built(rt: &impl Print, text: &str, count: u32, records: &[u32]) -> io::Result<()>
    requires { length records.now ≤ 1472 }
{
    let mut m = Memory::new();
    m.station[224] = count;
    m.queue[..records.len()].copy_from_slice(records);
    let mut block = [0; 34];
    let _built = m.build(&mut block);
    print!(rt; "{text}")?;
    headers(rt, &block)?;
    print!(rt; " left {}:", m.station[224])?;
    let q = &m.queue;
    stays(rt, q[NUMBER], q[KIND], q[SENT])?;
    stays(rt, q[23 + NUMBER], q[23 + KIND], q[23 + SENT])?;
    println!(rt)
}

// 44 bits are left; header 74 waits; a record with 100 bits to be sent goes on behind it.
fn started_goes_on(rt: &impl Print) -> io::Result<()> {
    let records = [
        record::plain(WAITING, 1, 181, 0),
        allocating(record::plain(WAITING, 2, 0, 0)),
        record::plain(STARTED, 3, 300, 200),
    ];
    built(
        rt,
        "D7 started behind header 74:",
        3,
        records.as_flattened(),
    )
}

// 84 bits are left; header 88 waits; a MAC-END of 16 bits goes in behind it; header 43 in the 68 left does not start.
fn held_behind_an_end(rt: &impl Print) -> io::Result<()> {
    let records = [
        record::plain(WAITING, 1, 141, 0),
        granted(allocating(record::plain(WAITING, 2, 0, 0))),
        record::plain(STARTED, 3, 203, 200),
        record::plain(RECORD, 4, 26, 0),
    ];
    built(
        rt,
        "D7 MAC-END behind header 88:",
        4,
        records.as_flattened(),
    )
}

pub(crate) fn run(rt: &impl Print) -> io::Result<()> {
    started_goes_on(rt)?;
    held_behind_an_end(rt)
}
