// Two channel allocations in one frame, and an entry with a second half and no first.
use crate::memory::Memory;
use crate::named::Named;
use crate::record;
use mac_pdus::PduHeader;
use std::io;

// A record with a channel allocation is queued for timeslot 1; its number as SSI is given.
fn queued(rt: &impl Print, m: &mut Memory, number: u32) -> io::Result<()> {
    let words = record::allocating(record::plain(record::RECORD, number, 0, 0));
    let n = m.enqueue(&words, &[0]);
    println!(rt; "D1 SSI {number} with channel allocation queued for timeslot 1: {n}")
}

// The headers of a block, and which of them have a channel allocation.
fn headers(rt: &impl Print, block: &[u8]) -> io::Result<()> {
    let Ok(b) = mac_reader::read_block(block) else {
        return println!(rt; "D1 timeslot 1, headers: 0");
    };
    println!(rt; "D1 timeslot 1, headers: {}", b.as_slice().len())?;
    for p in b.as_slice() {
        print!(rt; "D1 timeslot 1, at {}: {}", p.at, Named(p.header))?;
        if let PduHeader::Resource(r) = p.header
            && r.chan_alloc_element.is_some()
        {
            print!(rt; " with channel allocation")?;
        }
        println!(rt)?;
    }
    Ok(())
}

fn two_channel_allocations(rt: &impl Print) -> io::Result<()> {
    let mut m = Memory::new();
    let mut block = [0; 34];
    queued(rt, &mut m, 1)?;
    queued(rt, &mut m, 2)?;
    let _built = m.build(&mut block);
    headers(rt, &block)?;
    let _next = bs_sched_c::bs_sched_advance(&mut m.station);
    let b = m.build(&mut block);
    println!(rt; "D1 timeslot 2, blocks: {}", b.built)
}

// Usage and owners of the slot 0/1/1/1.
fn usage(rt: &impl Print, text: &str, station: &[u32]) -> io::Result<()> {
    let u = bs_sched_c::bs_sched_usage(station, 0, 1, 1, 1);
    let o = bs_sched_c::bs_sched_slot_owner(station, 0, 1, 1, 1);
    println!(rt; "{text} usage {}, owners {}", u.refusal, o.refusal)
}

// Words 4 and 5 are the owners of the halves of timeslot 1 in frame 1.
fn second_half(rt: &impl Print) -> io::Result<()> {
    let mut station = Memory::new().station;
    station[4] = 4;
    station[5] = 4;
    usage(rt, "R3 first and second half:", &station)?;
    station[4] = 0;
    usage(rt, "R3 second half without a first:", &station)
}

pub(crate) fn run(rt: &impl Print) -> io::Result<()> {
    two_channel_allocations(rt)?;
    second_half(rt)
}
