// The values of helper functions.
use basic_slotgrant::basic_slotgrant_cap_alloc::BasicSlotgrantCapAlloc;
use basic_slotgrant::basic_slotgrant_granting_delay::BasicSlotgrantGrantingDelay;
use std::io;

// How many slots a capacity is taken for.
fn slots(rt: &impl Print, text: &str, c: BasicSlotgrantCapAlloc) -> io::Result<()> {
    println!(rt; "{text} {}", c.to_req_slotcount())
}

// The capacity code for so many slots, and how many it grants.
fn capacity(rt: &impl Print, text: &str, count: usize) -> io::Result<()> {
    let c = BasicSlotgrantCapAlloc::from_req_slotcount(count);
    println!(rt;
        "{text} capacity {}, {} slots",
        u8::from(c),
        c.to_req_slotcount()
    )
}

fn delay(rt: &impl Print, n: u8) -> io::Result<()> {
    let d = BasicSlotgrantGrantingDelay::DelayNOpportunities(n);
    println!(rt; "V5 into_raw of DelayNOpportunities({n}): {}", u8::from(d))
}

fn fill(rt: &impl Print, text: &str, total: usize, room: usize) -> io::Result<()> {
    println!(rt; "{text} {}", fillbits::compute_required(total, room))
}

pub(crate) fn run(rt: &impl Print) -> io::Result<()> {
    slots(
        rt,
        "V2 to_req_slotcount of capacity 0:",
        BasicSlotgrantCapAlloc::FirstSubslotGranted,
    )?;
    slots(
        rt,
        "V2 to_req_slotcount of capacity 15:",
        BasicSlotgrantCapAlloc::SecondSubslotGranted,
    )?;
    capacity(rt, "V3 from_req_slotcount of 69:", 69)?;
    capacity(rt, "V4 from_req_slotcount of 99:", 99)?;
    delay(rt, 13)?;
    delay(rt, 14)?;
    fill(
        rt,
        "V7 compute_required of 2^64 - 1 bits in 268:",
        usize::MAX,
        268,
    )?;
    fill(
        rt,
        "V7 compute_required of 2^64 - 2 bits in 2^64 - 1:",
        usize::MAX - 1,
        usize::MAX,
    )
}
