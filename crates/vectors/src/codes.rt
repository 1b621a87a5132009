// Document 01, "Request and grant": the tables of codes, and the grant octet.
use basic_slotgrant::BasicSlotgrant;
use reservation_requirement::ReservationRequirement;
use slot_codes::{capacity_for, slots_granted};
use std::io;

// What a requirement code asks for, and the capacity that answers it.
fn requirement(rt: &impl Print, code: u8) -> io::Result<()> {
    let Ok(r) = ReservationRequirement::try_from(code) else {
        return println!(rt; "requirement {code} is no code");
    };
    let wanted = r.to_req_slotcount();
    let first = capacity_for(code, false);
    let second = capacity_for(code, true);
    println!(rt;
        "requirement {code} wants {wanted} and is granted capacity {first} or, in the second half, {second}"
    )
}

// What a capacity code grants.
fn capacity(rt: &impl Print, code: u8) -> io::Result<()> {
    println!(rt; "capacity {code} grants {}", slots_granted(code))
}

// A grant octet, and the octet of the grant that it is read as.
fn octet(rt: &impl Print, x: u8) -> io::Result<()> {
    let grant = BasicSlotgrant::from(x);
    let capacity = u8::from(grant.capacity_allocation);
    let delay = u8::from(grant.granting_delay);
    println!(rt;
        "octet {x:02x} is capacity {capacity} delay {delay} and is written {:02x}",
        u8::from(grant)
    )
}

pub(crate) fn run(rt: &impl Print) -> io::Result<()> {
    for code in 0..17 {
        requirement(rt, code)?;
    }
    for code in 0..16 {
        capacity(rt, code)?;
    }
    for x in [0x00, 0x10, 0xad, 0xf0, 0x1e, 0xff] {
        octet(rt, x)?;
    }
    Ok(())
}
