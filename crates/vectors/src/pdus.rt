// Document 01, "Block": blocks read header by header, and headers written alone.
use mac_pdus::{AddressKind, ChanAllocElement, MacResource};
use show::{Hex, Shown};
use std::io;

// A block as the reader lists it: the number, and the headers with their bit positions.
pub(crate) fn read(rt: &impl Print, block: &[u8]) -> io::Result<()> {
    print!(rt; "block {}", Hex(block))?;
    match mac_reader::read_block(block) {
        Ok(b) => {
            println!(rt; " 0")?;
            for placed in b.as_slice() {
                println!(rt; "  at {}: {}", placed.at, Shown(placed.header))?;
            }
            Ok(())
        }
        Err(r) => println!(rt; " {}", u8::from(r)),
    }
}

// A header with an address of kind SSI and nothing else.
fn plain(length: u8, number: u32) -> MacResource {
    MacResource {
        length_ind: length,
        address_kind: Some(AddressKind::Ssi),
        number,
        ..MacResource::NULL
    }
}

// The reply of the header writer, and its buffer.
fn written(rt: &impl Print, at: usize, h: MacResource) -> io::Result<()> {
    let mut s = [0xffu8; 12];
    let reply = mac_header_writer::write_header(&mut s, at, h);
    println!(rt; "written at {at}: {} {}", Shown(reply), Hex(&s))
}

// A header with every part, 88 bits.
fn longest() -> MacResource {
    MacResource {
        fill_bits: 1,
        pos_of_grant: 1,
        encryption_mode: 0,
        random_access_flag: 1,
        length_ind: 11,
        address_kind: Some(AddressKind::Gssi),
        number: 0xabcdef,
        event_label: None,
        usage_marker: Some(62),
        power_control_element: Some(9),
        slot_granting_element: Some(0xad),
        chan_alloc_element: Some(ChanAllocElement {
            alloc_type: 2,
            ts_assigned: 9,
            ul_dl_assigned: 3,
            clch_permission: 1,
            cell_change_flag: 0,
            carrier_num: 1234,
            ext_carrier_num_flag: 0,
            mon_pattern: 0,
            frame18_mon_pattern: Some(2),
        }),
    }
}

// A header with a channel allocation of 25 bits, as the Rust wrote it in a block.
fn allocated() -> MacResource {
    MacResource {
        fill_bits: 1,
        chan_alloc_element: Some(ChanAllocElement {
            alloc_type: 2,
            ts_assigned: 5,
            ul_dl_assigned: 3,
            clch_permission: 1,
            cell_change_flag: 0,
            carrier_num: 0xabc,
            ext_carrier_num_flag: 0,
            mon_pattern: 1,
            frame18_mon_pattern: None,
        }),
        ..plain(9, 1)
    }
}

// The example block of document 01, the null PDU published in the source, a first fragment, and what is refused.
fn blocks(rt: &impl Print) -> io::Result<()> {
    let mut block = [0u8; 34];
    block[0] = 0x20;
    block[1] = 0x39;
    block[4] = 0x01;
    block[5] = 0x44;
    block[6] = 0x10;
    block[8] = 0x10;
    read(rt, &block)?;
    block[33] = 0x01;
    read(rt, &block)?;
    block[33] = 0x08;
    read(rt, &block)?;
    let mut null = [0u8; 34];
    null[1] = 0x10;
    null[2] = 0x80;
    read(rt, &null)?;
    null[1] = 0x08;
    read(rt, &null)?;
    read(rt, &null[1..])?;
    let mut parts = [0u8; 34];
    // MAC-END with fill, three octets, and then MAC-FRAG
    parts[0] = 0x70;
    parts[1] = 0x60;
    parts[2] = 0x80;
    parts[3] = 0x40;
    read(rt, &parts)?;
    // a type that is neither 00 nor 01
    parts[3] = 0x80;
    read(rt, &parts)
}

pub(crate) fn run(rt: &impl Print) -> io::Result<()> {
    blocks(rt)?;
    written(rt, 0, plain(63, 1))?;
    written(rt, 3, plain(7, 0xffffff))?;
    written(rt, 0, longest())?;
    written(rt, 9, longest())?;
    written(rt, 0, allocated())?;
    written(rt, 0, plain(0, 1))?;
    written(rt, 0, plain(7, 0x1000000))?;
    written(rt, 54, plain(7, 1))?;
    written(rt, usize::MAX, plain(7, 1))
}
