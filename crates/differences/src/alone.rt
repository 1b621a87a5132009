// Headers that the header writer refuses.
use mac_pdus::{AddressKind, ChanAllocElement, MacResource};
use std::io;

// The reply of the header writer, and whether its buffer is altered.
fn written(rt: &impl Print, text: &str, h: MacResource) -> io::Result<()> {
    let mut s = [0xff; 12];
    let number = questions::number_of(mac_header_writer::write_header(&mut s, 0, h));
    let left = if s == [0xff; 12] {
        "nothing altered"
    } else {
        "written"
    };
    println!(rt; "{text} {number}, {left}")
}

// A header of nine octets with an SSI and a channel allocation of such a direction and extended carrier.
fn allocating(direction: u8, extended: u8) -> MacResource {
    let c = ChanAllocElement {
        alloc_type: 0,
        ts_assigned: 4,
        ul_dl_assigned: direction,
        clch_permission: 0,
        cell_change_flag: 0,
        carrier_num: 1000,
        ext_carrier_num_flag: extended,
        mon_pattern: 0,
        frame18_mon_pattern: Some(1),
    };
    MacResource {
        chan_alloc_element: Some(c),
        ..addressed(AddressKind::Ssi)
    }
}

// A header of nine octets with such an address.
fn addressed(kind: AddressKind) -> MacResource {
    MacResource {
        length_ind: 9,
        address_kind: Some(kind),
        number: 1,
        ..MacResource::NULL
    }
}

// The header with a usage marker.
fn marked(h: MacResource) -> MacResource {
    MacResource {
        usage_marker: Some(4),
        ..h
    }
}

pub(crate) fn run(rt: &impl Print) -> io::Result<()> {
    written(rt, "R11 direction 3 written alone:", allocating(3, 0))?;
    written(rt, "R11 direction 0 written alone:", allocating(0, 0))?;
    written(rt, "R11 extended carrier written alone:", allocating(3, 1))?;
    written(
        rt,
        "R20 SSI with a marker written alone:",
        marked(addressed(AddressKind::Ssi)),
    )?;
    written(
        rt,
        "R20 USSI with a marker written alone:",
        marked(addressed(AddressKind::Ussi)),
    )?;
    written(
        rt,
        "R20 SMI with a marker written alone:",
        marked(addressed(AddressKind::Smi)),
    )?;
    written(
        rt,
        "R20 marker without an address written alone:",
        marked(MacResource {
            length_ind: 9,
            ..MacResource::NULL
        }),
    )?;
    let labelled = MacResource {
        event_label: Some(5),
        ..addressed(AddressKind::Ssi)
    };
    written(rt, "R20 label and marker written alone:", marked(labelled))?;
    written(rt, "R32 null PDU written alone:", MacResource::NULL)?;
    let powered = MacResource {
        power_control_element: Some(3),
        ..MacResource::NULL
    };
    written(
        rt,
        "R32 null PDU with power control written alone:",
        powered,
    )
}
