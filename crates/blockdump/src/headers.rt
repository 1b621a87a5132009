// Headers in words, by the names that EN 300 392-2 gives their fields (clauses 21.4.3 and 21.5). An element that is absent is left out.
use crate::grant::{MsGrant, Part, UsableSlots};
use mac_pdus::{Address, ChanAllocElement, MacEndDl, PduHeader, ResourceHeader};
use mac_reader::PlacedHeader;
use std::fmt;

// One more line of a header.
const LINE: &str = "\n           ";

// A value of another crate, which says nothing of printing.
#[derive(Clone, Copy)]
pub(crate) struct InWords<T>(pub(crate) T);

// "Code 63 starts a fragment."
#[derive(Clone, Copy)]
struct LengthIndication(u8);

impl fmt::Display for LengthIndication {
    fn fmt<W: fmt::Write>(&self, f: &mut fmt::Formatter<W>) -> fmt::Result {
        let code = self.0;
        let meaning = if code == 63 {
            "(starts a fragment)"
        } else {
            "octets"
        };
        write!(f, "length indication {code} {meaning}")
    }
}

// ---- addresses

impl fmt::Display for InWords<Address> {
    fn fmt<W: fmt::Write>(&self, f: &mut fmt::Formatter<W>) -> fmt::Result {
        match self.0 {
            Address::Null => write!(f, "null PDU"),
            Address::Ssi(n) => write!(f, "SSI: SSI {n} (0x{n:06x})"),
            Address::EventLabel(e) => write!(f, "event label: event label {e}"),
            Address::Ussi(n) => write!(f, "USSI: USSI {n} (0x{n:06x})"),
            Address::Smi(n) => write!(f, "SMI: SMI {n} (0x{n:06x})"),
            Address::SsiEventLabel(n, e) => {
                write!(f, "SSI + event label: SSI {n} (0x{n:06x}), event label {e}")
            }
            Address::SsiUsageMarker(n, m) => {
                write!(
                    f,
                    "SSI + usage marker: SSI {n} (0x{n:06x}), usage marker {m}"
                )
            }
            Address::SmiEventLabel(n, e) => {
                write!(f, "SMI + event label: SMI {n} (0x{n:06x}), event label {e}")
            }
        }
    }
}

// ---- elements

// How much is granted.
#[derive(Clone, Copy)]
struct Capacity {
    part: Part,
    count: usize,
}

impl fmt::Display for Capacity {
    fn fmt<W: fmt::Write>(&self, f: &mut fmt::Formatter<W>) -> fmt::Result {
        let count = self.count;
        match self.part {
            Part::FirstHalf => write!(f, "first half"),
            Part::SecondHalf => write!(f, "second half"),
            Part::Whole if count == 1 => write!(f, "1 slot"),
            Part::Whole => write!(f, "{count} slots"),
        }
    }
}

impl fmt::Display for UsableSlots {
    fn fmt<W: fmt::Write>(&self, f: &mut fmt::Formatter<W>) -> fmt::Result {
        let UsableSlots { first, last } = *self;
        if last <= first {
            return write!(f, "usable slot {first}");
        }
        let joint = if last - first == 1 { "and" } else { "to" };
        write!(f, "usable slots {first} {joint} {last}")
    }
}

// A grant, and what a mobile station derives from it: the usable slots, or the part of one.
impl fmt::Display for MsGrant {
    fn fmt<W: fmt::Write>(&self, f: &mut fmt::Formatter<W>) -> fmt::Result {
        let g = *self;
        write!(
            f,
            "grant {}",
            Capacity {
                part: g.part,
                count: g.count
            }
        )?;
        let Some(slots) = g.slots else {
            return write!(
                f,
                ", delay code {}: none that this scheduler sends",
                g.delay
            );
        };
        let of = match g.part {
            Part::FirstHalf => " first half of",
            Part::SecondHalf => " second half of",
            Part::Whole => "",
        };
        write!(f, " after {}:{of} {slots}", g.delay)
    }
}

impl fmt::Display for InWords<ChanAllocElement> {
    fn fmt<W: fmt::Write>(&self, f: &mut fmt::Formatter<W>) -> fmt::Result {
        let c = self.0;
        write!(
            f,
            "channel allocation element: allocation type {}",
            c.alloc_type
        )?;
        write!(f, ", timeslot assigned {}", c.ts_assigned)?;
        write!(f, ", up/downlink assigned {}", c.ul_dl_assigned)?;
        write!(f, "{LINE}  CLCH permission {}", c.clch_permission)?;
        write!(f, ", cell change flag {}", c.cell_change_flag)?;
        write!(f, ", carrier number {}", c.carrier_num)?;
        write!(
            f,
            "{LINE}  extended carrier numbering flag {}",
            c.ext_carrier_num_flag
        )?;
        write!(f, ", monitoring pattern {}", c.mon_pattern)?;
        if let Some(x) = c.frame18_mon_pattern {
            write!(f, ", frame 18 monitoring pattern {x}")?;
        }
        Ok(())
    }
}

// ---- headers

// The null PDU: "in a null all but the length 0 or absent".
impl fmt::Display for InWords<ResourceHeader> {
    fn fmt<W: fmt::Write>(&self, f: &mut fmt::Formatter<W>) -> fmt::Result {
        let r = self.0;
        let length = LengthIndication(r.length_ind);
        if r.address.is_null() {
            return write!(f, "null PDU, {length}");
        }
        write!(f, "MAC-RESOURCE, {length}")?;
        write!(f, "{LINE}fill bit indication {}", r.fill_bits)?;
        write!(f, ", position of grant {}", r.pos_of_grant)?;
        write!(f, ", encryption mode {}", r.encryption_mode)?;
        write!(f, ", random access flag {}", r.random_access_flag)?;
        write!(f, "{LINE}address type {}", InWords(r.address))?;
        if let Some(x) = r.power_control_element {
            write!(f, "{LINE}power control element {x}")?;
        }
        if let Some(octet) = r.slot_granting_element {
            let grant = MsGrant::from(octet);
            write!(f, "{LINE}slot granting element 0x{octet:02x}: {grant}")?;
        }
        if let Some(c) = r.chan_alloc_element {
            write!(f, "{LINE}{}", InWords(c))?;
        }
        Ok(())
    }
}

impl fmt::Display for InWords<MacEndDl> {
    fn fmt<W: fmt::Write>(&self, f: &mut fmt::Formatter<W>) -> fmt::Result {
        let e = self.0;
        write!(f, "MAC-END, {}", LengthIndication(e.length_ind))?;
        write!(f, ", fill bit indication {}", e.fill_bits)?;
        write!(f, ", position of grant {}", e.pos_of_grant)
    }
}

// A header behind its bit position.
impl fmt::Display for InWords<PlacedHeader> {
    fn fmt<W: fmt::Write>(&self, f: &mut fmt::Formatter<W>) -> fmt::Result {
        let PlacedHeader { at, header } = self.0;
        write!(f, "  bit {at:3}  ")?;
        match header {
            PduHeader::Resource(r) => write!(f, "{}", InWords(r)),
            PduHeader::Frag(x) => write!(f, "MAC-FRAG, fill bit indication {}", x.fill_bits),
            PduHeader::End(e) => write!(f, "{}", InWords(e)),
        }
    }
}
