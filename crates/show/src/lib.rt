// Values as the programs that show results print them.
#![tactic(auto)]

use mac_pdus::{Address, ChanAllocElement, PduHeader, ResourceHeader};
use questions::Refusal;
use std::fmt;
use tdma_time::TdmaTime;
use uplink::{AccessAssignUlUsage, Grant};

// Octets in hexadecimal, two digits each.
#[derive(Clone, Copy)]
pub struct Hex<'a>(pub &'a [u8]);

impl<'a> fmt::Display for Hex<'a> {
    fn fmt<W: fmt::Write>(&self, f: &mut fmt::Formatter<W>) -> fmt::Result {
        for octet in self.0 {
            write!(f, "{octet:02x}")?;
        }
        Ok(())
    }
}

// A value, or - for none.
#[derive(Clone, Copy)]
pub struct OrDash<T>(pub Option<T>);

impl<T: fmt::Display> fmt::Display for OrDash<T> {
    fn fmt<W: fmt::Write>(&self, f: &mut fmt::Formatter<W>) -> fmt::Result {
        match &self.0 {
            Some(x) => write!(f, "{x}"),
            None => write!(f, "-"),
        }
    }
}

// A value of another crate, which says nothing of printing.
#[derive(Clone, Copy)]
pub struct Shown<T>(pub T);

// Document 01, "Time": h m f t.
impl fmt::Display for Shown<TdmaTime> {
    fn fmt<W: fmt::Write>(&self, f: &mut fmt::Formatter<W>) -> fmt::Result {
        let x = self.0;
        write!(f, "{} {} {} {}", x.h, x.m, x.f, x.t)
    }
}

// A reply: 0 and its value, or the number of the refusal.
impl<T: fmt::Display> fmt::Display for Shown<Result<T, Refusal>> {
    fn fmt<W: fmt::Write>(&self, f: &mut fmt::Formatter<W>) -> fmt::Result {
        match &self.0 {
            Ok(x) => write!(f, "0 {x}"),
            Err(r) => write!(f, "{}", u8::from(*r)),
        }
    }
}

// Capacity, delay, marker or 0.
impl fmt::Display for Shown<Grant> {
    fn fmt<W: fmt::Write>(&self, f: &mut fmt::Formatter<W>) -> fmt::Result {
        let g = self.0;
        let marker = g.usage_marker.unwrap_or(0);
        write!(f, "{} {} {marker}", g.capacity, g.delay)
    }
}

// The usage's number, and the marker behind it where there is one.
impl fmt::Display for Shown<AccessAssignUlUsage> {
    fn fmt<W: fmt::Write>(&self, f: &mut fmt::Formatter<W>) -> fmt::Result {
        let usage = self.0;
        write!(f, "{}", usage.number())?;
        if let AccessAssignUlUsage::Traffic(marker) = usage {
            write!(f, " {marker}")?;
        }
        Ok(())
    }
}

// The address type, and what follows it.
impl fmt::Display for Shown<Address> {
    fn fmt<W: fmt::Write>(&self, f: &mut fmt::Formatter<W>) -> fmt::Result {
        match self.0 {
            Address::Null => write!(f, "null"),
            Address::Ssi(n) => write!(f, "SSI {n}"),
            Address::EventLabel(e) => write!(f, "label {e}"),
            Address::Ussi(n) => write!(f, "USSI {n}"),
            Address::Smi(n) => write!(f, "SMI {n}"),
            Address::SsiEventLabel(n, e) => write!(f, "SSI {n} label {e}"),
            Address::SsiUsageMarker(n, m) => write!(f, "SSI {n} marker {m}"),
            Address::SmiEventLabel(n, e) => write!(f, "SMI {n} label {e}"),
        }
    }
}

impl fmt::Display for Shown<ChanAllocElement> {
    fn fmt<W: fmt::Write>(&self, f: &mut fmt::Formatter<W>) -> fmt::Result {
        let c = self.0;
        write!(f, "{} {} {}", c.alloc_type, c.ts_assigned, c.ul_dl_assigned)?;
        write!(f, " {} {}", c.clch_permission, c.cell_change_flag)?;
        write!(f, " {} {}", c.carrier_num, c.mon_pattern)?;
        write!(f, " {}", OrDash(c.frame18_mon_pattern))
    }
}

impl fmt::Display for Shown<ResourceHeader> {
    fn fmt<W: fmt::Write>(&self, f: &mut fmt::Formatter<W>) -> fmt::Result {
        let r = self.0;
        write!(
            f,
            "MAC-RESOURCE fill {} position {}",
            r.fill_bits, r.pos_of_grant
        )?;
        write!(
            f,
            " encryption {} random access {}",
            r.encryption_mode, r.random_access_flag
        )?;
        write!(f, " length {} {}", r.length_ind, Shown(r.address))?;
        write!(f, " power {}", OrDash(r.power_control_element))?;
        write!(f, " grant {}", OrDash(r.slot_granting_element))?;
        write!(f, " allocation {}", OrDash(r.chan_alloc_element.map(Shown)))
    }
}

impl fmt::Display for Shown<PduHeader> {
    fn fmt<W: fmt::Write>(&self, f: &mut fmt::Formatter<W>) -> fmt::Result {
        match self.0 {
            PduHeader::Resource(r) => write!(f, "{}", Shown(r)),
            PduHeader::Frag(x) => write!(f, "MAC-FRAG fill {}", x.fill_bits),
            PduHeader::End(x) => {
                write!(
                    f,
                    "MAC-END fill {} position {} length {}",
                    x.fill_bits, x.pos_of_grant, x.length_ind
                )
            }
        }
    }
}
