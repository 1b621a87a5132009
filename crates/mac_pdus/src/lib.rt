// The headers of the downlink signalling PDUs (EN 300 392-2, 21.4.3): MAC-RESOURCE with the null PDU, MAC-FRAG and MAC-END, and how many bits they have.
#![tactic(auto)]

ghost use Rattle.std.specs.Prelude.{◌≡◌, ◌≤◌, eqb, IfSome};
ghost use Rattle.mac_pdus.specs.Headers.{address_type, optional_length, address_length, chan_alloc_length, header_length};

mod air;

// ---- types

// The eight address types as the air carries them.
#[derive(Clone, Copy)]
pub enum Address {
    Null,
    Ssi(u32),
    EventLabel(u16),
    Ussi(u32),
    Smi(u32),
    SsiEventLabel(u32, u16),
    SsiUsageMarker(u32, u8),
    SmiEventLabel(u32, u16),
}

// A channel allocation element (21.5.2).
#[derive(Clone, Copy, PartialEq, Eq)]
pub struct ChanAllocElement {
    pub alloc_type: u8,
    pub ts_assigned: u8,
    pub ul_dl_assigned: u8,
    pub clch_permission: u8,
    pub cell_change_flag: u8,
    pub carrier_num: u16,
    pub ext_carrier_num_flag: u8,
    pub mon_pattern: u8,
    pub frame18_mon_pattern: Option<u8>,
}

// A MAC-RESOURCE header (21.4.3.1) as the air carries it; the null PDU is the one with address type 0.
// Kept: the last three fields stand flat, as in the table of 21.4.3.1 and in the Rust original. As one struct they would save four lines in the two
// conversions of `air`, and each place that speaks of one of them, some forty here and above, would name that struct as well.
// Kept: a flag is a number, here and in the other headers, as each field is one of so many bits: all are read, written, printed and put into words by
// their width alone, and question 6 refuses an offered flag above 1. As a bool each of these places would turn it into a number or back.
#[derive(Clone, Copy)]
pub struct ResourceHeader {
    pub fill_bits: u8,
    pub pos_of_grant: u8,
    pub encryption_mode: u8,
    pub random_access_flag: u8,
    pub length_ind: u8,
    pub address: Address,
    pub power_control_element: Option<u8>,
    pub slot_granting_element: Option<u8>,
    pub chan_alloc_element: Option<ChanAllocElement>,
}

// A MAC-FRAG header (21.4.3.2).
#[derive(Clone, Copy)]
pub struct MacFragDl {
    pub fill_bits: u8,
}

// A MAC-END header (21.4.3.3), without slot grant and channel allocation.
#[derive(Clone, Copy)]
pub struct MacEndDl {
    pub fill_bits: u8,
    pub pos_of_grant: u8,
    pub length_ind: u8,
}

#[derive(Clone, Copy)]
pub enum PduHeader {
    Resource(ResourceHeader),
    Frag(MacFragDl),
    End(MacEndDl),
}

// The kind of an offered address.
#[derive(Clone, Copy)]
pub enum AddressKind {
    Ssi,
    Gssi,
    Issi,
    Ussi,
    Smi,
}

// A MAC-RESOURCE header as a caller offers it; one without a kind of address has a label alone, or is the null PDU.
// Kept: the elements stand flat, as in `ResourceHeader`.
// Kept: the number stands beside an optional kind, since question 6 refuses a number without a kind: as one option of both it could not be offered.
#[derive(Clone, Copy)]
pub struct MacResource {
    pub fill_bits: u8,
    pub pos_of_grant: u8,
    pub encryption_mode: u8,
    pub random_access_flag: u8,
    pub length_ind: u8,
    pub address_kind: Option<AddressKind>,
    pub number: u32,
    pub event_label: Option<u16>,
    pub usage_marker: Option<u8>,
    pub power_control_element: Option<u8>,
    pub slot_granting_element: Option<u8>,
    pub chan_alloc_element: Option<ChanAllocElement>,
}

impl MacResource {
    // The null PDU.
    pub const NULL: MacResource = MacResource {
        fill_bits: 0,
        pos_of_grant: 0,
        encryption_mode: 0,
        random_access_flag: 0,
        length_ind: 2,
        address_kind: None,
        number: 0,
        event_label: None,
        usage_marker: None,
        power_control_element: None,
        slot_granting_element: None,
        chan_alloc_element: None,
    };
}

// ---- lengths

impl Address {
    // The address type.
    #[tactic(auto, unfolding(crate::specs::Headers::address_type))]
    pub fn addr_type(self) -> u8
        ensures { result ≡ address_type self }
    {
        match self {
            Address::Null => 0,
            Address::Ssi(_) => 1,
            Address::EventLabel(_) => 2,
            Address::Ussi(_) => 3,
            Address::Smi(_) => 4,
            Address::SsiEventLabel(_, _) => 5,
            Address::SsiUsageMarker(_, _) => 6,
            Address::SmiEventLabel(_, _) => 7,
        }
    }

    // Whether it is that of a null PDU: none.
    #[tactic(auto, unfolding(crate::specs::Headers::address_type))]
    pub fn is_null(self) -> bool
        ensures { result ≡ eqb (address_type self) 0 }
    {
        matches!(self, Address::Null)
    }

    // How many bits the address type and the address take.
    fn length(self) -> usize
        ensures { (result ≡ address_length self) × (result ≤ 37) }
    {
        match self {
            Address::Null => 3,
            Address::EventLabel(_) => 13,
            Address::Ssi(_) | Address::Ussi(_) | Address::Smi(_) => 27,
            Address::SsiUsageMarker(_, _) => 33,
            Address::SsiEventLabel(_, _) | Address::SmiEventLabel(_, _) => 37,
        }
    }
}

impl ChanAllocElement {
    // How many bits a channel allocation element takes: two more with the frame-18 pattern.
    fn length(self) -> usize
        ensures { (result ≡ chan_alloc_length self.frame18_mon_pattern) × (result ≤ 27) }
    {
        self.frame18_mon_pattern.map_or(25, |_| 27)
    }
}

// How many bits an optional element takes with its flag, from how many it takes itself.
fn with_flag(length: Option<usize>) -> usize
    requires { IfSome length (λ n. n ≤ 27) }
    ensures { (result ≡ optional_length (λ n. n) length) × (result ≤ 28) }
{
    length.map_or(1, |n| 1 + n)
}

impl ResourceHeader {
    // How many bits a MAC-RESOURCE header has.
    pub fn compute_header_len(self) -> usize
        ensures { (result ≡ header_length self) × (result ≤ 92) }
    {
        let before = 13 + self.address.length();
        if self.address.is_null() {
            return before;
        }
        before
            + with_flag(self.power_control_element.and(Some(4)))
            + with_flag(self.slot_granting_element.and(Some(8)))
            + with_flag(self.chan_alloc_element.map(ChanAllocElement::length))
    }
}
