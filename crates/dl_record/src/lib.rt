// A queued record, and questions 5 to 7.
#![tactic(auto)]

ghost use Rattle.std.specs.Prelude.{◌≡◌};
ghost use Rattle.mac_pdus.specs.Legal.{legal_queued, legal_offered};
ghost use Rattle.dl_record.specs.Kind.{is_grant_or_ack, is_record, is_underway, is_started};
ghost use Rattle.dl_record.specs.Record.{empty_header, grant_record, ack_record, offered_record, address_kind_of, resource_of};
ghost use Rattle.dl_record.specs.Questions.{legal_address, present_sdu};

use mac_pdus::{AddressKind, ChanAllocElement, MacResource};
use sizes::{ADDRESS_NUMBERS, SDU_BITS};

#[derive(Clone, Copy, PartialEq, Eq)]
pub enum Kind {
    Grant,
    Ack,
    Record,
    Waiting,
    Started,
}

// Kept: methods where `==` would do for two of them: one goes to `take_records` of dl_build as a function, and each has the name of its definition.
impl Kind {
    // Whether a record waits to be merged into another.
    pub fn is_grant_or_ack(self) -> bool
        ensures { result ≡ is_grant_or_ack self }
    {
        matches!(self, Kind::Grant | Kind::Ack)
    }

    // Whether a record is neither waiting, that is tried in an earlier block, nor started, nor to be merged itself.
    pub fn is_record(self) -> bool
        ensures { result ≡ is_record self }
    {
        self == Kind::Record
    }

    // Whether a record is taken before the others.
    pub fn is_underway(self) -> bool
        ensures { result ≡ is_underway self }
    {
        matches!(self, Kind::Waiting | Kind::Started)
    }

    // Whether a record's first bits are sent.
    pub fn is_started(self) -> bool
        ensures { result ≡ is_started self }
    {
        self == Kind::Started
    }
}

// A MAC-RESOURCE header without address, length and fill.
// Kept: the flags are numbers, since question 6 refuses each content above 1, and question 1 asks it of whatever a caller stored.
#[derive(Clone, Copy, PartialEq, Eq)]
pub struct QueuedHeader {
    pub pos_of_grant: u8,
    pub encryption_mode: u8,
    pub random_access_flag: u8,
    pub event_label: Option<u16>,
    pub usage_marker: Option<u8>,
    pub power_control_element: Option<u8>,
    pub slot_granting_element: Option<u8>,
    pub chan_alloc_element: Option<ChanAllocElement>,
}

impl QueuedHeader {
    pub const EMPTY: QueuedHeader = QueuedHeader {
        pos_of_grant: 0,
        encryption_mode: 0,
        random_access_flag: 0,
        event_label: None,
        usage_marker: None,
        power_control_element: None,
        slot_granting_element: None,
        chan_alloc_element: None,
    };
}

// Who a record is for.
// Kept: `kind` is a number, since question 5 refuses each content above 2, and question 1 asks it of whatever a caller stored; an enum would ask callers
// for that first.
#[derive(Clone, Copy, PartialEq, Eq)]
pub struct TetraAddress {
    pub kind: u8,
    pub number: u32,
}

impl TetraAddress {
    // Question 5.
    #[tactic(auto, unfolding(crate::specs::Questions::legal_address))]
    pub fn is_legal(self) -> bool
        ensures { result ≡ legal_address self.kind self.number }
    {
        (self.kind <= 2) & (self.number < ADDRESS_NUMBERS)
    }
}

impl From<TetraAddress> for AddressKind {
    ghost from_gives = { λ address kind. kind ≡ address_kind_of address.kind };

    fn from(address: TetraAddress) -> AddressKind {
        match address.kind {
            0 => AddressKind::Ssi,
            1 => AddressKind::Gssi,
            _ => AddressKind::Issi,
        }
    }
}

// Kept: `sent` stands beside `kind`, not within `Started`: question 1 refuses a record that has sent bits and is not started, so one may be stored.
#[derive(Clone, Copy, PartialEq, Eq)]
pub struct Record {
    pub kind: Kind,
    pub address: TetraAddress,
    pub tag: Option<u16>,
    pub header: QueuedHeader,
    pub bits: u16,
    pub sent: u16,
}

impl Record {
    pub const EMPTY: Record = Record {
        kind: Kind::Grant,
        address: TetraAddress { kind: 0, number: 0 },
        tag: None,
        header: QueuedHeader::EMPTY,
        bits: 0,
        sent: 0,
    };

    // A grant as it is queued: its address, its octet and its marker.
    pub fn grant(address: TetraAddress, octet: u8, marker: Option<u8>) -> Record
        ensures { result ≡ grant_record address.kind address.number octet marker }
    {
        let header = QueuedHeader {
            usage_marker: marker,
            slot_granting_element: Some(octet),
            ..QueuedHeader::EMPTY
        };
        Record {
            kind: Kind::Grant,
            address,
            header,
            ..Record::EMPTY
        }
    }

    // A random access acknowledgement as it is queued: its address.
    pub fn ack(address: TetraAddress) -> Record
        ensures { result ≡ ack_record address.kind address.number }
    {
        Record {
            kind: Kind::Ack,
            address,
            ..Record::EMPTY
        }
    }

    // A record as it is offered to the queue, of an SDU of `bits` bits.
    pub fn offered(
        address: TetraAddress,
        tag: Option<u16>,
        header: QueuedHeader,
        bits: u16,
    ) -> Record
        ensures { result ≡ offered_record address.kind address.number tag header bits }
    {
        Record {
            kind: Kind::Record,
            address,
            tag,
            header,
            bits,
            sent: 0,
        }
    }

    // The record's header as a MAC-RESOURCE with this fill bit and length code.
    pub fn resource(self, fill: u8, len: u8) -> MacResource
        ensures { result ≡ resource_of self fill len }
    {
        let h = self.header;
        MacResource {
            fill_bits: fill,
            pos_of_grant: h.pos_of_grant,
            encryption_mode: h.encryption_mode,
            random_access_flag: h.random_access_flag,
            length_ind: len,
            address_kind: Some(self.address.into()),
            number: self.address.number,
            event_label: h.event_label,
            usage_marker: h.usage_marker,
            power_control_element: h.power_control_element,
            slot_granting_element: h.slot_granting_element,
            chan_alloc_element: h.chan_alloc_element,
        }
    }

    // Question 6 for a stored record.
    // Kept: field by field, beside `legal_queued` of mac_legal: every call asks it of every record, and no header is made. With an address, which each
    // record has, encryption is 0, and without a label any marker goes.
    pub fn header_is_legal(self) -> bool
        ensures { result ≡ legal_queued (resource_of self 0 0) }
    {
        let h = self.header;
        (h.pos_of_grant < 2)
            & (h.encryption_mode == 0)
            & (h.random_access_flag < 2)
            & (self.address.number < ADDRESS_NUMBERS)
            & h.event_label.is_none()
            & mac_legal::opt_below(64, h.usage_marker)
            & mac_legal::opt_below(16, h.power_control_element)
            & mac_legal::opt_below(256, h.slot_granting_element)
            & mac_legal::legal_opt_chan_alloc(h.chan_alloc_element)
    }

    // Question 6 for a record offered to the queue.
    pub fn offered_header_is_legal(self) -> bool
        ensures { result ≡ legal_offered (resource_of self 0 0) }
    {
        mac_legal::legal_offered(self.resource(0, 0))
    }
}

// Question 7.
pub fn sdu_is_present(bits: u16, sdu: &[u8]) -> bool
    ensures { result ≡ present_sdu bits sdu.now }
{
    let octets = (bits as usize).div_ceil(8);
    (bits as usize <= SDU_BITS) & (octets <= sdu.len())
}
