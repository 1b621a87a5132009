// A header as it is offered and as it stands on the air, and back.
ghost use Rattle.std.specs.Prelude.{◌≡◌};
ghost use Rattle.mac_pdus.specs.Legal.{ssi_on_air, address_on_air, on_air, kind_of, number_of, label_of, usage_marker_of, offered};

use crate::{Address, AddressKind, MacResource, ResourceHeader};

impl MacResource {
    fn ssi_on_air(self) -> Address
        ensures { result ≡ ssi_on_air self.number self.event_label self.usage_marker }
    {
        match (self.event_label, self.usage_marker) {
            (Some(e), _) => Address::SsiEventLabel(self.number, e),
            (None, Some(m)) => Address::SsiUsageMarker(self.number, m),
            (None, None) => Address::Ssi(self.number),
        }
    }

    // The address that kind, number, label and marker are written as.
    #[tactic(auto, unfolding(crate::specs::Legal::address_on_air))]
    fn address_on_air(self) -> Address
        ensures { result ≡ address_on_air self.address_kind self.number self.event_label self.usage_marker }
    {
        let n = self.number;
        let label = self.event_label;
        match self.address_kind {
            None => label.map_or(Address::Null, Address::EventLabel),
            Some(AddressKind::Ssi | AddressKind::Gssi | AddressKind::Issi) => self.ssi_on_air(),
            Some(AddressKind::Ussi) => Address::Ussi(n),
            Some(AddressKind::Smi) => label.map_or(
                Address::Smi(n),
                |e| Address::SmiEventLabel(n, e),
            ),
        }
    }
}

// The header that an offered one is written as.
impl From<MacResource> for ResourceHeader {
    ghost from_gives = { λ h r. r ≡ on_air h };

    #[tactic(auto, unfolding(crate::specs::Legal::on_air))]
    fn from(h: MacResource) -> ResourceHeader {
        ResourceHeader {
            fill_bits: h.fill_bits,
            pos_of_grant: h.pos_of_grant,
            encryption_mode: h.encryption_mode,
            random_access_flag: h.random_access_flag,
            length_ind: h.length_ind,
            address: h.address_on_air(),
            power_control_element: h.power_control_element,
            slot_granting_element: h.slot_granting_element,
            chan_alloc_element: h.chan_alloc_element,
        }
    }
}

impl Address {
    fn kind(self) -> Option<AddressKind>
        ensures { result ≡ kind_of self }
    {
        match self {
            Address::Null | Address::EventLabel(_) => None,
            Address::Ssi(_) | Address::SsiEventLabel(_, _) | Address::SsiUsageMarker(_, _) => {
                Some(AddressKind::Ssi)
            }
            Address::Ussi(_) => Some(AddressKind::Ussi),
            Address::Smi(_) | Address::SmiEventLabel(_, _) => Some(AddressKind::Smi),
        }
    }

    fn number(self) -> u32
        ensures { result ≡ number_of self }
    {
        match self {
            Address::Null | Address::EventLabel(_) => 0,
            Address::Ssi(n)
            | Address::Ussi(n)
            | Address::Smi(n)
            | Address::SsiEventLabel(n, _)
            | Address::SsiUsageMarker(n, _)
            | Address::SmiEventLabel(n, _) => n,
        }
    }

    fn event_label(self) -> Option<u16>
        ensures { result ≡ label_of self }
    {
        match self {
            Address::EventLabel(e) | Address::SsiEventLabel(_, e) | Address::SmiEventLabel(_, e) =>
                { Some(e) }
            _ => None,
        }
    }

    fn usage_marker(self) -> Option<u8>
        ensures { result ≡ usage_marker_of self }
    {
        match self {
            Address::SsiUsageMarker(_, m) => Some(m),
            _ => None,
        }
    }
}

// A header of the air as a caller offers it.
impl From<ResourceHeader> for MacResource {
    ghost from_gives = { λ r h. h ≡ offered r };

    #[tactic(auto, unfolding(crate::specs::Legal::offered))]
    fn from(r: ResourceHeader) -> MacResource {
        MacResource {
            fill_bits: r.fill_bits,
            pos_of_grant: r.pos_of_grant,
            encryption_mode: r.encryption_mode,
            random_access_flag: r.random_access_flag,
            length_ind: r.length_ind,
            address_kind: r.address.kind(),
            number: r.address.number(),
            event_label: r.address.event_label(),
            usage_marker: r.address.usage_marker(),
            power_control_element: r.power_control_element,
            slot_granting_element: r.slot_granting_element,
            chan_alloc_element: r.chan_alloc_element,
        }
    }
}
