// The reader of one MAC-RESOURCE header, part by part (EN 300 392-2, 21.4.3.1).
#![tactic(auto)]

ghost use Rattle.std.specs.Fn.{FnOnceReturnsAtMut};
ghost use Rattle.std.specs.Prelude.{◌≡◌, ◌≢◌, ℕ, Option, IfNone, IfSome, ◌+◌, ◌*◌, ◌<◌, ◌≤◌, ◌^◌, length};
ghost use Rattle.bitbuffer.specs.Bits.{bits_of, bits_value, part};
ghost use Rattle.mac_pdus.specs.declared.Address.{Address};
ghost use Rattle.mac_pdus.specs.declared.ChanAllocElement.{ChanAllocElement};
ghost use Rattle.mac_pdus.specs.declared.ResourceHeader.{ResourceHeader};
ghost use Rattle.mac_pdus.specs.Headers.{address_type, opt_at, address_at, chan_alloc_at, elements_at, resource_fields_at};

use mac_pdus::{Address, ChanAllocElement, ResourceHeader};

// A run of octets, and the bit that is read next.
#[derive(Drop)]
pub struct Cursor<'a> {
    pub octets: &'a [u8],
    pub at: usize,
    pub ghost bounded: { 8 * length octets.now < 2 ^ 64 },
}

impl<'a> Cursor<'a> {
    ghost use Rattle.mac_resource_reader.specs.declared.Cursor.{Cursor};

    // Reads a field of `width` bits and goes behind it.
    // Kept: that the octets stay is said by each reader: a type can't say that a call moves the position alone.
    pub fn read(&mut self, width: usize) -> u64
        requires { (self.old.at + width ≤ 8 * length self.old.octets.now) × (width ≤ 64) }
        ensures value { (result ≡ bits_value (part (bits_of self.old.octets.now) self.old.at width)) × (result < 2 ^ width) }
        ensures place { (self.new.octets ≡ self.old.octets) × (self.new.at ≡ self.old.at + width) }
    {
        let value = bitbuffer::read_bits(self.octets, self.at, width);
        self.at += width;
        value
    }

    // Reads a flag, and the element behind it if the flag is 1.
    fn read_optional<T, F: FnOnce(&mut Cursor<'a>) -> T>(&mut self, element: F) -> Option<T>
        requires flag { self.old.at + 1 ≤ 8 * length self.old.octets.now }
        requires element { (c : _) → c.now.octets ≡ self.old.octets → c.now.at ≡ self.old.at + 1 → F.pre element c }
        ensures none { IfNone result ((bits_value (part (bits_of self.old.octets.now) self.old.at 1) ≡ 0) × (self.new.octets ≡ self.old.octets)
            × (self.new.at ≡ self.old.at + 1)) }
        ensures some { IfSome result (λ v. (bits_value (part (bits_of self.old.octets.now) self.old.at 1) ≢ 0)
            × (c : Cursor) × (c.octets ≡ self.old.octets) × (c.at ≡ self.old.at + 1) × FnOnceReturnsAtMut F.FnOnce element c v self.new) }
    {
        if self.read(1) == 0 {
            None
        } else {
            Some(element(self))
        }
    }

    // Reads a flag, and the element of `width` bits if the flag is 1.
    #[tactic(auto, unfolding(mac_pdus::specs::Headers::opt_at, bitbuffer::specs::Bits::field))]
    fn read_opt_u8(&mut self, width: usize) -> Option<u8>
        requires { (self.old.at + 1 + width ≤ 8 * length self.old.octets.now) × (width ≤ 8) }
        ensures value { opt_at {X = Option ℕ × ℕ} width (bits_of self.old.octets.now) self.old.at (λ m next. (m, next)) ≡ (result, self.new.at) }
        ensures place { (self.new.octets ≡ self.old.octets) × (self.new.at ≤ self.old.at + 1 + width) }
    {
        self.read_optional(|c| c.read(width) as u8)
    }

    // Reads the address type, and the address with its label or marker.
    #[tactic(auto, unfolding(mac_pdus::specs::Headers::address_at, bitbuffer::specs::Bits::field))]
    fn read_address(&mut self) -> Address
        requires { self.old.at + 37 ≤ 8 * length self.old.octets.now }
        ensures value { address_at {X = Address × ℕ} (bits_of self.old.octets.now) self.old.at (λ a next. (a, next)) ≡ (result, self.new.at) }
        ensures place { (self.new.octets ≡ self.old.octets) × (self.new.at ≤ self.old.at + 37) }
    {
        match self.read(3) {
            0 => Address::Null,
            1 => Address::Ssi(self.read(24) as u32),
            2 => Address::EventLabel(self.read(10) as u16),
            3 => Address::Ussi(self.read(24) as u32),
            4 => Address::Smi(self.read(24) as u32),
            5 => Address::SsiEventLabel(self.read(24) as u32, self.read(10) as u16),
            6 => Address::SsiUsageMarker(self.read(24) as u32, self.read(6) as u8),
            _ => Address::SmiEventLabel(self.read(24) as u32, self.read(10) as u16),
        }
    }

    // Reads a channel allocation element, with the frame-18 pattern if the pattern is 0.
    #[tactic(auto, unfolding(mac_pdus::specs::Headers::chan_alloc_at, bitbuffer::specs::Bits::field))]
    fn read_chan_alloc(&mut self) -> ChanAllocElement
        requires { self.old.at + 27 ≤ 8 * length self.old.octets.now }
        ensures value { chan_alloc_at {X = ChanAllocElement × ℕ} (bits_of self.old.octets.now) self.old.at (λ c next. (c, next)) ≡ (result, self.new.at) }
        ensures place { (self.new.octets ≡ self.old.octets) × (self.new.at ≤ self.old.at + 27) }
    {
        let alloc_type = self.read(2) as u8;
        let ts_assigned = self.read(4) as u8;
        let ul_dl_assigned = self.read(2) as u8;
        let clch_permission = self.read(1) as u8;
        let cell_change_flag = self.read(1) as u8;
        let carrier_num = self.read(12) as u16;
        let ext_carrier_num_flag = self.read(1) as u8;
        let mon_pattern = self.read(2) as u8;
        let frame18_mon_pattern = if mon_pattern == 0 {
            Some(self.read(2) as u8)
        } else {
            None
        };
        ChanAllocElement {
            alloc_type,
            ts_assigned,
            ul_dl_assigned,
            clch_permission,
            cell_change_flag,
            carrier_num,
            ext_carrier_num_flag,
            mon_pattern,
            frame18_mon_pattern,
        }
    }

    // Reads the elements that follow an address, power control, slot granting and channel allocation: a null has none.
    #[tactic(auto, unfolding(mac_pdus::specs::Headers::elements_at))]
    fn read_elements(
        &mut self,
        address: Address,
    ) -> (Option<u8>, Option<u8>, Option<ChanAllocElement>)
        requires { self.old.at + 42 ≤ 8 * length self.old.octets.now }
        ensures value { elements_at {X = (Option ℕ × Option ℕ × Option ChanAllocElement) × ℕ} (address_type address) (bits_of self.old.octets.now) self.old.at
            (λ p g a next. ((p, g, a), next)) ≡ (result, self.new.at) }
        ensures place { (self.new.octets ≡ self.old.octets) × (self.new.at ≤ self.old.at + 42) }
    {
        if address.is_null() {
            return (None, None, None);
        }
        (
            self.read_opt_u8(4),
            self.read_opt_u8(8),
            self.read_optional(Cursor::read_chan_alloc),
        )
    }

    // Reads a MAC-RESOURCE header from behind its type on; the longest has 90 bits there.
    pub fn read_resource(&mut self) -> ResourceHeader
        requires { self.old.at + 90 ≤ 8 * length self.old.octets.now }
        ensures value { resource_fields_at {X = ResourceHeader × ℕ} (bits_of self.old.octets.now) self.old.at (λ r next. (r, next)) ≡ (result, self.new.at) }
        ensures octets { self.new.octets ≡ self.old.octets }
    {
        let fill_bits = self.read(1) as u8;
        let pos_of_grant = self.read(1) as u8;
        let encryption_mode = self.read(2) as u8;
        let random_access_flag = self.read(1) as u8;
        let length_ind = self.read(6) as u8;
        let address = self.read_address();
        let (power_control_element, slot_granting_element, chan_alloc_element) = self.read_elements(
            address,
        );
        ResourceHeader {
            fill_bits,
            pos_of_grant,
            encryption_mode,
            random_access_flag,
            length_ind,
            address,
            power_control_element,
            slot_granting_element,
            chan_alloc_element,
        }
    }
}
