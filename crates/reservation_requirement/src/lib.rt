// Reservation requirement, four bits: EN 300 392-2, clause 21.5.4.
#![tactic(auto)]

ghost use Rattle.std.specs.Prelude.{◌≡◌, ◌<◌};
ghost use Rattle.slot_codes.specs.Codes.{slots_wanted, wants_half, code_for};
ghost use Rattle.reservation_requirement.specs.Requirement.{requirement_code, requirement_at, requirement_read};

use slot_codes::UnknownCode;

#[derive(Clone, Copy)]
pub enum ReservationRequirement {
    Req1Subslot,
    Req1Slot,
    Req2Slots,
    Req3Slots,
    Req4Slots,
    Req5Slots,
    Req6Slots,
    Req8Slots,
    Req10Slots,
    Req13Slots,
    Req17Slots,
    Req24Slots,
    Req34Slots,
    Req51Slots,
    Req68Slots,
    ReqOver68,
}

// The requirements in the order of their codes.
const REQUIREMENTS: [ReservationRequirement; 16] = [
    ReservationRequirement::Req1Subslot,
    ReservationRequirement::Req1Slot,
    ReservationRequirement::Req2Slots,
    ReservationRequirement::Req3Slots,
    ReservationRequirement::Req4Slots,
    ReservationRequirement::Req5Slots,
    ReservationRequirement::Req6Slots,
    ReservationRequirement::Req8Slots,
    ReservationRequirement::Req10Slots,
    ReservationRequirement::Req13Slots,
    ReservationRequirement::Req17Slots,
    ReservationRequirement::Req24Slots,
    ReservationRequirement::Req34Slots,
    ReservationRequirement::Req51Slots,
    ReservationRequirement::Req68Slots,
    ReservationRequirement::ReqOver68,
];

impl TryFrom<u8> for ReservationRequirement {
    type Error = UnknownCode;

    ghost try_from_gives = { λ code r. r ≡ requirement_read code };

    fn try_from(code: u8) -> Result<Self, UnknownCode> {
        REQUIREMENTS
            .get(code as usize)
            .copied()
            .ok_or(UnknownCode(code))
    }
}

// The code of a requirement.
impl From<ReservationRequirement> for u8 {
    ghost from_gives = { λ r code. (code ≡ requirement_code r) × (code < 16) };

    fn from(r: ReservationRequirement) -> u8 {
        r as u8
    }
}

impl ReservationRequirement {
    // The slots that are asked for; half a slot asks for one, and over 68 counts as 68.
    pub fn to_req_slotcount(self) -> usize
        ensures { result ≡ slots_wanted (requirement_code self) }
    {
        slot_codes::slots_wanted(self.into())
    }

    // Is half a slot asked for?
    pub fn is_halfslot(self) -> bool
        ensures { result ≡ wants_half (requirement_code self) }
    {
        matches!(self, ReservationRequirement::Req1Subslot)
    }

    // The least requirement that holds `req` slots; 0 stands for half a slot.
    pub fn from_req_slotcount(req: usize) -> Self
        ensures { result ≡ requirement_at (code_for req) }
    {
        REQUIREMENTS[slot_codes::code_for(req) as usize]
    }
}
