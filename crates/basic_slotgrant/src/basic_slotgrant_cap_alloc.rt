// Capacity allocation of a basic slot grant, four bits: EN 300 392-2, clause 21.5.6.
ghost use Rattle.std.specs.Prelude.{◌≡◌, false, ◌<◌};
ghost use Rattle.slot_codes.specs.Codes.{slots_granted, capacity_for, code_for};
ghost use Rattle.basic_slotgrant.specs.Slotgrant.{capacity_code, capacity_at, capacity_read};

use slot_codes::UnknownCode;

#[derive(Clone, Copy)]
pub enum BasicSlotgrantCapAlloc {
    FirstSubslotGranted,
    Grant1Slot,
    Grant2Slots,
    Grant3Slots,
    Grant4Slots,
    Grant5Slots,
    Grant6Slots,
    Grant8Slots,
    Grant10Slots,
    Grant13Slots,
    Grant17Slots,
    Grant24Slots,
    Grant34Slots,
    Grant51Slots,
    Grant68Slots,
    SecondSubslotGranted,
}

// The capacities in the order of their codes.
const CAPACITIES: [BasicSlotgrantCapAlloc; 16] = [
    BasicSlotgrantCapAlloc::FirstSubslotGranted,
    BasicSlotgrantCapAlloc::Grant1Slot,
    BasicSlotgrantCapAlloc::Grant2Slots,
    BasicSlotgrantCapAlloc::Grant3Slots,
    BasicSlotgrantCapAlloc::Grant4Slots,
    BasicSlotgrantCapAlloc::Grant5Slots,
    BasicSlotgrantCapAlloc::Grant6Slots,
    BasicSlotgrantCapAlloc::Grant8Slots,
    BasicSlotgrantCapAlloc::Grant10Slots,
    BasicSlotgrantCapAlloc::Grant13Slots,
    BasicSlotgrantCapAlloc::Grant17Slots,
    BasicSlotgrantCapAlloc::Grant24Slots,
    BasicSlotgrantCapAlloc::Grant34Slots,
    BasicSlotgrantCapAlloc::Grant51Slots,
    BasicSlotgrantCapAlloc::Grant68Slots,
    BasicSlotgrantCapAlloc::SecondSubslotGranted,
];

impl TryFrom<u8> for BasicSlotgrantCapAlloc {
    type Error = UnknownCode;

    ghost try_from_gives = { λ code r. r ≡ capacity_read code };

    fn try_from(code: u8) -> Result<Self, UnknownCode> {
        if code > 15 {
            return Err(UnknownCode(code));
        }
        Ok(BasicSlotgrantCapAlloc::of_code(code))
    }
}

// The code of a capacity.
impl From<BasicSlotgrantCapAlloc> for u8 {
    ghost from_gives = { λ c code. (code ≡ capacity_code c) × (code < 16) };

    fn from(c: BasicSlotgrantCapAlloc) -> u8 {
        c as u8
    }
}

impl BasicSlotgrantCapAlloc {
    // The case of a code of four bits; a number past 15 counts as 15.
    pub fn of_code(code: u8) -> Self
        ensures { result ≡ capacity_at code }
    {
        CAPACITIES
            .get(code as usize)
            .copied()
            .unwrap_or(BasicSlotgrantCapAlloc::SecondSubslotGranted)
    }

    // The slots that are granted; half a slot counts as one.
    pub fn to_req_slotcount(self) -> usize
        ensures { result ≡ slots_granted (capacity_code self) }
    {
        slot_codes::slots_granted(self.into())
    }

    // The least capacity that holds `req` slots; 0 stands for the first half of one, and over 68 counts as 68.
    pub fn from_req_slotcount(req: usize) -> Self
        ensures { result ≡ capacity_at (capacity_for (code_for req) false) }
    {
        BasicSlotgrantCapAlloc::of_code(slot_codes::capacity_for(slot_codes::code_for(req), false))
    }
}
