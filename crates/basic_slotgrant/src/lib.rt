// A basic slot grant, one octet: EN 300 392-2, clause 21.5.6.
#![tactic(auto)]

ghost use Rattle.std.specs.Prelude.{◌≡◌};
ghost use Rattle.basic_slotgrant.specs.Slotgrant.{octet_of, grant_of, grant_at};

use crate::basic_slotgrant_cap_alloc::BasicSlotgrantCapAlloc;
use crate::basic_slotgrant_granting_delay::BasicSlotgrantGrantingDelay;

pub mod basic_slotgrant_cap_alloc;
pub mod basic_slotgrant_granting_delay;

#[derive(Clone, Copy)]
pub struct BasicSlotgrant {
    pub capacity_allocation: BasicSlotgrantCapAlloc,
    pub granting_delay: BasicSlotgrantGrantingDelay,
}

impl BasicSlotgrant {
    // The grant of a capacity's code and a delay's.
    pub fn of_codes(capacity: u8, delay: u8) -> Self
        ensures { result ≡ grant_of capacity delay }
    {
        BasicSlotgrant {
            capacity_allocation: BasicSlotgrantCapAlloc::of_code(capacity),
            granting_delay: BasicSlotgrantGrantingDelay::of_code(delay),
        }
    }
}

// The grant that an octet stands for: capacity above, delay below.
impl From<u8> for BasicSlotgrant {
    ghost from_gives = { λ octet grant. grant ≡ grant_at octet };

    fn from(octet: u8) -> Self {
        BasicSlotgrant::of_codes(octet / 16, octet % 16)
    }
}

// The octet of a grant.
impl From<BasicSlotgrant> for u8 {
    ghost from_gives = { λ grant octet. octet ≡ octet_of grant };

    fn from(grant: BasicSlotgrant) -> u8 {
        u8::from(grant.capacity_allocation) * 16 + u8::from(grant.granting_delay)
    }
}
