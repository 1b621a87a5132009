// Granting delay of a basic slot grant, four bits: EN 300 392-2, clause 21.5.6.
ghost use Rattle.std.specs.Prelude.{◌≡◌, ◌<◌};
ghost use Rattle.basic_slotgrant.specs.Slotgrant.{delay_code, delay_at, delay_read};

use slot_codes::UnknownCode;

#[derive(Clone, Copy)]
pub enum BasicSlotgrantGrantingDelay {
    CapAllocAtNextOpportunity,
    // N opportunities are passed over, N from 1 to 13.
    DelayNOpportunities(u8),
    AllocStartsAtOpportunityInFr18,
    WaitForAnotherSlotgrantMessage,
}

// Kept: the lines of the capacities' `try_from`: an impl is each type's own, and four lines need no function of both.
impl TryFrom<u8> for BasicSlotgrantGrantingDelay {
    type Error = UnknownCode;

    ghost try_from_gives = { λ code r. r ≡ delay_read code };

    fn try_from(code: u8) -> Result<Self, UnknownCode> {
        if code > 15 {
            return Err(UnknownCode(code));
        }
        Ok(BasicSlotgrantGrantingDelay::of_code(code))
    }
}

// The code of a delay; one of N is coded as the nearest of 1 to 13.
impl From<BasicSlotgrantGrantingDelay> for u8 {
    ghost from_gives = { λ d code. (code ≡ delay_code d) × (code < 16) };

    fn from(d: BasicSlotgrantGrantingDelay) -> u8 {
        match d {
            BasicSlotgrantGrantingDelay::CapAllocAtNextOpportunity => 0,
            BasicSlotgrantGrantingDelay::DelayNOpportunities(n) => n.clamp(1, 13),
            BasicSlotgrantGrantingDelay::AllocStartsAtOpportunityInFr18 => 14,
            BasicSlotgrantGrantingDelay::WaitForAnotherSlotgrantMessage => 15,
        }
    }
}

impl BasicSlotgrantGrantingDelay {
    // The case of a code of four bits; a number past 15 counts as 15.
    pub fn of_code(code: u8) -> Self
        ensures { result ≡ delay_at code }
    {
        match code {
            0 => BasicSlotgrantGrantingDelay::CapAllocAtNextOpportunity,
            1..=13 => BasicSlotgrantGrantingDelay::DelayNOpportunities(code),
            14 => BasicSlotgrantGrantingDelay::AllocStartsAtOpportunityInFr18,
            _ => BasicSlotgrantGrantingDelay::WaitForAnotherSlotgrantMessage,
        }
    }
}
