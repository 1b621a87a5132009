// What a mobile station derives from a slot granting element, as usable slots of its timeslot counted from the first at or after the block's slot.
ghost use Rattle.std.specs.Prelude.{◌≡◌};
ghost use Rattle.basic_slotgrant.specs.Slotgrant.{capacity_code, delay_code};
ghost use Rattle.blockdump.specs.Grant.{part_of, granted_slots, ms_grant};

use basic_slotgrant::BasicSlotgrant;
use basic_slotgrant::basic_slotgrant_cap_alloc::BasicSlotgrantCapAlloc;

// The part of its slots that a capacity grants.
#[derive(Clone, Copy)]
pub(crate) enum Part {
    FirstHalf,
    SecondHalf,
    Whole,
}

impl From<BasicSlotgrantCapAlloc> for Part {
    ghost from_gives = { λ capacity part. part ≡ part_of (capacity_code capacity) };

    fn from(capacity: BasicSlotgrantCapAlloc) -> Part {
        match capacity {
            BasicSlotgrantCapAlloc::FirstSubslotGranted => Part::FirstHalf,
            BasicSlotgrantCapAlloc::SecondSubslotGranted => Part::SecondHalf,
            _ => Part::Whole,
        }
    }
}

// The usable slots of a grant, from the first to the last.
#[derive(Clone, Copy)]
pub(crate) struct UsableSlots {
    pub(crate) first: usize,
    pub(crate) last: usize,
}

// A grant; it has no slots where its delay is none that the scheduler sends.
#[derive(Clone, Copy)]
pub(crate) struct MsGrant {
    pub(crate) part: Part,
    pub(crate) count: usize,
    pub(crate) delay: u8,
    pub(crate) slots: Option<UsableSlots>,
}

// The usable slots of a grant that has some.
fn granted_slots(grant: BasicSlotgrant) -> Option<UsableSlots>
    ensures { result ≡ granted_slots (capacity_code grant.capacity_allocation) (delay_code grant.granting_delay) }
{
    let passed = u8::from(grant.granting_delay) as usize;
    if sizes::LATEST_DELAY < passed {
        return None;
    }
    Some(UsableSlots {
        first: passed + 1,
        last: passed + grant.capacity_allocation.to_req_slotcount(),
    })
}

// The grant of a slot granting element.
impl From<u8> for MsGrant {
    ghost from_gives = { λ octet g. g ≡ ms_grant octet };

    fn from(octet: u8) -> MsGrant {
        let grant = BasicSlotgrant::from(octet);
        MsGrant {
            part: grant.capacity_allocation.into(),
            count: grant.capacity_allocation.to_req_slotcount(),
            delay: grant.granting_delay.into(),
            slots: granted_slots(grant),
        }
    }
}
