// The replies of the exported functions, and how the scheduler's replies become them.
// Kept: structs with the number of a refusal beside its values, 0 for done, and a usage by its number: the C interface has them so.
ghost use Rattle.std.specs.Prelude.{◌≡◌};
ghost use Rattle.sched_core.specs.Replies.{request_reply};
ghost use Rattle.bs_sched_c.specs.Exports.{grant_struct, not_built_struct, built_of, owners_of, usage_of_slot};

use dl_send::Tags;
use questions::Refusal;
use sched_words::word::Field;
use sizes::PER_TIMESLOT;
use uplink::{Entry, Grant, PhyBlockNum};

// The grant of a request; usage_marker is 0 if there is none.
#[repr(C)]
#[derive(Clone, Copy)]
pub struct BsSchedGrant {
    pub refusal: u8,
    pub capacity: u8,
    pub delay: u8,
    pub usage_marker: u8,
}

// A build: is there a block, and the tags of the records that are finished.
#[repr(C)]
#[derive(Clone, Copy)]
pub struct BsSchedBuilt {
    pub refusal: u8,
    pub built: u8,
    pub tag_count: u8,
    pub tags: [u16; PER_TIMESLOT],
}

// The owners of a slot, each 0 for none, else the number and 1.
#[repr(C)]
#[derive(Clone, Copy)]
pub struct BsSchedOwners {
    pub refusal: u8,
    pub both: u32,
    pub first: u32,
    pub second: u32,
}

// How a slot is used: 0 no half taken, 1 first only, 2 both, 3 with a marker.
#[repr(C)]
#[derive(Clone, Copy)]
pub struct BsSchedUsage {
    pub refusal: u8,
    pub usage: u8,
    pub usage_marker: u8,
}

// Kept: each struct has a match of its own, since what stands behind `Ok` and the zeros beside a refusal are other fields in each.

impl From<Result<Grant, Refusal>> for BsSchedGrant {
    ghost from_gives = { λ reply x. x ≡ grant_struct (request_reply reply) };

    fn from(reply: Result<Grant, Refusal>) -> BsSchedGrant {
        match reply {
            Ok(grant) => BsSchedGrant {
                refusal: 0,
                capacity: grant.capacity,
                delay: grant.delay,
                usage_marker: grant.usage_marker.unwrap_or(0),
            },
            Err(refusal) => BsSchedGrant {
                refusal: u8::from(refusal),
                capacity: 0,
                delay: 0,
                usage_marker: 0,
            },
        }
    }
}

impl BsSchedBuilt {
    // No block.
    const NOTHING: BsSchedBuilt = BsSchedBuilt {
        refusal: 0,
        built: 0,
        tag_count: 0,
        tags: [0; PER_TIMESLOT],
    };
}

impl From<Result<Option<Tags>, Refusal>> for BsSchedBuilt {
    ghost from_gives = { λ reply x. x ≡ built_of reply };

    fn from(reply: Result<Option<Tags>, Refusal>) -> BsSchedBuilt {
        match reply {
            Ok(Some(back)) => {
                // Kept: the check does not cover an array that goes from one value's field straight into another's; tried, by pattern too.
                let tags = back.tags;
                BsSchedBuilt {
                    refusal: 0,
                    built: 1,
                    tag_count: back.tag_count,
                    tags,
                }
            }
            Ok(None) => BsSchedBuilt::NOTHING,
            Err(refusal) => BsSchedBuilt {
                refusal: u8::from(refusal),
                ..BsSchedBuilt::NOTHING
            },
        }
    }
}

// The owners of the slot of an entry.
impl From<Result<Entry, Refusal>> for BsSchedOwners {
    ghost from_gives = { λ slot x. x ≡ owners_of slot };

    fn from(slot: Result<Entry, Refusal>) -> BsSchedOwners {
        match slot {
            Ok(entry) => BsSchedOwners {
                refusal: 0,
                both: entry.owner(PhyBlockNum::Both).word(),
                first: entry.owner(PhyBlockNum::Block1).word(),
                second: entry.owner(PhyBlockNum::Block2).word(),
            },
            Err(refusal) => BsSchedOwners {
                refusal: u8::from(refusal),
                both: 0,
                first: 0,
                second: 0,
            },
        }
    }
}

// How the slot of an entry is used.
impl From<Result<Entry, Refusal>> for BsSchedUsage {
    ghost from_gives = { λ slot x. x ≡ usage_of_slot slot };

    fn from(slot: Result<Entry, Refusal>) -> BsSchedUsage {
        match slot {
            Ok(entry) => BsSchedUsage {
                refusal: 0,
                usage: entry.usage().number(),
                usage_marker: entry.usage().marker().unwrap_or(0),
            },
            Err(refusal) => BsSchedUsage {
                refusal: u8::from(refusal),
                usage: 0,
                usage_marker: 0,
            },
        }
    }
}
