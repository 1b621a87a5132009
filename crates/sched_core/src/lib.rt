// The station: its soundness, the calls that need no queue, and what the other calls share.
#![tactic(auto)]

ghost use Rattle.std.specs.Prelude.{◌≡◌, cond, Ok, Err};
ghost use Rattle.std.specs.List.{list_all};
ghost use Rattle.sched_core.specs.Questions.{sound_count};
ghost use Rattle.sched_core.specs.Replies.{queue_reply, owner_reply, usage_reply};
ghost use Rattle.sched_core.specs.Calls.{station_outcome, new_call, advance_call, owner_call, usage_call};

use questions::Refusal;
use tdma_time::TdmaTime;
use uplink::{AccessAssignUlUsage, PhyBlockNum, Uplink};

// The station: its uplink, and how many records are queued for each timeslot.
#[derive(Clone, Copy)]
pub struct Station {
    pub uplink: Uplink,
    pub queued: [u8; sizes::TIMESLOTS],
}

// A question: the refusal where the answer is no.
pub fn ask(yes: bool, refusal: Refusal) -> Result<(), Refusal>
    ensures { result ≡ cond yes (Ok tt) (Err refusal) }
{
    if yes { Ok(()) } else { Err(refusal) }
}

// Is no more queued for a timeslot than its places hold?
fn counts_are_sound(queued: [u8; sizes::TIMESLOTS]) -> bool
    ensures { result ≡ list_all sound_count queued }
{
    queued.iter().all(|&n| n as usize <= sizes::PER_TIMESLOT)
}

impl Station {
    ghost use Rattle.sched_core.specs.Station.{new_station};
    ghost use Rattle.sched_core.specs.Questions.{sound_station};

    // A new station at a time: its uplink, and nothing queued.
    pub fn new(time: TdmaTime) -> Station
        ensures { result ≡ new_station time }
    {
        Station {
            uplink: Uplink::new(time),
            queued: [0; sizes::TIMESLOTS],
        }
    }

    // Question 1 for the state.
    #[tactic(auto, unfolding(crate::specs::Questions::sound_station))]
    pub fn is_sound(&self) -> bool
        ensures { result ≡ sound_station self.now }
    {
        self.uplink.is_sound() & counts_are_sound(self.queued)
    }
}

// A new station, and whether its time is one: a time that is refused has a station too, which every call refuses.
#[tactic(auto, unfolding(questions::specs::Questions::ask, crate::specs::Calls::new_call))]
pub fn new(time: TdmaTime) -> (Result<(), Refusal>, Station)
    ensures { station_outcome (queue_reply result.0) result.1 ≡ new_call time }
{
    (ask(time.is_valid(), Refusal::Unsound), Station::new(time))
}

// One slot on.
#[tactic(auto, unfolding(questions::specs::Questions::ask, crate::specs::Calls::advance_call))]
pub fn advance(station: &mut Station) -> Result<(), Refusal>
    ensures { station_outcome (queue_reply result) station.new ≡ advance_call station.old }
{
    ask(station.is_sound(), Refusal::Unsound)?;
    station.uplink.advance();
    Ok(())
}

// Who holds the first half of the slot at a time, the second, or both.
// Kept: the two questions stand here and in the next call, as document 01 puts them to each.
#[tactic(auto, unfolding(questions::specs::Questions::ask, crate::specs::Calls::owner_call))]
pub fn ul_get_slot_owner(
    station: &Station,
    ts: TdmaTime,
    slot: PhyBlockNum,
) -> Result<Option<u32>, Refusal>
    ensures { owner_reply result ≡ owner_call station.now ts slot }
{
    ask(station.is_sound(), Refusal::Unsound)?;
    ask(ts.is_valid(), Refusal::Unsound)?;
    Ok(station.uplink.owner(ts, slot))
}

// How the slot at a time is used.
#[tactic(auto, unfolding(questions::specs::Questions::ask, crate::specs::Calls::usage_call))]
pub fn ul_get_usage(station: &Station, ts: TdmaTime) -> Result<AccessAssignUlUsage, Refusal>
    ensures { usage_reply result ≡ usage_call station.now ts }
{
    ask(station.is_sound(), Refusal::Unsound)?;
    ask(ts.is_valid(), Refusal::Unsound)?;
    Ok(station.uplink.usage(ts))
}
