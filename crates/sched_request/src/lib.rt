// A request for capacity, by the uplink and the counts: the questions in order, the search, and the grant that joins the queue. So it
// serves a caller that keeps station and queue elsewhere too.
#![tactic(auto)]

ghost use Rattle.std.specs.Prelude.{◌≡◌, ◌≤◌, ◌<◌, true, false, leb, List, ℕ, IfOk, IfErr};
ghost use Rattle.sizes.specs.Sizes.{queue_places, latest_delay};
ghost use Rattle.questions.specs.declared.Refusal.{Refusal};
ghost use Rattle.tdma_time.specs.Time.{Valid};
ghost use Rattle.slot_codes.specs.Codes.{grant_octet};
ghost use Rattle.reservation_requirement.specs.Requirement.{requirement_code};
ghost use Rattle.dl_record.specs.declared.Record.{Record};
ghost use Rattle.dl_record.specs.Record.{grant_record};
ghost use Rattle.sched_core.specs.Station.{station_of};
ghost use Rattle.sched_core.specs.Questions.{memory};
ghost use Rattle.sched_request.specs.RequestPlan.{planned_outcome, request_asked};

use basic_slotgrant::BasicSlotgrant;
use dl_record::{Record, TetraAddress};
use questions::Refusal;
use reservation_requirement::ReservationRequirement;
use sched_core::ask;
use sched_enqueue::{Joining, Room};
use sizes::TIMESLOTS;
use tdma_time::Timeslot;
use uplink::{Grant, Uplink};

// The grant, and its record that joins the queue.
#[derive(Clone, Copy)]
pub struct RequestPlan {
    pub grant: Grant,
    pub joining: Joining,
}

// A grant as it is queued.
fn grant_record(address: TetraAddress, grant: Grant) -> Record
    requires { (grant.capacity ≤ 15) × (grant.delay ≤ latest_delay) }
    ensures { result ≡ grant_record address.kind address.number (grant_octet grant.capacity grant.delay) grant.usage_marker }
{
    let octet = u8::from(BasicSlotgrant::of_codes(grant.capacity, grant.delay));
    Record::grant(address, octet, grant.usage_marker)
}

// Question 4.
fn requirement_of(code: u8) -> Result<ReservationRequirement, Refusal>
    ensures ok { IfOk result (λ r. (leb code 15 ≡ true) × (requirement_code r ≡ code)) }
    ensures err { IfErr result (λ e. (e ≡ Refusal.Requirement) × (leb code 15 ≡ false)) }
{
    ReservationRequirement::try_from(code).map_err(|_| Refusal::Requirement)
}

// A request for capacity, after questions 1 and 2: its own questions, 9 and 10 by the search, then the grant joins the queue.
#[tactic(auto, unfolding(questions::specs::Questions::ask, crate::specs::RequestPlan::request_asked))]
pub fn request_plan(
    uplink: &mut Uplink,
    queued: [u8; TIMESLOTS],
    timeslot: u8,
    code: u8,
    address: TetraAddress,
) -> Result<RequestPlan, Refusal>
    requires { Valid uplink.old.time }
    ensures whole { (rs : List Record) (st : List ℕ) → let m = memory (station_of uplink.old queued) rs st in
        planned_outcome result uplink.new m ≡ request_asked m timeslot code address.kind address.number }
    ensures left { IfErr result (λ _. uplink.new ≡ uplink.old) }
    ensures place { IfOk result (λ p. p.joining.place < queue_places) }
{
    let timeslot = Timeslot::try_from(timeslot)?;
    let requirement = requirement_of(code)?;
    ask(address.is_legal(), Refusal::Address)?;
    let room = Room::of(queued, timeslot)?;
    let grant = ul_grant::ul_process_cap_req(uplink, timeslot, requirement, address.number)?;
    let joining = room.joined(grant_record(address, grant));
    Ok(RequestPlan { grant, joining })
}
