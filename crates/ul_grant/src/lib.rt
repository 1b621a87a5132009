// A request for capacity on the uplink: the usage marker drawn, the run that the search found reserved, and the answer.
#![tactic(auto)]

ghost use Rattle.std.specs.Prelude.{◌≡◌, true, cond, ◌+◌, ◌-◌, ◌*◌, ◌<◌, ◌≤◌, leb, get_or, Some, None, Ok};
ghost use Rattle.sizes.specs.Sizes.{timeslots, frames_searched, latest_delay};
ghost use Rattle.tdma_time.specs.Time.{Valid, slot_of, usable, first_of};
ghost use Rattle.reservation_requirement.specs.Requirement.{requirement_code};
ghost use Rattle.uplink.specs.Request.{Request, next_marker, drawn, answer};
ghost use Rattle.uplink.specs.Functions.{block_taken, granted_at};

use questions::Refusal;
use reservation_requirement::ReservationRequirement;
use sizes::{FRAMES, LATEST_DELAY, TIMESLOTS};
use tdma_time::Timeslot;
use uplink::{Entry, Grant, Opportunity, PhyBlockNum, Uplink};

// The counter after a marker: 4 to 62 and round again.
#[tactic(auto, unfolding(uplink::specs::Request::next_marker))]
fn next_marker(marker: u8) -> u8
    ensures { result ≡ next_marker marker }
{
    if 62 <= marker { 4 } else { marker + 1 }
}

// Two or more slots draw a fresh usage marker from their timeslot's counter, one slot or half a slot none.
fn alloc_usage_marker(
    next_usage_marker: &mut [u8; TIMESLOTS],
    timeslot: Timeslot,
    num_slots: usize,
) -> Option<u8>
    ensures usage_marker_value { result ≡ cond (leb 2 num_slots) (Some (get_or next_usage_marker.old (timeslot.number - 1) 0)) None }
    ensures next_usage_marker_value { next_usage_marker.new ≡ cond (leb 2 num_slots) (drawn next_usage_marker.old timeslot.number) next_usage_marker.old }
{
    if num_slots < 2 {
        return None;
    }
    let index = timeslot.row();
    let marker = next_usage_marker[index];
    next_usage_marker[index] = next_marker(marker);
    Some(marker)
}

// Which halves of a slot a request takes: both, or for half a slot the first if it is free, else the second.
fn free_block(e: Entry, is_halfslot: bool) -> PhyBlockNum
    ensures { result ≡ block_taken is_halfslot e.ul1 }
{
    if !is_halfslot {
        PhyBlockNum::Both
    } else if e.ul1.is_none() {
        PhyBlockNum::Block1
    } else {
        PhyBlockNum::Block2
    }
}

// The run that was found is granted.
fn granted(
    u: &mut Uplink,
    timeslot: Timeslot,
    requirement: ReservationRequirement,
    number: u32,
    found: Opportunity,
) -> Grant
    requires valid { Valid u.old.time }
    requires within { (found.start < frames_searched) × (found.skips ≤ latest_delay) }
    requires can { usable (first_of timeslot.number (slot_of u.old.time) + found.start * timeslots) ≡ true }
    ensures { let r : Request = record { timeslot = timeslot.number; code = requirement_code requirement; number = number } in
        record { reply = Ok result; uplink = u.new } ≡ granted_at u.old r found.start found.skips }
{
    let code = u8::from(requirement);
    let num_slots = requirement.to_req_slotcount();
    let first = u.time.forward_to_timeslot(timeslot).column();
    let e = u.rows[timeslot.row()][(first + found.start) % FRAMES];
    let usage_marker = alloc_usage_marker(&mut u.next_usage_marker, timeslot, num_slots);
    ul_reserve::ul_reserve_grant(
        u,
        timeslot,
        found.start,
        num_slots,
        number,
        free_block(e, requirement.is_halfslot()),
        usage_marker,
    );
    Grant {
        capacity: slot_codes::capacity_for(code, e.ul1.is_some()),
        delay: found.skips as u8,
        usage_marker,
    }
}

// The answer to a request for capacity that questions 1 to 8 let pass; a refusal leaves the uplink.
// Kept: timeslot, requirement and number one by one, since a struct of them would be made at each call and taken apart here, and the
// contracts would still build the definition's `Request`, which has the numbers, from it.
pub fn ul_process_cap_req(
    u: &mut Uplink,
    timeslot: Timeslot,
    requirement: ReservationRequirement,
    number: u32,
) -> Result<Grant, Refusal>
    requires { Valid u.old.time }
    ensures { let r : Request = record { timeslot = timeslot.number; code = requirement_code requirement; number = number } in
        record { reply = result; uplink = u.new } ≡ answer u.old r }
{
    let num_slots = requirement.to_req_slotcount();
    let grant_op = ul_search::ul_find_grant_opportunity(
        u,
        timeslot,
        num_slots,
        requirement.is_halfslot(),
    );
    match grant_op {
        None => Err(Refusal::NoRun),
        Some(found) if LATEST_DELAY < found.skips => Err(Refusal::TooLate),
        Some(found) => Ok(granted(u, timeslot, requirement, number, found)),
    }
}
