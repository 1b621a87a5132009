// The search for a grant opportunity: the earliest run of free slots of a timeslot.
#![tactic(auto)]

ghost use Rattle.std.specs.Prelude.{◌≡◌, ◌≤◌};
ghost use Rattle.tdma_time.specs.Time.{Valid};
ghost use Rattle.uplink.specs.HalfSlot.{free_for};
ghost use Rattle.uplink.specs.Functions.{Within, opportunity};

use sizes::{FRAMES, FRAMES_SEARCHED};
use tdma_time::Timeslot;
use uplink::{Entry, Opportunity, Uplink};

// Is a slot free for a request: both halves, or for half a slot one of them?
fn is_free(e: Entry, is_halfslot: bool) -> bool
    ensures { result ≡ free_for is_halfslot e.ul1 e.ul2 }
{
    if is_halfslot {
        e.ul1.is_none() || e.ul2.is_none()
    } else {
        e.ul1.is_none() && e.ul2.is_none()
    }
}

// The earliest run of free slots among the timeslot's 17 slots from the first at or after now.
pub fn ul_find_grant_opportunity(
    u: &Uplink,
    timeslot: Timeslot,
    num_slots: usize,
    is_halfslot: bool,
) -> Option<Opportunity>
    requires valid { Valid u.now.time }
    requires le_num_slots { 1 ≤ num_slots }
    ensures { (result ≡ opportunity u.now.rows u.now.time timeslot.number num_slots is_halfslot) × Within result }
{
    let row = timeslot.row();
    let first = u.time.forward_to_timeslot(timeslot).column();
    // Kept: three variables and a loop, since a fold would carry the three in a tuple and go on past the run that is found.
    let mut start = 0;
    let mut run = 0;
    let mut skips = 0;
    for dist in 0..FRAMES_SEARCHED {
        // Kept: this sum stands in ul_reserve and ul_grant too: a method for it would ask for a bound of `dist`, and be longer than the three.
        let index = (first + dist) % FRAMES;
        if index == FRAMES - 1 {
            continue;
        }
        if !is_free(u.rows[row][index], is_halfslot) {
            skips += run + 1;
            run = 0;
            continue;
        }
        if run == 0 {
            start = dist;
        }
        run += 1;
        if run == num_slots {
            return Some(Opportunity { start, skips });
        }
    }
    None
}
