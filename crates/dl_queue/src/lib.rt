// The queue: 64 records, sixteen to a timeslot, with the store of 64 cells. Timeslots are counted from 0.
#![tactic(auto)]

ghost use Rattle.std.specs.Prelude.{◌≡◌, true, false, ◌+◌, ◌≤◌, length, drop, take};
ghost use Rattle.sizes.specs.Sizes.{per_timeslot};
ghost use Rattle.dl_queue.specs.Questions.{sound_place};

use dl_record::Record;
use sizes::PER_TIMESLOT;

// Question 1 for a place that is filled, and its cell.
#[tactic(auto, unfolding(crate::specs::Questions::sound_place))]
pub fn filled_is_sound(r: Record, cell: &[u8]) -> bool
    ensures { result ≡ sound_place true r cell.now }
{
    dl_record_sound::record_is_sound(r) & dl_sdu_store::cell_is_clean(cell, r.bits)
}

// Question 1 for a place that is not filled, and its cell.
pub fn unfilled_is_sound(r: Record, cell: &[u8]) -> bool
    ensures { result ≡ sound_place false r cell.now }
{
    dl_record_sound::record_is_empty(r) & dl_sdu_store::cell_is_zero(cell)
}

// The records of the timeslot whose first place is `first`.
pub fn load_timeslot(queue: &[Record], first: usize) -> [Record; PER_TIMESLOT]
    requires { first + per_timeslot ≤ length queue.now }
    ensures { result ≡ take per_timeslot (drop first queue.now) }
{
    *queue[first..].first_chunk().unwrap()
}
