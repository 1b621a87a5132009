// The reservation of a run of slots in the uplink table.
#![tactic(auto)]

ghost use Rattle.std.specs.Prelude.{◌≡◌, ◌≤◌};
ghost use Rattle.sizes.specs.Sizes.{frames_searched};
ghost use Rattle.tdma_time.specs.Time.{Valid};
ghost use Rattle.uplink.specs.UplinkEntry.{with_marker, with_halves, reserve};
ghost use Rattle.uplink.specs.Uplink.{with_table};
ghost use Rattle.uplink.specs.Functions.{slots_from, block_halves};

use sizes::{FRAMES, FRAMES_SEARCHED};
use tdma_time::Timeslot;
use uplink::{Entry, PhyBlockNum, Uplink};

// The entry with a half of its slot, or both, taken, and with the marker if there is a new one.
fn taken(e: Entry, ssi: u32, block: PhyBlockNum, usage_marker: Option<u8>) -> Entry
    ensures { result ≡ with_halves (with_marker e usage_marker) (block_halves block) ssi }
{
    let marked = Entry {
        usage_marker: usage_marker.or(e.usage_marker),
        ..e
    };
    match block {
        PhyBlockNum::Both => Entry {
            ul1: Some(ssi),
            ul2: Some(ssi),
            ..marked
        },
        PhyBlockNum::Block1 => Entry {
            ul1: Some(ssi),
            ..marked
        },
        PhyBlockNum::Block2 => Entry {
            ul2: Some(ssi),
            ..marked
        },
    }
}

// `num_slots` usable slots are reserved in the table, from `start` frames after the first opportunity on.
// Kept: the run and who takes it one by one: a struct of them would be made at the one call, in `granted` of ul_grant, and taken apart here.
pub fn ul_reserve_grant(
    u: &mut Uplink,
    timeslot: Timeslot,
    start: usize,
    num_slots: usize,
    ssi: u32,
    block: PhyBlockNum,
    usage_marker: Option<u8>,
)
    requires valid { Valid u.old.time }
    requires start_le_frames_searched { start ≤ frames_searched }
    ensures { let rows = reserve u.old.rows (block_halves block) ssi usage_marker (slots_from u.old.time timeslot.number start num_slots) in
        u.new ≡ with_table u.old rows u.old.next_usage_marker }
{
    let row = timeslot.row();
    let first = u.time.forward_to_timeslot(timeslot).column();
    // Kept: a count of what is left. Tried: `(start..FRAMES_SEARCHED).map(..).filter(..).take(num_slots)`. The closure of `map` wants the bounds of
    // its sum written, and what three adapters have yielded did not lead to the slots that are left to reserve.
    let mut left = num_slots;
    for dist in start..FRAMES_SEARCHED {
        if left == 0 {
            break;
        }
        let place = (first + dist) % FRAMES;
        if place == FRAMES - 1 {
            continue;
        }
        u.rows[row][place] = taken(u.rows[row][place], ssi, block, usage_marker);
        left -= 1;
    }
}
