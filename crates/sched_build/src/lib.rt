// A build: is there a block to build, and the block of a timeslot.
#![tactic(auto)]

ghost use Rattle.std.specs.Prelude.{◌≡◌, ◌&&◌, ltb, ◌*◌, length, drop};
ghost use Rattle.sizes.specs.Sizes.{per_timeslot, cell_octets, block_width};
ghost use Rattle.tdma_time.specs.Time.{usable_time};
ghost use Rattle.dl_build.specs.Build.{built_from, CanBuild, BuiltIn};

use dl_record::Record;
use dl_send::Progress;
use sizes::{BLOCK_WIDTH, PER_TIMESLOT};
use tdma_time::TdmaTime;

// Is there a block to build: a usable slot, and something queued for its timeslot?
pub fn builds_at(time: TdmaTime, queued_now: usize) -> bool
    ensures { result ≡ usable_time time && ltb 0 queued_now }
{
    time.is_usable() & (0 < queued_now)
}

// The block of the timeslot of a row, of which n records are queued.
// Kept: the array with `n` beside it, no slice of the filled ones, as in dl_build: it goes on as it is, with the empty records behind them.
pub fn build_timeslot(
    row: usize,
    n: usize,
    records: [Record; PER_TIMESLOT],
    store: &mut [u8],
    block: &mut [u8],
) -> Progress
    requires { CanBuild (length block.old) block_width store.old (per_timeslot * row) n records }
    ensures { BuiltIn (built_from block_width n records (drop (cell_octets * (per_timeslot * row)) store.old)) (length block.old)
        store.old (per_timeslot * row) result store.new block.new }
{
    dl_build::dl_build_block_from_signalling_schedule(
        records,
        n,
        store,
        PER_TIMESLOT * row,
        block,
        BLOCK_WIDTH,
    )
}
