// A timeslot's block: its records merged, put in order and sent; what does not finish stays, and its cells move with it.
#![tactic(auto)]

ghost use Rattle.std.specs.Prelude.{◌≡◌, true, List, ◌++◌, ℕ, ◌+◌, ◌*◌, ◌<◌, ◌≤◌, Bool, length, get_or, drop, replicate};
ghost use Rattle.std.proofs.Math.Seq.{paste};
ghost use Rattle.sizes.specs.Sizes.{per_timeslot, cell_octets, timeslot_octets};
ghost use Rattle.dl_record.specs.declared.Kind.{Kind};
ghost use Rattle.dl_queue.specs.Queue.{Item};
ghost use Rattle.dl_merge.specs.Merge.{only};
ghost use Rattle.dl_merge.specs.Places.{counted, merge_places};
ghost use Rattle.dl_send.specs.Arrays.{listed};
ghost use Rattle.dl_build.specs.Moved.{arranged};
ghost use Rattle.dl_build.specs.Build.{in_order, built_from, Decides, Takes, CanBuild, BuiltIn};

use arrayvec::ArrayVec;
use dl_merge::Merged;
use dl_record::{Kind, Record};
use dl_send::Progress;
use sizes::{CELL_OCTETS, PER_TIMESLOT, TIMESLOT_OCTETS};

// Each place of a timeslot, in order.
fn own_places() -> [u8; PER_TIMESLOT]
    ensures { (i : ℕ) → i < per_timeslot → get_or result i 0 ≡ i }
{
    std::array::from_fn(|i| i as u8)
}

// A timeslot's first `n` records merged, with the places that they come from. Where there is neither grant nor ack they stay as they are.
// Kept: the array with `n` beside it, here and below, no slice of the filled ones: the array goes on as it is, with the empty records behind them.
pub fn merged_records(records: [Record; PER_TIMESLOT], n: usize) -> Merged
    requires { n ≤ per_timeslot }
    ensures { (listed result.count result.records result.from ≡ merge_places (counted 0 n records)) × (result.count ≤ per_timeslot) }
{
    if dl_merge::none_to_merge(&records[..n]) {
        return Merged {
            records,
            from: own_places(),
            count: n as u8,
        };
    }
    dl_merge::dl_integrate_sched_elems_for_timeslot(&records[..n])
}

// The records of some kinds join the end of the order.
fn take_records<F: Fn(Kind) -> bool>(
    order: &mut ArrayVec<u8, PER_TIMESLOT>,
    merged: &Merged,
    wanted: F,
)
    requires callable { (k : Kind) → F.pre wanted k }
    requires room { (merged.now.count ≤ per_timeslot) × (p : Kind → Bool) × Decides (F.post wanted) p
        × (length order.old.items + length (only p (listed merged.now.count merged.now.records merged.now.from)) ≤ per_timeslot) }
    ensures { (p : Kind → Bool) → Decides (F.post wanted) p → (xs : List (Item ℕ))
        → Takes merged.now.records merged.now.from order.old.items (length order.old.items) xs
        → Takes merged.now.records merged.now.from order.new.items (length order.new.items)
        (xs ++ only p (listed merged.now.count merged.now.records merged.now.from)) }
{
    for (i, r) in merged.records[..merged.count as usize].iter().enumerate() {
        if wanted(r.kind) {
            order.push(i as u8);
        }
    }
}

// Merged records in the order in which they are taken: where each stands.
pub fn dl_take_prioritized_sched_items(merged: &Merged) -> ArrayVec<u8, PER_TIMESLOT>
    requires { merged.now.count ≤ per_timeslot }
    ensures { Takes merged.now.records merged.now.from result.items (length result.items)
        (in_order (listed merged.now.count merged.now.records merged.now.from)) }
{
    let mut order = ArrayVec::new();
    take_records(&mut order, merged, Kind::is_underway);
    take_records(&mut order, merged, Kind::is_record);
    order
}

// ---- the cells of a timeslot move with their records

// A cell is named by its first octet.
// Kept: the cells as a slice whose length three functions ask for, no array: one that `first_chunk_mut` lends of the store, by `unwrap` or `let else`, is
// not followed back to the store in the proof of the build.

fn clear_cell(cells: &mut [u8], at: usize)
    requires { at + cell_octets ≤ length cells.old }
    ensures { cells.new ≡ paste cells.old at (replicate cell_octets 0) cell_octets }
{
    cells[at..at + CELL_OCTETS].fill(0);
}

// A cell gets the octets of one of another timeslot's worth of cells.
fn copy_cell(cells: &mut [u8], to: usize, others: &[u8; TIMESLOT_OCTETS], from: usize)
    requires { (to + cell_octets ≤ length cells.old) × (from + cell_octets ≤ timeslot_octets) }
    ensures { cells.new ≡ paste cells.old to (drop from others.now) cell_octets }
{
    cells[to..to + CELL_OCTETS].copy_from_slice(&others[from..from + CELL_OCTETS]);
}

// A cell gets the octets of another.
fn move_cell(cells: &mut [u8], to: usize, from: usize)
    requires { (to + cell_octets ≤ length cells.old) × (from + cell_octets ≤ length cells.old) }
    ensures { cells.new ≡ paste cells.old to (drop from cells.old) cell_octets }
{
    cells.copy_within(from..from + CELL_OCTETS, to);
}

// Does each of these places get the cell of itself, of a later place, or of none? Then none is needed once it is written over.
fn none_overtaken(from: &[u8]) -> bool
    ensures { result ≡ true → (p : ℕ) → p < length from.now → p ≤ get_or from.now p 0 }
{
    from.iter().enumerate().all(|(p, f)| p <= *f as usize)
}

// The first cells, where no record is overtaken: a record that keeps its place keeps its cell.
fn close_up(cells: &mut [u8], from: &[u8])
    requires { (length cells.old ≡ timeslot_octets) × (length from.now ≤ per_timeslot) × ((p : ℕ) → p < length from.now → p ≤ get_or from.now p 0) }
    ensures { cells.new ≡ paste cells.old 0 (arranged cells.old from.now) (cell_octets * length from.now) }
{
    for (p, f) in from.iter().enumerate() {
        let f = *f as usize;
        if f == p {
            continue;
        }
        if f < PER_TIMESLOT {
            move_cell(cells, CELL_OCTETS * p, CELL_OCTETS * f);
        } else {
            clear_cell(cells, CELL_OCTETS * p);
        }
    }
}

// Writes the cells: each that of its place among `others`, or zero for none.
// Kept: a loop beside `close_up`'s, which reads the cells that it writes, and leaves one that stays.
fn write_cells(cells: &mut [u8], others: &[u8; TIMESLOT_OCTETS], from: [u8; PER_TIMESLOT])
    requires { length cells.old ≡ timeslot_octets }
    ensures { cells.new ≡ arranged others.now from }
{
    for (p, f) in from.iter().enumerate() {
        let f = *f as usize;
        if f < PER_TIMESLOT {
            copy_cell(cells, CELL_OCTETS * p, others, CELL_OCTETS * f);
        } else {
            clear_cell(cells, CELL_OCTETS * p);
        }
    }
}

// The cells in a new order that leaves those behind the first `n` as they are. In the queue that a build leaves no record stands before one that is
// taken earlier, so as a rule none is overtaken.
fn rearrange(cells: &mut [u8], from: [u8; PER_TIMESLOT], n: usize)
    requires few { n ≤ per_timeslot }
    requires whole { length cells.old ≡ timeslot_octets }
    requires behind { drop (cell_octets * n) (arranged cells.old from) ≡ drop (cell_octets * n) cells.old }
    ensures { cells.new ≡ arranged cells.old from }
{
    let changed = &from[..n];
    if none_overtaken(changed) {
        close_up(cells, changed);
        return;
    }
    let mut others = [0; TIMESLOT_OCTETS];
    others.copy_from_slice(cells);
    write_cells(cells, &others, from);
}

// ---- the build

// Builds a block of `w` bits of a timeslot: its first `n` records, with the cells from place `first` on.
pub fn dl_build_block_from_signalling_schedule(
    records: [Record; PER_TIMESLOT],
    n: usize,
    store: &mut [u8],
    first: usize,
    block: &mut [u8],
    w: usize,
) -> Progress
    requires { CanBuild (length block.old) w store.old first n records }
    ensures { BuiltIn (built_from w n records (drop (cell_octets * first) store.old)) (length block.old)
        store.old first result store.new block.new }
{
    let merged = merged_records(records, n);
    let order = dl_take_prioritized_sched_items(&merged);
    let plan = dl_send::build_records(block, w, store, first, &merged, order.as_slice());
    let at = CELL_OCTETS * first;
    rearrange(&mut store[at..at + TIMESLOT_OCTETS], plan.from, n);
    plan
}
