// The uplink of a station: the time, the table of reserved slots and the counters of usage markers; a new one, one that steps a slot,
// its soundness, owner and usage.
#![tactic(auto)]

ghost use Rattle.std.specs.Prelude.{◌≡◌};
ghost use Rattle.tdma_time.specs.Time.{Valid, slot_of};
ghost use Rattle.uplink.specs.UplinkEntry.{entry_at, owner_of, usage_of, usage_number, marker_of_usage, cleared};
ghost use Rattle.uplink.specs.UplinkEntry.{sound_owner, sound_counter, sound_entry, sound_row, sound_table, sound_counters};
ghost use Rattle.uplink.specs.Uplink.{new_uplink, advanced_uplink, sound_uplink};

use sizes::{ADDRESS_NUMBERS, FRAMES, TIMESLOTS};
use tdma_time::TdmaTime;

// A slot's first half, its second, or both.
#[derive(Clone, Copy)]
pub enum PhyBlockNum {
    Both,
    Block1,
    Block2,
}

// What the access-assignment of an uplink slot says of its use.
#[derive(Clone, Copy)]
pub enum AccessAssignUlUsage {
    CommonOnly,
    CommonAndAssigned,
    AssignedOnly,
    Traffic(u8),
}

impl AccessAssignUlUsage {
    // Its number: 0 no half taken, 1 first only, 2 both, 3 any taken with a marker.
    pub fn number(self) -> u8
        ensures { result ≡ usage_number self }
    {
        match self {
            AccessAssignUlUsage::CommonOnly => 0,
            AccessAssignUlUsage::CommonAndAssigned => 1,
            AccessAssignUlUsage::AssignedOnly => 2,
            AccessAssignUlUsage::Traffic(_) => 3,
        }
    }

    // The marker beside it.
    pub fn marker(self) -> Option<u8>
        ensures { result ≡ marker_of_usage self }
    {
        match self {
            AccessAssignUlUsage::Traffic(marker) => Some(marker),
            _ => None,
        }
    }
}

// An entry of the uplink table: who holds each half of the slot, and the usage marker of the reservation.
#[derive(Clone, Copy)]
pub struct Entry {
    pub ul1: Option<u32>,
    pub ul2: Option<u32>,
    pub usage_marker: Option<u8>,
}

impl Entry {
    // The entry of a slot that nobody has reserved.
    pub const EMPTY: Entry = Entry {
        ul1: None,
        ul2: None,
        usage_marker: None,
    };

    // Who holds the first half of the slot, the second, or both.
    pub fn owner(self, slot: PhyBlockNum) -> Option<u32>
        ensures { result ≡ owner_of slot self }
    {
        match slot {
            PhyBlockNum::Block1 => self.ul1,
            PhyBlockNum::Block2 => self.ul2,
            PhyBlockNum::Both if self.ul1 == self.ul2 => self.ul1,
            PhyBlockNum::Both => None,
        }
    }

    // How the slot is used.
    pub fn usage(self) -> AccessAssignUlUsage
        ensures { result ≡ usage_of self }
    {
        if self.ul1.is_none() && self.ul2.is_none() {
            return AccessAssignUlUsage::CommonOnly;
        }
        match self.usage_marker {
            Some(marker) => AccessAssignUlUsage::Traffic(marker),
            None if self.ul2.is_none() => AccessAssignUlUsage::CommonAndAssigned,
            None => AccessAssignUlUsage::AssignedOnly,
        }
    }

    // Is there no second half and no marker without a first half, and is each in its range? An entry with no first half, as most are, is
    // asked nothing more.
    fn is_sound(&self) -> bool
        ensures { result ≡ sound_entry self.now }
    {
        if self.ul1.is_none() {
            return self.ul2.is_none() && self.usage_marker.is_none();
        }
        owner_is_sound(self.ul1)
            && owner_is_sound(self.ul2)
            && self.usage_marker.is_none_or(counter_is_sound)
    }
}

// Is an owner, if there is one, a 24-bit number?
fn owner_is_sound(owner: Option<u32>) -> bool
    ensures { result ≡ sound_owner owner }
{
    owner.is_none_or(|number| number < ADDRESS_NUMBERS)
}

// Is a marker in the range that is handed out?
fn counter_is_sound(marker: u8) -> bool
    ensures { result ≡ sound_counter marker }
{
    (4..=62).contains(&marker)
}

// Is every entry of a row sound? Each is looked at where it stands: one that is taken out is copied.
fn row_is_sound(row: &[Entry; FRAMES]) -> bool
    ensures { result ≡ sound_row row.now }
{
    row.iter().all(|e| e.is_sound())
}

fn table_is_sound(rows: &[[Entry; FRAMES]; TIMESLOTS]) -> bool
    ensures { result ≡ sound_table rows.now }
{
    rows.iter().all(|row| row_is_sound(row))
}

fn counters_are_sound(counters: &[u8; TIMESLOTS]) -> bool
    ensures { result ≡ sound_counters counters.now }
{
    counters.iter().all(|&marker| counter_is_sound(marker))
}

// The time, the table by timeslot and frame, and the next usage marker of each timeslot.
#[derive(Clone, Copy)]
pub struct Uplink {
    pub time: TdmaTime,
    pub rows: [[Entry; FRAMES]; TIMESLOTS],
    pub next_usage_marker: [u8; TIMESLOTS],
}

impl Uplink {
    // The uplink of a new station at a time: an empty table, and markers at 4. One entry is written at a place that only the time
    // tells, so that the compiler keeps tables in memory: one that is made of constants alone it takes apart into 72 entries wherever a
    // station goes, and every call takes three times as long.
    pub fn new(time: TdmaTime) -> Uplink
        ensures { result ≡ new_uplink time }
    {
        let mut rows = [[Entry::EMPTY; FRAMES]; TIMESLOTS];
        rows[0][time.f as usize % FRAMES] = Entry::EMPTY;
        Uplink {
            time,
            rows,
            next_usage_marker: [4; TIMESLOTS],
        }
    }

    // One slot on: the entry of the slot four earlier than the new time is emptied.
    pub fn advance(&mut self)
        requires { Valid self.old.time }
        ensures { self.new ≡ advanced_uplink self.old }
    {
        let now = self.time.next();
        let old = now.four_earlier();
        self.time = now;
        self.rows[now.row()][old.column()] = Entry::EMPTY;
    }

    // The entry of the slot at a time.
    fn entry(&self, ts: TdmaTime) -> Entry
        requires { Valid ts }
        ensures { result ≡ entry_at self.now.rows (slot_of ts) }
    {
        self.rows[ts.row()][ts.column()]
    }

    // Who holds the first half of the slot at a time, the second, or both.
    pub fn owner(&self, ts: TdmaTime, slot: PhyBlockNum) -> Option<u32>
        requires { Valid ts }
        ensures { result ≡ owner_of slot (entry_at self.now.rows (slot_of ts)) }
    {
        self.entry(ts).owner(slot)
    }

    // How the slot at a time is used.
    pub fn usage(&self, ts: TdmaTime) -> AccessAssignUlUsage
        requires { Valid ts }
        ensures { result ≡ usage_of (entry_at self.now.rows (slot_of ts)) }
    {
        self.entry(ts).usage()
    }

    // Question 1 for the uplink: time, table and counters.
    #[tactic(auto, unfolding(crate::specs::Uplink::sound_uplink))]
    pub fn is_sound(&self) -> bool
        ensures { result ≡ sound_uplink self.now }
    {
        self.time.is_valid()
            && table_is_sound(&self.rows)
            && counters_are_sound(&self.next_usage_marker)
    }
}

// A run of free slots: how many frames after the first slot searched it begins, and how many usable slots were passed over.
#[derive(Clone, Copy)]
pub struct Opportunity {
    pub start: usize,
    pub skips: usize,
}

// What a request is granted.
// Kept: capacity and delay are codes, since the C interface and slotrun give them as numbers and the definitions speak in codes; the kinds
// of basic_slotgrant are made of them where an octet is written.
#[derive(Clone, Copy)]
pub struct Grant {
    pub capacity: u8,
    pub delay: u8,
    pub usage_marker: Option<u8>,
}
