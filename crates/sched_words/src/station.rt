// The station as 228 words.
ghost use Rattle.std.specs.Prelude.{◌≡◌, ◌+◌, ◌*◌, ◌%◌, ◌<◌, ◌≤◌, Bool, true, false, ◌&&◌, ℕ, length, drop, ◌==◌, nat_le, IfOk, IfErr};
ghost use Rattle.std.specs.List.{list_all};
ghost use Rattle.uplink.specs.UplinkEntry.{entry_at, sound_counter, sound_marker, sound_entry};
ghost use Rattle.std.proofs.lemmas.List.Edits.{sets};
ghost use Rattle.uplink.specs.Functions.{row_alone, with_row_of};
ghost use Rattle.sizes.specs.Sizes.{timeslots};
ghost use Rattle.questions.specs.declared.Refusal.{Refusal};
ghost use Rattle.tdma_time.specs.Time.{Valid, valid, slot_of};
ghost use Rattle.sched_core.specs.Station.{station_of, advanced_station, with_queued};
ghost use Rattle.sched_core.specs.Questions.{sound_count, sound_station};
ghost use Rattle.sched_words.specs.Words.{station_word_count, opt_low, words_of_all, read_all, time_words, time_from, entry_words, entry_from};
ghost use Rattle.sched_words.specs.Words.{row_from, four_from, station_words, station_from};
ghost use Rattle.sched_words.specs.Front.{begins};

use crate::word::{self, Field};
use crate::{COUNTERS, COUNTS, ENTRY_WORDS, ROW_WORDS, STATION_WORDS, TABLE, TIME_WORDS};
use questions::Refusal;
use sched_core::Station;
use sizes::{ADDRESS_NUMBERS, FRAMES, PER_TIMESLOT, TIMESLOTS};
use tdma_time::TdmaTime;
use uplink::{Entry, Uplink};

fn time_from(words: &[u32; TIME_WORDS]) -> TdmaTime
    ensures { result ≡ time_from words.now }
{
    let [t, f, m, h] = *words;
    TdmaTime {
        t: Field::from_word(t),
        f: Field::from_word(f),
        m: Field::from_word(m),
        h: Field::from_word(h),
    }
}

fn entry_from(words: &[u32; ENTRY_WORDS]) -> Entry
    ensures { result ≡ entry_from words.now }
{
    let [first, second, marker] = *words;
    Entry {
        ul1: Field::from_word(first),
        ul2: Field::from_word(second),
        usage_marker: Field::from_word(marker),
    }
}

fn row_from(words: &[u32; ROW_WORDS]) -> [Entry; FRAMES]
    ensures { result ≡ row_from words.now }
{
    // Kept: `map` over the entries took 161 ns, the loop 84; `array::from_fn` was tried, and its proof did not close: what it gives of the
    // closure does not say that the words stay the same.
    let entries = words.as_chunks::<ENTRY_WORDS>().0;
    let mut row = [Entry::EMPTY; FRAMES];
    for i in 0..FRAMES {
        row[i] = entry_from(&entries[i]);
    }
    row
}

fn four_from(words: &[u32; TIMESLOTS]) -> [u8; TIMESLOTS]
    ensures { result ≡ four_from words.now }
{
    words.map(Field::from_word)
}

fn entry_words(e: Entry) -> [u32; ENTRY_WORDS]
    ensures { result ≡ entry_words e }
{
    [e.ul1.word(), e.ul2.word(), e.usage_marker.word()]
}

fn time_words(time: TdmaTime) -> [u32; TIME_WORDS]
    ensures { result ≡ time_words time }
{
    [time.t.word(), time.f.word(), time.m.word(), time.h.word()]
}

fn four_words(v: [u8; TIMESLOTS]) -> [u32; TIMESLOTS]
    ensures { (result ≡ v) × (length v ≡ 4) }
{
    v.map(u32::from)
}

// Stores the words of entries from at on.
fn put_entries(words: &mut [u32; STATION_WORDS], at: usize, entries: &[Entry])
    requires { at + 3 * length entries.now ≤ station_word_count }
    ensures { words.new ≡ sets words.old at (words_of_all entry_words entries.now) }
{
    // Kept: the place by `i`, since a proof knows no word after `chunks_exact_mut`. Word by word: `copy_from_slice` of the three, which are
    // stored one by one first, waits for them, and a new station took twice the time.
    for (i, e) in entries.iter().enumerate() {
        let from = at + ENTRY_WORDS * i;
        let [first, second, marker] = entry_words(*e);
        words[from] = first;
        words[from + 1] = second;
        words[from + 2] = marker;
    }
}

// Stores the words of a station.
pub fn put_station(words: &mut [u32; STATION_WORDS], s: &Station)
    ensures { words.new ≡ station_words s.now }
{
    let u = &s.uplink;
    words[..TABLE].copy_from_slice(&time_words(u.time));
    put_entries(words, TABLE, u.rows.as_flattened());
    words[COUNTERS..COUNTS].copy_from_slice(&four_words(u.next_usage_marker));
    words[COUNTS..].copy_from_slice(&four_words(s.queued));
}

// ---- question 1 for the words of a station, where they stand

// t, f, m, h, each of which fits its field.
fn time_is_sound(words: &[u32; TIME_WORDS]) -> bool
    ensures { result ≡ begins (time_words (time_from words.now)) words.now && valid (time_from words.now) }
{
    let [t, f, m, h] = *words;
    word::fits::<u8>(t)
        & word::fits::<u8>(f)
        & word::fits::<u8>(m)
        & word::fits::<u16>(h)
        & time_from(words).is_valid()
}

// No marker, or one of 4 to 62, which its word has and 1.
fn marker_is_sound(w: u32) -> bool
    ensures { result ≡ nat_le w 256 && sound_marker (opt_low 256 w) }
{
    (w == 0) | ((5 <= w) & (w <= 63))
}

// The words of an entry: each is in its range, and with no first half the others are 0.
// Kept: the words are judged beside what judges an entry, a counter and a count: read and written again, the 72 entries took 101 ns in place of 59.
fn entry_is_sound(words: &[u32; ENTRY_WORDS]) -> bool
    ensures { result ≡ begins (entry_words (entry_from words.now)) words.now && sound_entry (entry_from words.now) }
{
    let [first, second, marker] = *words;
    ((first != 0) | ((second == 0) & (marker == 0)))
        & (first <= ADDRESS_NUMBERS)
        & (second <= ADDRESS_NUMBERS)
        & marker_is_sound(marker)
}

// The entries of the table. There is no branch for an entry: `all` took 195 ns of a full table, and this takes 59.
fn entries_are_sound(words: &[u32; STATION_WORDS]) -> bool
    ensures { result ≡ begins (words_of_all entry_words (read_all entry_from 3 72 (drop 4 words.now))) (drop 4 words.now)
        && list_all sound_entry (read_all entry_from 3 72 (drop 4 words.now)) }
{
    let entries = words[TABLE..COUNTERS].as_chunks::<ENTRY_WORDS>().0;
    entries
        .iter()
        .fold(true, |sound, entry| sound & entry_is_sound(entry))
}

// A counter of usage markers.
fn counter_is_sound(w: u32) -> bool
    ensures { result ≡ (w % 256 == w) && sound_counter (w % 256) }
{
    (4 <= w) & (w <= 62)
}

// A number of records queued.
fn count_is_sound(w: u32) -> bool
    ensures { result ≡ (w % 256 == w) && sound_count (w % 256) }
{
    w as usize <= PER_TIMESLOT
}

// Four words, each of 8 bits that pass a test.
// Kept: one by one, since a closure of `all` that calls `sound` would have to ask that it may be called once more.
fn four_are_sound<F: Fn(u32) -> bool>(words: &[u32; TIMESLOTS], sound: F) -> bool
    requires callable { (w : ℕ) → F.pre sound w }
    ensures { (p : ℕ → Bool) → ((w : ℕ) (b : Bool) → F.post sound w b → b ≡ (w % 256 == w) && p (w % 256))
        → result ≡ begins (four_from words.now) words.now && list_all p (four_from words.now) }
{
    sound(words[0]) & sound(words[1]) & sound(words[2]) & sound(words[3])
}

// Do the words stand for a sound station?
pub fn station_is_sound(words: &[u32; STATION_WORDS]) -> bool
    ensures { result ≡ sound_station (station_from words.now) }
{
    time_is_sound(words.first_chunk().unwrap())
        & entries_are_sound(words)
        & four_are_sound(words[COUNTERS..].first_chunk().unwrap(), counter_is_sound)
        & four_are_sound(words.last_chunk().unwrap(), count_is_sound)
}

// ---- the words of a sound station

// The words of a station that question 1 lets pass, to be read.
#[derive(Clone, Copy)]
pub struct SoundWords<'a> {
    pub words: &'a [u32; STATION_WORDS],
    ghost sound: { sound_station (station_from words.now) ≡ true },
}

impl<'a> TryFrom<&'a [u32; STATION_WORDS]> for SoundWords<'a> {
    ghost use Rattle.questions.specs.declared.Refusal.{Refusal};

    type Error = Refusal;

    ghost try_from_gives = { λ ws r. IfOk r (λ x. (x.words.now ≡ ws.now) × (sound_station (station_from ws.now) ≡ true))
        × IfErr r (λ e. (e ≡ Refusal.Unsound) × (sound_station (station_from ws.now) ≡ false)) };

    // Question 1.
    fn try_from(words: &'a [u32; STATION_WORDS]) -> Result<SoundWords<'a>, Refusal> {
        if !station_is_sound(words) {
            return Err(Refusal::Unsound);
        }
        Ok(SoundWords { words })
    }
}

// Kept: the reference is put into a variable first, since the check covers no slice that is lent from a field that is a `&`.
impl SoundWords<'_> {
    pub fn time(self) -> TdmaTime
        ensures { result ≡ (station_from self.entry.words.now).uplink.time }
    {
        let words = self.words;
        time_from(words.first_chunk().unwrap())
    }

    // The numbers of records queued.
    pub fn queued(self) -> [u8; TIMESLOTS]
        ensures { result ≡ (station_from self.entry.words.now).queued }
    {
        let words = self.words;
        four_from(words.last_chunk().unwrap())
    }

    // The uplink with the row of one timeslot, counted from 0, in the place of all four: as much as a request looks at.
    pub fn row_alone(self, row: usize) -> Uplink
        requires { row < timeslots }
        ensures { result ≡ row_alone (station_from self.entry.words.now).uplink row }
    {
        let words = self.words;
        let one = row_from(words[TABLE + ROW_WORDS * row..].first_chunk().unwrap());
        Uplink {
            time: self.time(),
            rows: [one; TIMESLOTS],
            next_usage_marker: four_from(words[COUNTERS..].first_chunk().unwrap()),
        }
    }

    // The entry of the slot at a time.
    pub fn entry(self, ts: TdmaTime) -> Entry
        requires { Valid ts }
        ensures { result ≡ entry_at (station_from self.entry.words.now).uplink.rows (slot_of ts) }
    {
        let at = TABLE + ROW_WORDS * ts.row() + ENTRY_WORDS * ts.column();
        let words = self.words;
        entry_from(words[at..].first_chunk().unwrap())
    }
}

// Kept: that the words are a sound station's is asked in three contracts: the check covers no ghost field beside a `&mut`.

// One slot on: the words of the time, and of the entry that is emptied.
pub fn advance(words: &mut [u32; STATION_WORDS])
    requires { sound_station (station_from words.old) ≡ true }
    ensures { words.new ≡ station_words (advanced_station (station_from words.old)) }
{
    let time = time_from(words.first_chunk().unwrap());
    let next = time.next();
    let old = next.four_earlier();
    let at = TABLE + ROW_WORDS * next.row() + ENTRY_WORDS * old.column();
    words[..TABLE].copy_from_slice(&time_words(next));
    words[at..at + ENTRY_WORDS].fill(0);
}

// The numbers of records queued after a call.
pub fn put_queued(words: &mut [u32; STATION_WORDS], queued: [u8; TIMESLOTS])
    requires { sound_station (station_from words.old) ≡ true }
    ensures { words.new ≡ station_words (with_queued (station_from words.old) queued) }
{
    words[COUNTS..].copy_from_slice(&four_words(queued));
}

// What a request leaves: that row of the table, the counters and the numbers of records queued.
pub fn put_row_of(
    words: &mut [u32; STATION_WORDS],
    row: usize,
    uplink: &Uplink,
    queued: [u8; TIMESLOTS],
)
    requires { (sound_station (station_from words.old) ≡ true) × (row < timeslots) }
    ensures { words.new ≡ station_words (station_of (with_row_of (station_from words.old).uplink row uplink.now) queued) }
{
    words[COUNTERS..COUNTS].copy_from_slice(&four_words(uplink.next_usage_marker));
    words[COUNTS..].copy_from_slice(&four_words(queued));
    put_entries(words, TABLE + ROW_WORDS * row, &uplink.rows[row]);
}
