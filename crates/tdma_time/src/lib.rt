// TDMA time (document 01, "Time"): timeslot, frame, multiframe and hyperframe, counted in that order of speed.
#![tactic(auto)]

ghost use Rattle.std.specs.Prelude.{◌≡◌, ◌+◌, ◌-◌, ◌≤◌, ◌<◌, IfOk, IfErr, true, false};
ghost use Rattle.sizes.specs.Sizes.{timeslots, frames};
ghost use Rattle.questions.specs.declared.Refusal.{Refusal};
ghost use Rattle.tdma_time.specs.Time.{legal_timeslot, Valid, valid, slot_of, time_of, usable, usable_time, next_time, four_earlier, forward_time};

use questions::Refusal;

// A timeslot that question 3 lets pass.
#[derive(Clone, Copy)]
pub struct Timeslot {
    pub number: u8,
    ghost low: { 1 ≤ number },
    ghost high: { number ≤ timeslots },
}

impl TryFrom<u8> for Timeslot {
    type Error = Refusal;

    ghost try_from_gives = { λ n r. IfOk r (λ t. (t.number ≡ n) × (legal_timeslot n ≡ true))
        × IfErr r (λ e. (e ≡ Refusal.Timeslot) × (legal_timeslot n ≡ false)) };

    // Question 3.
    fn try_from(number: u8) -> Result<Timeslot, Refusal> {
        if matches!(number, 1..=4) {
            Ok(Timeslot { number })
        } else {
            Err(Refusal::Timeslot)
        }
    }
}

impl Timeslot {
    // Its row in a table of the four.
    pub fn row(self) -> usize
        ensures { (result ≡ self.number - 1) × (result < timeslots) }
    {
        (self.number - 1) as usize
    }
}

// Kept: that a time is valid is asked in contracts (`Valid`), by no type: a station's time stands in it as its caller has it, and question 1
// refuses the others; a type would be made at each look at that field and taken apart again at each write.
#[derive(Clone, Copy)]
pub struct TdmaTime {
    pub t: u8,
    pub f: u8,
    pub m: u8,
    pub h: u16,
}

// Kept: 4, 18 and 60 by number, as document 01 has the ranges: the fields are narrower than the sizes, so each name would come with a conversion.
impl TdmaTime {
    // The time of a timeslot, a frame, a multiframe and a hyperframe.
    pub fn new(t: u8, f: u8, m: u8, h: u16) -> TdmaTime
        ensures { result ≡ record { t = t; f = f; m = m; h = h } }
    {
        TdmaTime { t, f, m, h }
    }

    // Is each field in its range? Every u16 is a hyperframe.
    #[tactic(auto, unfolding(crate::specs::Time::valid))]
    pub fn is_valid(self) -> bool
        ensures { result ≡ valid self }
    {
        (1..=4).contains(&self.t) && (1..=18).contains(&self.f) && (1..=60).contains(&self.m)
    }

    // Is this a slot that signalling may use?
    pub fn is_usable(self) -> bool
        ensures { (result ≡ usable_time self) × (Valid self → result ≡ usable (slot_of self)) }
    {
        self.f != 18
    }

    // Its timeslot.
    pub fn timeslot(self) -> Timeslot
        requires { Valid self }
        ensures { result.number ≡ self.t }
    {
        Timeslot { number: self.t }
    }

    // The row of its timeslot, and the column of its frame, in a table of timeslots and frames.
    pub fn row(self) -> usize
        requires { Valid self }
        ensures { (result ≡ self.t - 1) × (result < timeslots) }
    {
        self.timeslot().row()
    }

    pub fn column(self) -> usize
        requires { Valid self }
        ensures { (result ≡ self.f - 1) × (result < frames) }
    {
        (self.f - 1) as usize
    }

    // The slot of timeslot `ts` in the next frame; after the last frame comes the first.
    fn in_next_frame(self, ts: Timeslot) -> TdmaTime
        requires { Valid self }
        ensures { (result ≡ time_of (slot_of self + 4 - self.t + ts.number)) × Valid result }
    {
        let t = ts.number;
        if self.f < 18 {
            return TdmaTime {
                t,
                f: self.f + 1,
                ..self
            };
        }
        if self.m < 60 {
            return TdmaTime {
                t,
                f: 1,
                m: self.m + 1,
                ..self
            };
        }
        TdmaTime {
            t,
            f: 1,
            m: 1,
            h: self.h.wrapping_add(1),
        }
    }

    // The next slot.
    pub fn next(self) -> TdmaTime
        requires { Valid self }
        ensures { (result ≡ next_time self) × Valid result }
    {
        if self.t < 4 {
            return TdmaTime {
                t: self.t + 1,
                ..self
            };
        }
        self.in_next_frame(Timeslot { number: 1 })
    }

    // The slot four earlier, one frame back in the same timeslot; before the first time comes the last.
    pub fn four_earlier(self) -> TdmaTime
        requires { Valid self }
        ensures { (result ≡ four_earlier self) × Valid result }
    {
        if 1 < self.f {
            return TdmaTime {
                f: self.f - 1,
                ..self
            };
        }
        if 1 < self.m {
            return TdmaTime {
                f: 18,
                m: self.m - 1,
                ..self
            };
        }
        TdmaTime {
            f: 18,
            m: 60,
            h: self.h.wrapping_sub(1),
            ..self
        }
    }

    // The first slot of timeslot `ts` at or after this one.
    pub fn forward_to_timeslot(self, ts: Timeslot) -> TdmaTime
        requires { Valid self }
        ensures { (result ≡ forward_time self ts.number) × Valid result }
    {
        if self.t <= ts.number {
            return TdmaTime {
                t: ts.number,
                ..self
            };
        }
        self.in_next_frame(ts)
    }
}
