// Which question was answered no, and its number: the one place for both.
#![tactic(auto)]

ghost use Rattle.std.specs.Prelude.{◌≡◌};
ghost use Rattle.questions.specs.Questions.{refusal_number, number_of};

// The question that was answered no. No call asks them all.
#[derive(Clone, Copy, Debug, PartialEq, Eq)]
pub enum Refusal {
    Unsound = 1,
    Lengths = 2,
    Timeslot = 3,
    Requirement = 4,
    Address = 5,
    Header = 6,
    Sdu = 7,
    QueueFull = 8,
    NoRun = 9,
    TooLate = 10,
    NoRoom = 11,
    Malformed = 12,
}

// Document 01's number of a refusal.
impl From<Refusal> for u8 {
    ghost from_gives = { λ r n. n ≡ refusal_number r };

    fn from(r: Refusal) -> u8 {
        r as u8
    }
}

// The number of a reply: 0 for done.
pub fn number_of<T: Copy>(reply: Result<T, Refusal>) -> u8
    ensures { result ≡ number_of reply }
{
    match reply {
        Ok(_) => 0,
        Err(refusal) => u8::from(refusal),
    }
}
