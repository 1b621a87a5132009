// Single words, and the fields that stand in them.
ghost use Rattle.std.specs.Prelude.{◌≡◌, ℕ, ◌+◌, ◌==◌, min};
ghost use Rattle.dl_sdu_store.specs.Cells.{all_zero};
ghost use Rattle.sched_words.specs.Words.{low, itself, word_or_zero, unless_zero, kind_word, kind_from, saturated};
ghost use Rattle.sched_words.specs.FieldLaws.{FieldLaws, low_laws, whole_laws, option_laws, kind_laws};

use dl_record::Kind;

// A field of a record, an entry or a header, and the word that it stands in.
pub trait Field: Copy {
    ghost from_word: { ℕ → Self };

    ghost word: { Self → ℕ };

    ghost most: { ℕ };

    // A word that is too wide stands for its low bits.
    fn from_word(w: u32) -> Self
        ensures { result ≡ from_word w };

    fn word(self) -> u32
        ensures { result ≡ word self };

    // The greatest word of a field.
    fn most() -> u32
        ensures { result ≡ most };

    ghost laws: { FieldLaws from_word word most };
}

impl Field for u8 {
    ghost from_word = { low 256 };

    ghost word = { itself };

    ghost most = { 255 };

    fn from_word(w: u32) -> u8 {
        (w % 256) as u8
    }

    fn word(self) -> u32 {
        self as u32
    }

    fn most() -> u32 {
        255
    }

    ghost laws = { low_laws 255 };
}

impl Field for u16 {
    ghost from_word = { low 65536 };

    ghost word = { itself };

    ghost most = { 65535 };

    fn from_word(w: u32) -> u16 {
        (w % 65536) as u16
    }

    fn word(self) -> u32 {
        self as u32
    }

    fn most() -> u32 {
        65535
    }

    ghost laws = { low_laws 65535 };
}

impl Field for u32 {
    ghost from_word = { itself };

    ghost word = { itself };

    ghost most = { 4294967295 };

    fn from_word(w: u32) -> u32 {
        w
    }

    fn word(self) -> u32 {
        self
    }

    fn most() -> u32 {
        u32::MAX
    }

    ghost laws = { whole_laws };
}

// A field that may be absent: 0, or the word of the field and 1.
impl<T: Field> Field for Option<T> {
    ghost from_word = { unless_zero T.from_word };

    ghost word = { word_or_zero T.word };

    ghost most = { min 4294967295 (T.most + 1) };

    fn from_word(w: u32) -> Option<T> {
        Some(T::from_word(w.checked_sub(1)?))
    }

    fn word(self) -> u32 {
        self.map_or(0, |field| field.word().wrapping_add(1))
    }

    fn most() -> u32 {
        T::most().saturating_add(1)
    }

    ghost laws = { option_laws T.from_word T.word T.most T.laws };
}

impl Field for Kind {
    ghost from_word = { kind_from };

    ghost word = { kind_word };

    ghost most = { 4 };

    // Kept: by a match, since a number is no kind without one, and `Kind` has a word of its own only here.
    fn from_word(w: u32) -> Kind {
        match w {
            0 => Kind::Grant,
            1 => Kind::Ack,
            2 => Kind::Record,
            3 => Kind::Waiting,
            _ => Kind::Started,
        }
    }

    fn word(self) -> u32 {
        self as u32
    }

    fn most() -> u32 {
        4
    }

    ghost laws = { kind_laws };
}

// Is a word that of the field that it stands for?
pub fn fits<T: Field>(w: u32) -> bool
    ensures { result ≡ (T.word (T.from_word w) == w) }
{
    w <= T::most()
}

// The field of a word, or the one of the greatest word.
pub fn saturated<T: Field>(w: u32) -> T
    ensures { T.word result ≡ saturated T.most w }
{
    T::from_word(w.min(T::most()))
}

// ---- words

// Whether each word is 0: they are or-ed, with no branch for a word.
// Kept: `dl_sdu_store` has the same of octets: one over a type would ask for a zero and an or of the type, with their laws.
pub fn all_zero(words: &[u32]) -> bool
    ensures { result ≡ all_zero words.now }
{
    words.iter().fold(0, |seen, word| seen | word) == 0
}
