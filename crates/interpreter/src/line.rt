// A line that a command prints, in ASCII.
ghost use Rattle.std.specs.Prelude.{◌≡◌, [], ◌∷◌, ◌++◌, ◌+◌, ◌*◌, ◌<◌, ◌≤◌, length};
ghost use Rattle.interpreter.specs.Text.{number, numbers, hex, line_octets};

use arrayvec::ArrayVec;
use sizes::BLOCK_OCTETS;
use std::marker::Model;

// The most octets of a line: a block, with a tag for each place of its timeslot.
pub const LINE_OCTETS: usize = 173;

#[derive(Drop)]
pub struct Line {
    octets: ArrayVec<u8, LINE_OCTETS>,
}

impl Model for Line {
    ghost use Rattle.std.specs.Prelude.{List, ℕ};

    ghost Value = { List ℕ };

    ghost view = { λ l. l.octets.items };
}

impl Line {
    // A line begins with the letter of its command.
    pub(crate) fn new(letter: u8) -> Line
        ensures { result ≡ letter ∷ [] }
    {
        let mut line = Line {
            octets: ArrayVec::new(),
        };
        line.push(letter);
        line
    }

    pub fn as_slice(&self) -> &[u8]
        ensures octets { result.now ≡ self.now }
        ensures most { length result.now ≤ line_octets }
    {
        self.octets.as_slice()
    }

    pub(crate) fn push(&mut self, octet: u8)
        requires { length self.old < line_octets }
        ensures { self.new ≡ self.old ++ octet ∷ [] }
    {
        self.octets.push(octet);
    }

    pub(crate) fn extend(&mut self, text: &[u8])
        requires { length self.old + length text.now ≤ line_octets }
        ensures { self.new ≡ self.old ++ text.now }
    {
        let _ = self.octets.try_extend_from_slice(text);
    }

    // A field in decimal, after a space.
    pub(crate) fn number(&mut self, n: u16)
        requires { length self.old + 6 ≤ line_octets }
        ensures text { self.new ≡ self.old ++ number n }
        ensures most { length self.new ≤ length self.old + 6 }
    {
        self.push(b' ');
        self.extend(itoa::Buffer::new().format(n).as_bytes());
    }

    // The octets of a block in hexadecimal.
    pub(crate) fn hex(&mut self, block: &[u8; BLOCK_OCTETS])
        requires { length self.old + 68 ≤ line_octets }
        ensures text { self.new ≡ self.old ++ hex block.now }
        ensures most { length self.new ≤ length self.old + 68 }
    {
        let mut digits = [0; 2 * BLOCK_OCTETS];
        let _ = hex::encode_to_slice(block, &mut digits);
        self.extend(&digits);
    }

    // Fields in decimal.
    pub(crate) fn numbers(&mut self, ns: &[u16])
        requires { length self.old + 6 * length ns.now ≤ line_octets }
        ensures text { self.new ≡ self.old ++ numbers ns.now }
        ensures most { length self.new ≤ length self.old + 6 * length ns.now }
    {
        for &n in ns {
            self.number(n);
        }
    }
}
