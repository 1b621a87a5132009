// The commands, from the octets that are read.
ghost use Rattle.std.specs.Prelude.{◌≡◌, ◌+◌, ◌<◌, ◌≤◌, length, MatchOption, None, Some};
ghost use Rattle.interpreter.specs.Slotrun.{command_of, operand_count, first_command, two_octets, four_octets};

#[derive(Clone, Copy, PartialEq, Eq)]
pub enum Command {
    New,
    Advance,
    Request,
    Stage,
    Queue,
    Build,
}

// An octet that is no command's.
#[derive(Clone, Copy)]
pub struct UnknownCommand(pub u8);

impl TryFrom<u8> for Command {
    type Error = UnknownCommand;

    ghost try_from_gives = { λ octet r. r ≡ command_of octet };

    #[tactic(auto, unfolding(crate::specs::Slotrun::command_of))]
    fn try_from(octet: u8) -> Result<Command, UnknownCommand> {
        match octet {
            b'T' => Ok(Command::New),
            b'A' => Ok(Command::Advance),
            b'R' => Ok(Command::Request),
            b'S' => Ok(Command::Stage),
            b'Q' => Ok(Command::Queue),
            b'B' => Ok(Command::Build),
            _ => Err(UnknownCommand(octet)),
        }
    }
}

impl Command {
    // How many octets of operands a command has.
    pub fn operand_count(self) -> usize
        ensures { (result ≡ operand_count self) × (result ≤ 33) }
    {
        match self {
            Command::New => 5,
            Command::Advance => 0,
            Command::Request => 7,
            Command::Stage => 33,
            Command::Queue => 10,
            Command::Build => 0,
        }
    }
}

// The command at the front of the input, if it is whole, and the octets behind its own.
pub fn first_command(input: &[u8]) -> Option<(Command, &[u8])>
    ensures { MatchOption result (first_command input.now ≡ None) (λ p. first_command input.now ≡ Some (p.0, p.1.now)) }
{
    let (&octet, operands) = input.split_first()?;
    let command = Command::try_from(octet).ok()?;
    if operands.len() < command.operand_count() {
        return None;
    }
    Some((command, operands))
}

// The number of two octets, the high one first.
// Kept: one function for each size, since `from_be_bytes` is each type's own, and no trait has it.
pub fn two_octets(s: &[u8], at: usize) -> u16
    requires { at + 2 ≤ length s.now }
    ensures { result ≡ two_octets s.now at }
{
    u16::from_be_bytes(*s[at..].first_chunk().unwrap())
}

// The number of four octets, the high one first.
pub fn four_octets(s: &[u8], at: usize) -> u32
    requires { at + 4 ≤ length s.now }
    ensures { result ≡ four_octets s.now at }
{
    u32::from_be_bytes(*s[at..].first_chunk().unwrap())
}
