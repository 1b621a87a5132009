// Reads commands on standard input, does them, and prints a line for each (document 01, "Cases").
#![tactic(auto)]

ghost use Rattle.std.specs.Prelude.{◌≤◌, ◌≡◌, ◌&&◌, not, length, take};
ghost use Rattle.interpreter.specs.Turns.{is_unknown};

use interpreter::command::Command;
use interpreter::session::Session;
use std::io::Read;

// The session, what is read at a time behind the `held` octets that were kept of the last, and what is printed of it.
// Kept: `input` with the count `held` beside it, since a read goes behind the octets held, in place; an `ArrayVec` lends no room behind its items, so
// each read would need a second array and a copy.
#[derive(Drop)]
struct Program {
    session: Session,
    input: [u8; 256],
    held: usize,
    out: [u8; 65536],
}

// Is the command at the front unknown?
fn is_unknown(input: &[u8]) -> bool
    ensures { result ≡ is_unknown input.now }
{
    input
        .first()
        .is_some_and(|&octet| Command::try_from(octet).is_err())
}

// Reads once behind the octets that are held, and answers how many there are then. A read that fails brings none.
fn read_more(reader: &mut impl Read, input: &mut [u8], held: usize) -> usize
    requires { held ≤ length input.old }
    ensures { (held ≤ result) × (result ≤ length input.old) × (take held input.new ≡ take held input.old) }
{
    held + reader.read(&mut input[held..]).unwrap_or(0)
}

// "An unknown or cut command prints E and ends.": does it read on? `left` is what is left of the octets.
fn goes_on(rt: &impl Print, left: &[u8], more: bool) -> bool
    ensures { result ≡ more && not (is_unknown left.now) }
{
    let on = more && !is_unknown(left);
    if !on && !left.is_empty() {
        let _ = rt.write_all(b"E\n");
    }
    on
}

impl Program {
    ghost use Rattle.slotrun.specs.Turned.{Begins, Turned, ReadTurn};

    fn start() -> Program
        ensures { Begins result }
    {
        Program {
            session: Session::start(),
            input: [0; 256],
            held: 0,
            out: [0; 65536],
        }
    }

    // Runs what is whole of the first `all` octets, prints what that prints, and keeps the rest of them at the front: does it read on? `more`:
    // there may be more to read. Whether what is printed arrives is not looked at.
    fn run(&mut self, rt: &impl Print, all: usize, more: bool) -> bool
        requires { all ≤ 256 }
        ensures { Turned self.old (take all self.old.input) more result self.new }
    {
        let r = self.session.run(&self.input[..all], &mut self.out);
        let _ = rt.write_all(&self.out[..r.count]);
        let reads_on = goes_on(rt, &self.input[r.taken..all], more);
        self.input.copy_within(r.taken..all, 0);
        self.held = all - r.taken;
        reads_on
    }

    // One turn: does it read on?
    fn turn(&mut self, rt: &impl Print, reader: &mut impl Read) -> bool
        requires { self.old.held ≤ 256 }
        ensures { ReadTurn self.old result self.new }
    {
        let all = read_more(reader, &mut self.input, self.held);
        let more = self.held < all;
        self.run(rt, all, more)
    }
}

fn main(rt: HostRuntime) {
    let mut reader = rt.stdin();
    let mut program = Program::start();
    // Kept: up to a count that no input reaches; a loop without end, `rt.forever()`, needs a handle, and the project has none.
    for _ in 0..u64::MAX {
        if !program.turn(&rt, &mut reader) {
            return;
        }
    }
}
