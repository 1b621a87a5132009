// Reads commands of `slotrun` on standard input, and prints how many lines of `slotrun` are as document 01 has them: the number of commands before the
// first build in which the rule of W-201 arises, or `all` where there is none. Of a longer input the first 65,536 octets are looked at.
#![tactic(auto)]

mod lengths;

ghost use Rattle.std.specs.Prelude.{◌≡◌, List, ℕ, ◌≤◌};
ghost use Rattle.sizes.specs.Sizes.{per_timeslot, block_width};
ghost use Rattle.dl_build.specs.Document01.{arises_in};
ghost use Rattle.sched_core.specs.Questions.{memory};
ghost use Rattle.interpreter.specs.Slotrun.{memory_of};
ghost use Rattle.as_document_01.specs.Lines.{arises_now, arises_at, lines_as_document01};

use dl_record::Record;
use interpreter::command::{Command, first_command};
use interpreter::session::Session;
use sched_core::Station;
use sizes::{BLOCK_WIDTH, PER_TIMESLOT, QUEUE_PLACES};
use std::io;

// Does the rule arise in a block of a timeslot's first `n` records?
// Kept: the records with a count, since that is how a queue holds a timeslot's, and how `dl_build` takes them.
fn arises_in(records: [Record; PER_TIMESLOT], n: usize) -> bool
    requires { n ≤ per_timeslot }
    ensures { (cells : List ℕ) → result ≡ arises_in block_width n records cells }
{
    let merged = dl_build::merged_records(records, n);
    let order = dl_build::dl_take_prioritized_sched_items(&merged);
    lengths::starts_behind(&merged.records, order.as_slice(), BLOCK_WIDTH)
}

// Does a build of this station build a block, and does the rule arise in it?
fn arises_now(station: &Station, queue: &[Record; QUEUE_PLACES]) -> bool
    ensures { (store : List ℕ) → result ≡ arises_now (memory station.now queue.now store) }
{
    if !station.is_sound() {
        return false;
    }
    let time = station.uplink.time;
    let row = time.row();
    let n = station.queued[row] as usize;
    if !sched_build::builds_at(time, n) {
        return false;
    }
    arises_in(dl_queue::load_timeslot(queue, PER_TIMESLOT * row), n)
}

// Does it arise in this command?
fn arises_at(command: Command, session: &Session) -> bool
    ensures { result ≡ arises_at command (memory_of session.now) }
{
    command == Command::Build && arises_now(&session.station, &session.queue)
}

// The commands of the input, from a first station on, before the first in which the rule arises; none where it arises nowhere.
fn lines_as_document_01(input: &[u8]) -> Option<usize>
    ensures { result ≡ lines_as_document01 input.now }
{
    let mut session = Session::start();
    let mut rest = input;
    let mut count = 0;
    // Kept: by hand, as in `Session::run`, since each command says where the next begins, and there what is left behind the last is wanted too: an
    // iterator of commands would be a type whose contract says all that again, for these two loops.
    while let Some((command, operands)) = first_command(rest) {
        if arises_at(command, &session) {
            return Some(count);
        }
        let _line = session.execute(command, operands);
        rest = &operands[command.operand_count()..];
        count += 1;
    }
    None
}

fn main(rt: HostRuntime) -> io::Result<()> {
    let mut input = [0; 65536];
    let got = reading::read_full(&mut rt.stdin(), &mut input);
    match lines_as_document_01(&input[..got]) {
        None => println!(rt; "all"),
        Some(n) => println!(rt; "{n}"),
    }
}
