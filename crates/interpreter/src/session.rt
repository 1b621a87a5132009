// What the commands work on, and what each does and prints.
ghost use Rattle.std.specs.Prelude.{◌≡◌, ◌*◌, ◌^◌, ◌<◌, ◌≤◌, length, replicate, IfOk, IfSome};
ghost use Rattle.sizes.specs.Sizes.{per_timeslot, queue_places, store_octets};
ghost use Rattle.dl_record.specs.Record.{empty_record};
ghost use Rattle.sched_core.specs.Questions.{memory};
ghost use Rattle.sched_core.specs.Replies.{request_reply, build_reply};
ghost use Rattle.interpreter.specs.Text.{number, line, line_octets};
ghost use Rattle.interpreter.specs.Slotrun.{operand_count, grant_fields, block_fields};

use crate::command::{Command, first_command, four_octets, two_octets};
use crate::line::Line;
use dl_record::{QueuedHeader, Record, TetraAddress};
use dl_send::Tags;
use questions::Refusal;
use sched_core::Station;
use sizes::{BLOCK_OCTETS, QUEUE_PLACES, STORE_OCTETS};
use tdma_time::TdmaTime;
use uplink::Grant;

// The octets of the staged SDU.
pub const STAGE_OCTETS: usize = 256;

// The station with its queue and store, and the staged SDU.
#[derive(Drop)]
pub struct Session {
    pub station: Station,
    pub queue: [Record; QUEUE_PLACES],
    pub store: [u8; STORE_OCTETS],
    pub stage: [u8; STAGE_OCTETS],
}

// What a run took of its input, and how many octets it printed.
#[derive(Clone, Copy)]
pub struct RunAnswer {
    pub taken: usize,
    pub count: usize,
}

// A line of a number alone.
fn number_line(letter: u8, n: u8) -> Line
    ensures { result ≡ line letter (number n) }
{
    let mut line = Line::new(letter);
    line.number(n.into());
    line.push(b'\n');
    line
}

// The line of a request.
fn request_line(reply: Result<Grant, Refusal>) -> Line
    ensures { result ≡ line 82 (grant_fields (request_reply reply)) }
{
    match reply {
        Ok(grant) => {
            let mut line = Line::new(b'R');
            line.number(0);
            line.number(grant.capacity.into());
            line.number(grant.delay.into());
            line.number(grant.usage_marker.unwrap_or(0).into());
            line.push(b'\n');
            line
        }
        Err(refusal) => number_line(b'R', refusal.into()),
    }
}

// The line of a build.
fn build_line(reply: Result<Option<Tags>, Refusal>, block: &[u8; BLOCK_OCTETS]) -> Line
    requires { IfOk reply (λ built. IfSome built (λ tags. tags.tag_count ≤ per_timeslot)) }
    ensures { result ≡ line 66 (block_fields (build_reply reply block.now)) }
{
    match reply {
        Ok(Some(tags)) => {
            let mut line = Line::new(b'B');
            line.number(0);
            line.push(b' ');
            line.hex(block);
            line.numbers(&tags.tags[..tags.tag_count as usize]);
            line.push(b'\n');
            line
        }
        Ok(None) => {
            let mut line = Line::new(b'B');
            line.number(0);
            line.extend(b" -\n");
            line
        }
        Err(refusal) => number_line(b'B', refusal.into()),
    }
}

impl Session {
    ghost use Rattle.interpreter.specs.Slotrun.{memory_of, session, start, new_step, advance_step, request_step, staged, stage_line, queue_step, build_step};
    ghost use Rattle.interpreter.specs.Slotrun.{stepped, stage_kept, step, commands};
    ghost use Rattle.interpreter.specs.Runs.{Runs};

    // A station with an empty queue and store.
    fn empty(station: Station, stage: [u8; STAGE_OCTETS]) -> Session
        ensures { result ≡ session (memory station (replicate queue_places empty_record) (replicate store_octets 0)) stage }
    {
        Session {
            station,
            queue: [Record::EMPTY; QUEUE_PLACES],
            store: [0; STORE_OCTETS],
            stage,
        }
    }

    // "Until a first 54 is accepted the station is new at h 0, m 1, f 1, t 1"; "A staged SDU is 256 octets, all zero at the start."
    #[tactic(auto, unfolding(sched_core::specs::Calls::new_memory))]
    pub fn start() -> Session
        ensures { result ≡ start }
    {
        let first = TdmaTime::new(1, 1, 1, 0);
        Session::empty(Station::new(first), [0; STAGE_OCTETS])
    }

    // A new station: an empty queue and store, if the time is sound.
    fn new_step(&mut self, operands: &[u8; 5]) -> Line
        ensures { stepped self.new result ≡ stage_kept self.old (new_step (memory_of self.old) operands.now) }
    {
        let h = two_octets(operands, 0);
        let time = TdmaTime::new(operands[4], operands[3], operands[2], h);
        let (reply, station) = bs_sched::new(time);
        if reply.is_ok() {
            *self = Session::empty(station, self.stage);
        }
        number_line(b'T', questions::number_of(reply))
    }

    // A slot on.
    #[tactic(auto, unfolding(crate::specs::Slotrun::advance_step, sched_core::specs::Calls::advance_memory), using(crate::proofs::StepLaws::same_number))]
    fn advance_step(&mut self) -> Line
        ensures { stepped self.new result ≡ stage_kept self.old (advance_step (memory_of self.old)) }
    {
        let reply = bs_sched::advance(&mut self.station);
        number_line(b'A', questions::number_of(reply))
    }

    // A request for capacity.
    #[tactic(auto, unfolding(crate::specs::Slotrun::request_step))]
    fn request_step(&mut self, operands: &[u8; 7]) -> Line
        ensures { stepped self.new result ≡ stage_kept self.old (request_step (memory_of self.old) operands.now) }
    {
        let address = TetraAddress {
            kind: operands[2],
            number: four_octets(operands, 3),
        };
        let reply = bs_sched::ul_process_cap_req(
            &mut self.station,
            &mut self.queue,
            &self.store,
            operands[0],
            operands[1],
            address,
        );
        request_line(reply)
    }

    // A part of the stage is filled.
    #[tactic(auto, unfolding(crate::specs::Slotrun::step, crate::specs::Slotrun::staged, crate::specs::Slotrun::stage_line))]
    fn stage_step(&mut self, operands: &[u8; 33]) -> Line
        ensures { stepped self.new result ≡ step self.old Command.Stage operands.now }
    {
        let index = operands[0];
        if 7 < index {
            return number_line(b'S', Refusal::Sdu.into());
        }
        let at = 32 * index as usize;
        self.stage[at..at + 32].copy_from_slice(&operands[1..33]);
        number_line(b'S', 0)
    }

    // A record is queued with the staged SDU: a tag, and no other header part.
    #[tactic(auto, unfolding(crate::specs::Slotrun::queue_step), using(crate::proofs::StepLaws::same_number))]
    fn queue_step(&mut self, operands: &[u8; 10]) -> Line
        ensures { stepped self.new result ≡ stage_kept self.old (queue_step (memory_of self.old) self.old.stage operands.now) }
    {
        let address = TetraAddress {
            kind: operands[1],
            number: four_octets(operands, 2),
        };
        let offered = Record::offered(
            address,
            Some(two_octets(operands, 6)),
            QueuedHeader::EMPTY,
            two_octets(operands, 8),
        );
        let reply = bs_sched::dl_enqueue_tma(
            &mut self.station,
            &mut self.queue,
            &mut self.store,
            operands[0],
            offered,
            &self.stage,
        );
        number_line(b'Q', questions::number_of(reply))
    }

    // A block is built.
    #[tactic(auto, unfolding(crate::specs::Slotrun::build_step))]
    fn build_step(&mut self) -> Line
        ensures { stepped self.new result ≡ stage_kept self.old (build_step (memory_of self.old)) }
    {
        let mut block = [0; BLOCK_OCTETS];
        let reply = bs_sched::dl_build_block(
            &mut self.station,
            &mut self.queue,
            &mut self.store,
            &mut block,
        );
        build_line(reply, &block)
    }

    // One command: its line.
    // Kept: a match, since a table of the steps would wrap each, for the operands that some of them have; and a command with its operands
    // beside it, since a `Command` that carried them would name each field where it is read and where it is used, in place of its octets once.
    #[tactic(auto, unfolding(crate::specs::Slotrun::step))]
    pub fn execute(&mut self, command: Command, operands: &[u8]) -> Line
        requires { operand_count command ≤ length operands.now }
        ensures { stepped self.new result ≡ step self.old command operands.now }
    {
        match command {
            Command::New => self.new_step(operands.first_chunk().unwrap()),
            Command::Advance => self.advance_step(),
            Command::Request => self.request_step(operands.first_chunk().unwrap()),
            Command::Stage => self.stage_step(operands.first_chunk().unwrap()),
            Command::Queue => self.queue_step(operands.first_chunk().unwrap()),
            Command::Build => self.build_step(),
        }
    }

    // Does the commands at the front of the input, as many as are whole, and puts what they print at the front of `out`.
    pub fn run(&mut self, input: &[u8], out: &mut [u8]) -> RunAnswer
        requires { (line_octets * length input.now ≤ length out.old) × (length out.old < 2 ^ 64) }
        ensures { Runs (commands (length input.now) self.old input.now) result input.now self.new out.old out.new }
    {
        let mut rest = input;
        let mut count = 0;
        // Kept: by hand, since each command says where the next begins, and what is left behind the last is answered too.
        while let Some((command, operands)) = first_command(rest) {
            let line = self.execute(command, operands);
            let end = count + line.as_slice().len();
            out[count..end].copy_from_slice(line.as_slice());
            count = end;
            rest = &operands[command.operand_count()..];
        }
        RunAnswer {
            taken: input.len() - rest.len(),
            count,
        }
    }
}
