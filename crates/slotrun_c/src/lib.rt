// `slotrun`'s interpreter for a host that is not Rattle: a whole input at once, on a station of its own.
#![tactic(auto)]

ghost use Rattle.slotrun_c.specs.Whole.{Whole};

use interpreter::line::LINE_OCTETS;
use interpreter::session::Session;

// Does the commands at the front of the input, as many as are whole, and answers how many octets they print, which stand at the front
// of `out`. Where `out` has not 173 octets for each of the input it answers the greatest number, and leaves `out`.
// Kept: that number in place of a refusal, since the host calls by the C interface.
#[unsafe(no_mangle)]
pub extern "C" fn slotrun_run(input: &[u8], out: &mut [u8]) -> u64
    ensures { Whole input.now out.old out.new result }
{
    if out.len() / LINE_OCTETS < input.len() {
        return u64::MAX;
    }
    let mut session = Session::start();
    session.run(input, out).count as u64
}
