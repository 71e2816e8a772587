// The second form of the run call, for a caller that keeps its core in place.
#![tactic(auto)]

ghost use Rattle.std.specs.Prelude.{◌≡◌};
ghost use Rattle.r8_core.specs.Calls.{run};
ghost use Rattle.run_in_place.specs.InPlace.{in_place_gave};

use r8_core::{Core, Ran};
use refusals::Refusal;

// It changes a core that the caller lends. The answer, the core and the memory are those of the value form.
pub fn run(core: &mut Core, b: u32, memory: &mut [u16]) -> Result<Ran, Refusal>
    ensures { in_place_gave result core.new memory.new ≡ run b core.old memory.old }
{
    let reply = core.run(b, memory);
    *core = reply.core;
    reply.answer
}
