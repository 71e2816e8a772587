// The static library: the functions of `r8` for C, as include/r8.h declares them, each with its clause. A slice crosses as a pointer and then
// a length; that slices do not overlap is the caller's part.
#![tactic(auto)]

ghost use Rattle.std.specs.Prelude.{◌≡◌};
ghost use Rattle.r8_core.specs.Calls.{run, step};
ghost use Rattle.dump.specs.Dump.{dumped};
ghost use Rattle.replay.specs.Replay.{read_calls, replayed};
ghost use Rattle.r8.specs.Form.{formed};
ghost use Rattle.r8.specs.Dump.{dump_returned};
ghost use Rattle.r8.specs.Call.{slices, called};
ghost use Rattle.r8.specs.Replay.{replay_returned, returned_replay};
ghost use Rattle.r8.specs.Trace.{traced_returned, trace_returned};

#[unsafe(no_mangle)]
pub extern "C" fn r8_form(word: u16, form: &mut [u16]) -> u32
    ensures { (result, form.new) ≡ formed word form.old }
{
    r8::form::r8_form(word, form)
}

#[unsafe(no_mangle)]
pub extern "C" fn r8_listing(memory: &[u16], first: usize, count: usize, text: &mut [u8]) -> u32
    ensures { (result, text.new) ≡ dump_returned (dumped memory.now first count text.old) }
{
    r8::written::r8_listing(memory, first, count, text)
}

// b datapath cycles, fewer if the core stops.
#[unsafe(no_mangle)]
pub extern "C" fn r8_run(
    registers: &mut [u16],
    state: &mut [u32],
    b: u32,
    memory: &mut [u16],
    answer: &mut [u64],
) -> u32
    ensures { (result, slices registers.new state.new memory.new answer.new) ≡ called (run b) (slices registers.old state.old memory.old answer.old) }
{
    r8::call::r8_run(registers, state, b, memory, answer)
}

// One instruction by the instruction engine.
#[unsafe(no_mangle)]
pub extern "C" fn r8_step(
    registers: &mut [u16],
    state: &mut [u32],
    memory: &mut [u16],
    answer: &mut [u64],
) -> u32
    ensures { (result, slices registers.new state.new memory.new answer.new) ≡ called step (slices registers.old state.old memory.old answer.old) }
{
    r8::call::r8_step(registers, state, memory, answer)
}

#[unsafe(no_mangle)]
pub extern "C" fn r8_replay(
    calls: &[u64],
    text: &[u8],
    memory: &mut [u16],
    answers: &mut [u64],
    at: &mut u64,
) -> u32
    ensures { returned_replay result at.new memory.new answers.new ≡ replay_returned (replayed (read_calls text.now calls.now) memory.old answers.old) }
{
    r8::list::r8_replay(calls, text, memory, answers, at)
}

#[unsafe(no_mangle)]
pub extern "C" fn r8_trace(listing: &[u8], rows: &mut [u64], answer: &mut [u64]) -> u32
    ensures { trace_returned result rows.new answer.new ≡ traced_returned listing.now rows.old answer.old }
{
    r8::rows::r8_trace(listing, rows, answer)
}
