// A run and a step of a core given as numbers.
ghost use Rattle.std.specs.Prelude.{◌≡◌, ◌≤◌, ◌<◌, true, false, length, MatchOption, IfOk, IfErr};
ghost use Rattle.r8_core.specs.Calls.{run, step};
ghost use Rattle.r8_core.specs.Answers.{run_answer_of};
ghost use Rattle.layout.specs.Layout.{answer_numbers, onto};
ghost use Rattle.r8.specs.Numbers.{stop_of, core_of, registers_of, state_of, is_core};
ghost use Rattle.r8.specs.Codes.{ok, code_number};
ghost use Rattle.r8.specs.Call.{code_of, slices, called};

use super::codes;
use effects::{Hidden, Stop};
use isa::Cycles;
use layout::Answer;
use r8_core::{Core, RunReply};

fn stop_of(n: u32) -> Option<Stop>
    ensures { MatchOption result (2 < n) (λ stop. (n ≤ 2) × (stop ≡ stop_of n)) }
{
    match n {
        0 => Some(Stop::Going),
        1 => Some(Stop::Halted),
        2 => Some(Stop::Undefined),
        _ => None,
    }
}

// The core of these numbers, where they are one's: a fresh one with its fields set.
#[inline(always)]
#[tactic(auto, unfolding(crate::specs::Numbers::is_core))]
fn core_of(registers: &[u16; 22], state: &[u32; 4]) -> Option<Core>
    ensures { MatchOption result (is_core registers.now state.now ≡ false) (λ core. (is_core registers.now state.now ≡ true) × (core ≡ core_of registers.now state.now)) }
{
    if 15 < state[0] {
        return None;
    }
    let stop = stop_of(state[1])?;
    let mut core = r8_core::fresh();
    core.due = u8::try_from(state[2]).ok()?;
    core.regs.copy_from_slice(&registers[..16]);
    core.pc = registers[16];
    core.sp = registers[17];
    core.hidden = Hidden {
        ir: registers[18],
        ra: registers[19],
        rb: registers[20],
        ralu: registers[21],
    };
    core.flags = layout::flags_of(u64::from(state[0]));
    core.clock = Cycles(state[3]);
    Some(core.with_stop(stop))
}

// Number by number, into the lent slices: an array that is made first and then copied takes a run of one cycle half as long again.
fn put_registers(core: Core, registers: &mut [u16])
    requires { length registers.old ≡ 22 }
    ensures { registers.new ≡ registers_of core }
{
    let regs = core.regs;
    registers[..16].copy_from_slice(&regs);
    registers[16] = core.pc;
    registers[17] = core.sp;
    registers[18] = core.hidden.ir;
    registers[19] = core.hidden.ra;
    registers[20] = core.hidden.rb;
    registers[21] = core.hidden.ralu;
}

fn put_state(core: Core, state: &mut [u32])
    requires { length state.old ≡ 4 }
    ensures { state.new ≡ state_of core }
{
    state[0] = layout::flags_number(core.flags) as u32;
    state[1] = layout::stop_number(core.stop) as u32;
    state[2] = u32::from(core.due);
    state[3] = core.clock.0;
}

// The core that a call is made of, or the code of why none is.
#[inline(always)]
#[tactic(auto, unfolding(crate::specs::Call::code_of, crate::specs::Numbers::is_core))]
fn taken(registers: &[u16], state: &[u32], answer: &[u64]) -> Result<Core, u32>
    ensures made { IfOk result (λ core. (code_of registers.now state.now answer.now ≡ ok) × (core ≡ core_of registers.now state.now)) }
    ensures sizes { IfOk result (λ _. (length registers.now ≡ 22) × (length state.now ≡ 4) × (23 ≤ length answer.now)) }
    ensures not_made { IfErr result (λ code. (code ≡ code_number (code_of registers.now state.now answer.now)) × (0 < code)) }
{
    let (Ok(registers), Ok(state)) = (registers.try_into(), state.try_into()) else {
        return Err(codes::NO_CORE);
    };
    let core = core_of(registers, state).ok_or(codes::NO_CORE)?;
    if answer.len() < 23 {
        return Err(codes::NO_ROOM);
    }
    Ok(core)
}

// The next core and the answer, into the lent slices.
#[inline(always)]
fn put(reply: RunReply, registers: &mut [u16], state: &mut [u32], answer: &mut [u64])
    requires { (length registers.old ≡ 22) × (length state.old ≡ 4) × (23 ≤ length answer.old) }
    ensures { (registers.new ≡ registers_of reply.core) × (state.new ≡ state_of reply.core) × (answer.new ≡ onto (answer_numbers (run_answer_of reply.answer)) answer.old) }
{
    put_registers(reply.core, registers);
    put_state(reply.core, state);
    layout::put(answer, reply.answer.numbers());
}

// b datapath cycles, fewer if the core stops.
#[tactic(auto, unfolding(crate::specs::Call::called))]
pub fn r8_run(
    registers: &mut [u16],
    state: &mut [u32],
    b: u32,
    memory: &mut [u16],
    answer: &mut [u64],
) -> u32
    ensures { (result, slices registers.new state.new memory.new answer.new) ≡ called (run b) (slices registers.old state.old memory.old answer.old) }
{
    match taken(registers, state, answer) {
        Ok(core) => {
            put(core.run(b, memory), registers, state, answer);
            codes::OK
        }
        Err(code) => code,
    }
}

// One instruction by the instruction engine.
#[tactic(auto, unfolding(crate::specs::Call::called))]
pub fn r8_step(
    registers: &mut [u16],
    state: &mut [u32],
    memory: &mut [u16],
    answer: &mut [u64],
) -> u32
    ensures { (result, slices registers.new state.new memory.new answer.new) ≡ called step (slices registers.old state.old memory.old answer.old) }
{
    match taken(registers, state, answer) {
        Ok(core) => {
            put(core.step(memory), registers, state, answer);
            codes::OK
        }
        Err(code) => code,
    }
}
