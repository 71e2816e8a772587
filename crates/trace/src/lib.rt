// The trace of a listing, as numbers: what the program r8trace writes as text.
#![tactic(auto)]

ghost use Rattle.std.specs.Prelude.{◌≡◌, ◌++◌, ◌*◌, ◌≤◌, length, drop};
ghost use Rattle.r8_core.specs.Answers.{run_answer_of};
ghost use Rattle.r8_core.specs.Calls.{step};
ghost use Rattle.trace.specs.Trace.{cycles_of, row_of, rows_of, traced_on, traced, trace_gave};
ghost use Rattle.trace.specs.TraceParts.{error_of};

use isa::Cycles;
use listing::FaultAt;
use r8_core::{Core, ListingError, Ran};
use refusals::Refusal;

// Why a listing is not traced: its first fault; or that it has more than 65,536 bytes; or that the slice for the rows is too short.
#[derive(Clone, Copy)]
pub enum TraceError {
    Faulty(FaultAt),
    TooLong,
    NoRoom,
}

// The cycles that a step used. A refused step counts as 0.
fn cycles_of(answer: Result<Ran, Refusal>) -> Cycles
    ensures { result.0 ≡ cycles_of (run_answer_of answer) }
{
    answer.map_or(Cycles(0), |ran| ran.cycles)
}

// Steps the core, and gives the row of the instruction.
fn row(core: &mut Core, memory: &mut [u16]) -> [u64; 4]
    ensures { let stepped = step core.old memory.old in (result ≡ row_of core.old memory.old stepped) × (core.new ≡ stepped.core) × (memory.new ≡ stepped.memory) }
{
    let address = core.pc;
    let word = words::read(memory, address);
    let stepped = core.step(memory);
    *core = stepped.core;
    [
        u64::from(address),
        u64::from(word),
        u64::from(cycles_of(stepped.answer).0),
        layout::flags_number(core.flags),
    ]
}

// The rows of so many steps. By places, and not over `chunks_exact_mut`, of which the library does not say what the rows then hold.
fn put_rows(rows: &mut [u64], mut core: Core, count: usize, memory: &mut [u16])
    requires { 4 * count ≤ length rows.old }
    ensures { rows.new ≡ rows_of count core memory.old ++ drop (4 * count) rows.old }
{
    for i in 0..count {
        rows[4 * i..4 * (i + 1)].copy_from_slice(&row(&mut core, memory));
    }
}

// The trace of what is loaded. The run, on a copy of the memory, gives the totals, and as many steps on the memory itself the rows. A fresh
// core and this memory are never refused.
fn trace_memory(memory: &mut [u16; 16384], rows: &mut [u64]) -> Result<Ran, TraceError>
    ensures { trace_gave result rows.new ≡ traced_on memory.old rows.old }
{
    let mut copy = *memory;
    let core = r8_core::fresh();
    let Ok(ran) = core.run(1000, &mut copy).answer else {
        return Err(TraceError::NoRoom);
    };
    let count = ran.instructions.0 as usize;
    if rows.len() / 4 < count {
        return Err(TraceError::NoRoom);
    }
    put_rows(rows, core, count, memory);
    Ok(ran)
}

// Why a listing that is not loaded is not traced. A load of a fresh core on 16,384 words is not refused with 1 or 7.
fn error_of(why: ListingError) -> TraceError
    ensures { result ≡ error_of why }
{
    match why {
        ListingError::Faulty(at) => TraceError::Faulty(at),
        ListingError::Refused(_) => TraceError::TooLong,
    }
}

// Loads a listing into 16,384 zero words, runs a fresh core for 1,000 cycles, and puts four numbers into the rows for each instruction
// finished: address, word, cycles, and the flags after it as `layout::flags_number` gives them. It gives the totals of the run.
pub fn trace(listing: &[u8], rows: &mut [u64]) -> Result<Ran, TraceError>
    ensures { trace_gave result rows.new ≡ traced listing.now rows.old }
{
    if 65536 < listing.len() {
        return Err(TraceError::TooLong);
    }
    let mut memory = [0u16; 16384];
    match r8_core::fresh().load(listing, &mut memory).answer {
        Ok(_) => trace_memory(&mut memory, rows),
        Err(why) => Err(error_of(why)),
    }
}
