// Replay plays a list of calls that is given as data, and answers as the instruction machine of document 01 does.
#![tactic(auto)]

ghost use Rattle.std.specs.Prelude.{◌≡◌, ◌++◌, ℕ, ◌≤◌, length, take, drop};
ghost use Rattle.layout.specs.Layout.{onto_if_room, numbered, gave};
ghost use Rattle.machine.specs.Theorem.{reply_to};
ghost use Rattle.replay.specs.Replay.{read_stretch, read_budget, read_call, call_of, call_gave, call_played, read_calls, replayed, replay_gave};
ghost use Rattle.replay.specs.ReplayParts.{read_chunk, fault_at, verdict_of, FitsIn, ReadFits, Playable, core_played, after_play};

use layout::Numbered;
use r8_core::{Answered, Core};

// A call of a list: of a load, the stretch of the text.
#[derive(Drop)]
enum ListedCall {
    Reset,
    Load { from: usize, to: usize },
    Run(u32),
    Step,
    View,
}

// Why a single call is not played: it is none of the five, or names no stretch of the text.
#[derive(Clone, Copy, PartialEq, Eq)]
pub enum CallFault {
    NoCall,
    NoStretch,
}

// Why a list is not played: the index, from 0, of the first call that is none of the five, or that names no stretch of the text; or, where
// all are calls, that the answers do not fit.
#[derive(Clone, Copy, PartialEq, Eq)]
pub enum ReplayError {
    NoCall(usize),
    NoStretch(usize),
    NoRoom,
}

// The next core, and the numbers of what was answered, or why the call is not played.
pub type CallReply = Answered<Result<[u64; 23], CallFault>>;

// The fault of the call with an index.
fn fault_at(why: CallFault, i: usize) -> ReplayError
    ensures { result ≡ fault_at why i }
{
    match why {
        CallFault::NoCall => ReplayError::NoCall(i),
        CallFault::NoStretch => ReplayError::NoStretch(i),
    }
}

fn read_stretch(first: u64, second: u64, size: usize) -> Result<ListedCall, CallFault>
    ensures value { result ≡ read_stretch first second size }
    ensures fits { ReadFits size result }
{
    let from = first as usize;
    let to = second as usize;
    if from <= to && to <= size {
        Ok(ListedCall::Load { from, to })
    } else {
        Err(CallFault::NoStretch)
    }
}

fn read_budget(first: u64) -> Result<ListedCall, CallFault>
    ensures value { result ≡ read_budget first }
    ensures fits { (size : ℕ) → ReadFits size result }
{
    let b = u32::try_from(first).map_err(|_| CallFault::NoCall)?;
    Ok(ListedCall::Run(b))
}

// A call of three numbers, with the length of the text.
fn read_call(kind: u64, first: u64, second: u64, size: usize) -> Result<ListedCall, CallFault>
    ensures value { result ≡ read_call kind first second size }
    ensures fits { ReadFits size result }
{
    match kind {
        0 => Ok(ListedCall::Reset),
        1 => read_stretch(first, second, size),
        2 => read_budget(first),
        3 => Ok(ListedCall::Step),
        4 => Ok(ListedCall::View),
        _ => Err(CallFault::NoCall),
    }
}

// The call that a chunk of a list is.
fn read_chunk(chunk: &[u64], size: usize) -> Result<ListedCall, CallFault>
    ensures value { result ≡ read_chunk chunk.now size }
    ensures fits { ReadFits size result }
{
    let [kind, first, second] = chunk else {
        return Err(CallFault::NoCall);
    };
    read_call(*kind, *first, *second, size)
}

// Whether a list can be played, with room for so many numbers: 23 for each answer, and 23 for what the list leaves.
fn check(calls: &[u64], text: &[u8], room: usize) -> Result<usize, ReplayError>
    ensures { result ≡ verdict_of (read_calls text.now calls.now) room }
{
    for (i, chunk) in calls.chunks(3).enumerate() {
        if let Err(why) = read_chunk(chunk, text.len()) {
            return Err(fault_at(why, i));
        }
    }
    let count = calls.len() / 3;
    if room / 23 <= count {
        return Err(ReplayError::NoRoom);
    }
    Ok(count)
}

// One call on a core.
fn play(core: Core, call: ListedCall, text: &[u8], memory: &mut [u16]) -> Numbered
    requires { FitsIn (length text.now) call }
    ensures { gave result memory.new ≡ numbered (reply_to (call_of text.now call) core memory.old) }
{
    match call {
        ListedCall::Reset => layout::reset(core),
        ListedCall::Load { from, to } => layout::load(core, &text[from..to], memory),
        ListedCall::Run(b) => layout::run(core, b, memory),
        ListedCall::Step => layout::step(core, memory),
        ListedCall::View => layout::view(core),
    }
}

// Plays one call of a list on a core, for callers who go call by call. Where the three numbers are no call, or name no stretch of the
// text, core and memory stay.
pub fn play_call(
    core: Core,
    kind: u64,
    first: u64,
    second: u64,
    text: &[u8],
    memory: &mut [u16],
) -> CallReply
    ensures { call_gave result memory.new ≡ call_played text.now (read_call kind first second (length text.now)) core memory.old }
{
    match read_call(kind, first, second, text.len()) {
        Ok(call) => {
            let played = play(core, call, text, memory);
            Answered {
                core: played.core,
                answer: Ok(played.numbers),
            }
        }
        Err(why) => Answered {
            core,
            answer: Err(why),
        },
    }
}

// Writes an answer's numbers from a place on.
#[tactic(auto, using(layout::proofs::Onto::into_part))]
fn put_at(answers: &mut [u64], to: usize, numbers: [u64; 23])
    requires { to ≤ length answers.old }
    ensures { answers.new ≡ take to answers.old ++ onto_if_room numbers (drop to answers.old) }
{
    layout::put(&mut answers[to..], numbers);
}

// Plays a list that `check` has found playable: every call is read.
fn play_all(calls: &[u64], text: &[u8], memory: &mut [u16], answers: &mut [u64])
    requires { Playable (read_calls text.now calls.now) (length answers.old) }
    ensures { core_played (read_calls text.now calls.now) memory.old answers.old ≡ after_play memory.new answers.new }
{
    let mut core = r8_core::fresh();
    for (i, chunk) in calls.chunks(3).enumerate() {
        let call = read_chunk(chunk, text.len()).unwrap();
        let played = play(core, call, text, memory);
        put_at(answers, 23 * i, played.numbers);
        core = played.core;
    }
    put_at(answers, 23 * (calls.len() / 3), layout::left_numbers(core));
}

// Plays a list of calls on a fresh core and the lent memory, and writes the answers and then what the list left; a list that cannot be
// played changes nothing. What it answers, writes and leaves in memory is what the instruction machine does.
pub fn replay(
    calls: &[u64],
    text: &[u8],
    memory: &mut [u16],
    answers: &mut [u64],
) -> Result<usize, ReplayError>
    ensures { replay_gave result memory.new answers.new ≡ replayed (read_calls text.now calls.now) memory.old answers.old }
{
    let count = check(calls, text, answers.len())?;
    play_all(calls, text, memory, answers);
    Ok(count)
}
