// A list of calls given as data.
ghost use Rattle.std.specs.Prelude.{◌≡◌};
ghost use Rattle.replay.specs.Replay.{read_calls, replayed};
ghost use Rattle.r8.specs.Codes.{code_number};
ghost use Rattle.r8.specs.Replay.{replay_code, replay_place, replay_returned, returned_replay};

use super::codes;
use replay::ReplayError;

fn code_of(answer: Result<usize, ReplayError>) -> u32
    ensures { result ≡ code_number (replay_code answer) }
{
    match answer {
        Ok(_) => codes::OK,
        Err(ReplayError::NoCall(_)) => codes::NO_CALL,
        Err(ReplayError::NoStretch(_)) => codes::NO_STRETCH,
        Err(ReplayError::NoRoom) => codes::NO_ROOM,
    }
}

// How many calls were played, or the index of the faulty one.
fn place_of(answer: Result<usize, ReplayError>) -> usize
    ensures { result ≡ replay_place answer }
{
    match answer {
        Ok(count) => count,
        Err(ReplayError::NoCall(i) | ReplayError::NoStretch(i)) => i,
        Err(ReplayError::NoRoom) => 0,
    }
}

pub fn r8_replay(
    calls: &[u64],
    text: &[u8],
    memory: &mut [u16],
    answers: &mut [u64],
    at: &mut u64,
) -> u32
    ensures { returned_replay result at.new memory.new answers.new ≡ replay_returned (replayed (read_calls text.now calls.now) memory.old answers.old) }
{
    let answer = replay::replay(calls, text, memory, answers);
    *at = place_of(answer) as u64;
    code_of(answer)
}
