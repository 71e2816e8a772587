// The calls with their answers laid out as numbers: 23 for each, the case first, then what it names, then zeros.
#![tactic(auto)]

ghost use Rattle.std.specs.Prelude.{◌≡◌, List, [], ◌∷◌, ℕ, ◌≤◌};
ghost use Rattle.r8_core.specs.Calls;
ghost use Rattle.r8_core.specs.Calls.{done, refused, reset, load, run, step, view};
ghost use Rattle.refusals.specs.Refusals.{refusal_number};
ghost use Rattle.r8_core.specs.Cores.{visible, visible_of};
ghost use Rattle.r8_core.specs.Spent.{spent_of};
ghost use Rattle.r8_core.specs.Answers.{load_answer_of, run_answer_of, view_answer_of};
ghost use Rattle.layout.specs.Layout.{padded, flags_number, flags_of, stop_number, seen_numbers, answer_numbers, left_numbers, onto_if_room, numbered, gave};

use effects::Stop;
use isa::Flags;
use r8_core::{Answered, Core, ListingError, Ran, Snapshot};
use refusals::Refusal;

// The next core, and the answer's numbers.
#[derive(Drop)]
pub struct Numbered {
    pub core: Core,
    pub numbers: [u64; 23],
}

// 8N+4Z+2C+V. Functions, since neither flags nor stop states nor numbers are types of this crate, and so no `From` may be written here.
pub fn flags_number(flags: Flags) -> u64
    ensures { result ≡ flags_number flags }
{
    8 * u64::from(flags.n) + 4 * u64::from(flags.z) + 2 * u64::from(flags.c) + u64::from(flags.v)
}

// The flags of such a number, by its last four bits.
pub fn flags_of(number: u64) -> Flags
    ensures { result ≡ flags_of number }
{
    Flags {
        n: number / 8 % 2 == 1,
        z: number / 4 % 2 == 1,
        c: number / 2 % 2 == 1,
        v: number % 2 == 1,
    }
}

pub fn stop_number(stop: Stop) -> u64
    ensures { result ≡ stop_number stop }
{
    match stop {
        Stop::Going => 0,
        Stop::Halted => 1,
        Stop::Undefined => 2,
    }
}

// These numbers, then zeros.
fn padded<const N: usize>(front: [u64; N]) -> [u64; 23]
    requires { N ≤ 23 }
    ensures { result ≡ padded front.entry }
{
    let mut numbers = [0; 23];
    numbers[..N].copy_from_slice(&front);
    numbers
}

// What a reset answers.
#[tactic(auto, unfolding(crate::specs::Layout::answer_numbers))]
pub fn done_numbers() -> [u64; 23]
    ensures { result ≡ answer_numbers done }
{
    padded([0])
}

#[tactic(auto, unfolding(crate::specs::Layout::answer_numbers))]
fn refused_numbers(why: Refusal) -> [u64; 23]
    ensures { result ≡ answer_numbers (refused (refusal_number why)) }
{
    padded([4, u64::from(u8::from(why))])
}

// What is seen of a core, with the case; `due` is the cycle due, or the cycles spent.
#[tactic(auto, using(crate::proofs::Bank::bank_back))]
fn seen_numbers(kind: u64, s: Snapshot) -> [u64; 23]
    ensures { result ≡ seen_numbers kind (visible s.regs s.pc s.sp s.flags s.stop) s.due s.clock.0 }
{
    let mut numbers = [kind; 23];
    numbers[1..17].copy_from_slice(&s.regs.map(u64::from));
    numbers[17..].copy_from_slice(&[
        u64::from(s.pc),
        u64::from(s.sp),
        flags_number(s.flags),
        stop_number(s.stop),
        u64::from(s.due),
        u64::from(s.clock.0),
    ]);
    numbers
}

// What a call answers, as the definitions have it and as numbers.
pub trait Answer {
    ghost said: { Self → Calls.Answer };

    fn numbers(self) -> [u64; 23]
        ensures { result ≡ answer_numbers (said self) };
}

impl Answer for Result<usize, ListingError> {
    ghost said = { load_answer_of };

    #[tactic(auto, unfolding(crate::specs::Layout::answer_numbers))]
    fn numbers(self) -> [u64; 23] {
        match self {
            Ok(count) => padded([1, count as u64]),
            Err(ListingError::Refused(why)) => refused_numbers(why),
            Err(ListingError::Faulty(at)) => padded([
                5,
                u64::from(u8::from(at.fault)),
                at.offset as u64,
            ]),
        }
    }
}

impl Answer for Result<Ran, Refusal> {
    ghost said = { run_answer_of };

    #[tactic(auto, unfolding(crate::specs::Layout::answer_numbers))]
    fn numbers(self) -> [u64; 23] {
        match self {
            Ok(ran) => padded([
                2,
                u64::from(ran.cycles.0),
                u64::from(ran.instructions.0),
                u64::from(text::letter(ran.end)),
            ]),
            Err(why) => refused_numbers(why),
        }
    }
}

impl Answer for Result<Snapshot, Refusal> {
    ghost said = { view_answer_of };

    #[tactic(auto, unfolding(crate::specs::Layout::answer_numbers))]
    fn numbers(self) -> [u64; 23] {
        match self {
            Ok(snapshot) => seen_numbers(3, snapshot),
            Err(why) => refused_numbers(why),
        }
    }
}

// What a list of calls left of a core: of the registers and flags, where an instruction is unfinished, those of a fresh one.
#[tactic(auto, unfolding(crate::specs::Layout::left_numbers))]
pub fn left_numbers(core: Core) -> [u64; 23]
    ensures { result ≡ left_numbers (visible_of core) (spent_of core) core.clock.0 }
{
    let spent = core.spent();
    let seen = if spent == 0 { core } else { r8_core::fresh() };
    // by a name: the borrow checker wants one for an array that goes from a field into another struct
    let regs = seen.regs;
    seen_numbers(
        6,
        Snapshot {
            regs,
            pc: seen.pc,
            sp: seen.sp,
            flags: seen.flags,
            stop: core.stop,
            due: spent,
            clock: core.clock,
        },
    )
}

// Writes an answer's numbers to the front of a slice; one that is too short stays as it is.
pub fn put(answers: &mut [u64], numbers: [u64; 23])
    ensures { answers.new ≡ onto_if_room numbers answers.old }
{
    if let Some(front) = answers.first_chunk_mut() {
        *front = numbers;
    }
}

// A reply, with its answer as numbers.
impl<A: Answer> From<Answered<A>> for Numbered {
    ghost from_gives = { λ reply n. (n.core ≡ reply.core) × (n.numbers ≡ answer_numbers (A.said reply.answer)) };

    fn from(reply: Answered<A>) -> Numbered {
        Numbered {
            core: reply.core,
            numbers: reply.answer.numbers(),
        }
    }
}

// The calls.
pub fn reset(core: Core) -> Numbered
    ensures { (memory : List ℕ) → gave result memory ≡ numbered (reset core memory) }
{
    Numbered {
        core: core.reset(),
        numbers: done_numbers(),
    }
}

pub fn load(core: Core, listing: &[u8], memory: &mut [u16]) -> Numbered
    ensures { gave result memory.new ≡ numbered (load listing.now core memory.old) }
{
    core.load(listing, memory).into()
}

pub fn run(core: Core, b: u32, memory: &mut [u16]) -> Numbered
    ensures { gave result memory.new ≡ numbered (run b core memory.old) }
{
    core.run(b, memory).into()
}

pub fn step(core: Core, memory: &mut [u16]) -> Numbered
    ensures { gave result memory.new ≡ numbered (step core memory.old) }
{
    core.step(memory).into()
}

pub fn view(core: Core) -> Numbered
    ensures { (memory : List ℕ) → gave result memory ≡ numbered (view core memory) }
{
    core.view().into()
}
