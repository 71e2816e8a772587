// The core of document 01, by value, and its five calls: reset, load, run, step and view. Run goes by cycles of the datapath, and by whole
// instructions where the budget has room for them; step is one instruction. No call asks anything of its caller: what does not fit is refused
// and changes nothing. In a contract `self` is the core as it was handed in, whatever becomes of it.
#![tactic(auto)]

ghost use Rattle.std.specs.Prelude.{◌≡◌, true, false, cond, ◌+◌, ◌≤◌, ◌<◌, ltb, set};
ghost use Rattle.words.specs.Arithmetic.{bit};
ghost use Rattle.refusals.specs.Verdicts.{verdict_number};
ghost use Rattle.effects.specs.Effect.{applied};
ghost use Rattle.effects.specs.Hidden.{no_hidden};
ghost use Rattle.effects.specs.Cycles.{stop_of};
ghost use Rattle.r8_core.specs.declared.ListingError.TheVariants.{Refused, Faulty};
ghost use Rattle.r8_core.specs.Cores.{fresh_core, with_hidden, stopped, visible_of, register, effect_before};
ghost use Rattle.r8_core.specs.Spent.{spent_of, due_in_range, due_one};
ghost use Rattle.r8_core.specs.Datapath.{fetched, latched, second, with_result, third, with_effect, due_after, ticked, transition, idle, is_last, later_cycle, due_cycle, cycle_or_idle};
ghost use Rattle.r8_core.specs.Instruction.{memory_after};
ghost use Rattle.r8_core.specs.WholeInstructions.{working_from, seen, joined, effect_before_of, executed_of, working_after, working_on, bank_on, has_room, instructions_on, instructions_or_cycle, reached};
ghost use Rattle.r8_core.specs.Numbers.{is_going, longest, clock_full, view_number, load_number, run_number};
ghost use Rattle.r8_core.specs.Progress.{starting, cycle_on};
ghost use Rattle.r8_core.specs.Calls.{ran, going_end, end_of, reset, load, run, step, view};
ghost use Rattle.r8_core.specs.Answers.{run_answer_of, shown, snapshot_of, reset_gave, load_gave, run_gave, view_gave};

use alu::Outcome;
use effects::{Effect, Executed, Hidden, Stop, Store};
use isa::{Cycles, Flags, Kind};
use listing::FaultAt;
use refusals::Refusal;

// The most cycles that an instruction takes.
const LONGEST: u32 = 4;

// A number of instructions, which no addition joins with a number of cycles.
#[derive(Clone, Copy)]
pub struct Instructions(pub u32);

// The core. `due` is the cycle due next, 1 to 4 on every core that calls make of a fresh one. A core is written out in `fresh` and `by_fields`
// alone.
#[derive(Clone, Copy)]
pub struct Core {
    pub regs: [u16; 16],
    pub pc: u16,
    pub sp: u16,
    pub flags: Flags,
    pub hidden: Hidden,
    pub due: u8,
    pub stop: Stop,
    pub clock: Cycles,
}

// A core after a cycle (or after none), whether that finished an instruction, and the store that is to be made, if any.
#[derive(Clone, Copy)]
pub struct Transition {
    pub core: Core,
    pub finished: bool,
    pub store: Option<Store>,
}

// What whole instructions change of a core with cycle 1 due, but for its bank of registers and its clock, and what is left of the budget that
// they spend. They are executed on bank and state apart, so that none of them copies the bank.
#[derive(Clone, Copy)]
struct Working {
    pc: u16,
    sp: u16,
    flags: Flags,
    hidden: Hidden,
    stop: Stop,
    left: Cycles,
}

// A core some cycles on, how many they are, and how many instructions they finished.
#[derive(Clone, Copy)]
struct Moved {
    core: Core,
    cycles: Cycles,
    instructions: Instructions,
}

// How a run or a step ends: H halted, U undefined, B with cycle 1 due, M in the middle of an instruction.
#[derive(Clone, Copy)]
pub enum End {
    H,
    U,
    B,
    M,
}

// What a run or a step that is taken did.
#[derive(Clone, Copy)]
pub struct Ran {
    pub cycles: Cycles,
    pub instructions: Instructions,
    pub end: End,
}

// Why a listing was not loaded, or not written out: the call is refused, or a line is at fault.
#[derive(Clone, Copy)]
pub enum ListingError {
    Refused(Refusal),
    Faulty(FaultAt),
}

impl From<Refusal> for ListingError {
    ghost from_gives = { λ why e. e ≡ Refused why };

    fn from(why: Refusal) -> ListingError {
        ListingError::Refused(why)
    }
}

impl From<FaultAt> for ListingError {
    ghost from_gives = { λ at e. e ≡ Faulty at };

    fn from(at: FaultAt) -> ListingError {
        ListingError::Faulty(at)
    }
}

// All of a core but its hidden registers.
#[derive(Clone, Copy)]
pub struct Snapshot {
    pub regs: [u16; 16],
    pub pc: u16,
    pub sp: u16,
    pub flags: Flags,
    pub stop: Stop,
    pub due: u8,
    pub clock: Cycles,
}

// What a call gives back: the next core and the answer.
#[derive(Clone, Copy)]
pub struct Answered<A> {
    pub core: Core,
    pub answer: A,
}

// How many words a load stored, or why it stored none.
pub type LoadReply = Answered<Result<usize, ListingError>>;

// What a run or a step did, or why it is refused.
pub type RunReply = Answered<Result<Ran, Refusal>>;

// What a view shows, or why it is refused.
pub type ViewReply = Answered<Result<Snapshot, Refusal>>;

impl Answered<Result<Snapshot, Refusal>> {
    // What a view shows. A refused one answers its number alone, and the papers leave free what it shows: it is a fresh core's snapshot.
    pub fn snapshot(self) -> Snapshot
        ensures { result ≡ snapshot_of self.answer }
    {
        match self.answer {
            Ok(snapshot) => snapshot,
            Err(_) => fresh().snapshot(),
        }
    }
}

// A fresh core: zero everywhere, going, with cycle 1 due.
pub fn fresh() -> Core
    ensures { result ≡ fresh_core }
{
    Core {
        regs: [0u16; 16],
        pc: 0,
        sp: 0,
        flags: Flags {
            n: false,
            z: false,
            c: false,
            v: false,
        },
        hidden: no_hidden(),
        due: 1,
        stop: Stop::Going,
        clock: Cycles(0),
    }
}

fn no_hidden() -> Hidden
    ensures { result ≡ no_hidden }
{
    Hidden {
        ir: 0,
        ra: 0,
        rb: 0,
        ralu: 0,
    }
}

// The word in a register; there is none past the bank.
fn register_of(regs: &[u16], i: u8) -> u16
    ensures { result ≡ register regs.now i }
{
    regs.get(usize::from(i)).copied().unwrap_or(0)
}

fn set_register(regs: &mut [u16], i: u8, value: u16)
    ensures { regs.new ≡ set regs.old i value }
{
    let i = usize::from(i);
    if i < regs.len() {
        regs[i] = value;
    }
}

fn is_going(stop: Stop) -> bool
    ensures { result ≡ is_going stop }
{
    matches!(stop, Stop::Going)
}

fn clock_full(clock: Cycles, b: u32) -> bool
    ensures { result ≡ clock_full clock.0 b }
{
    clock.0.checked_add(b).is_none()
}

// Why a load is refused before its lines: 1, 7.
#[tactic(auto, unfolding(crate::specs::Numbers::load_number, refusals::specs::Refusals::first_number))]
fn load_verdict(words: usize, ready: bool) -> Result<(), Refusal>
    ensures { verdict_number result ≡ load_number words ready }
{
    if refusals::wrong_length(words) {
        return Err(Refusal::WrongLength);
    }
    if !ready {
        return Err(Refusal::WrongCycle);
    }
    Ok(())
}

// The store of a cycle or an instruction, made.
fn apply(store: Option<Store>, memory: &mut [u16])
    ensures { memory.new ≡ applied store memory.old }
{
    if let Some(Store { address, word }) = store {
        words::write(memory, address, word);
    }
}

impl Working {
    // Is the core going, and is there room for an instruction, whatever it takes?
    fn has_room(self) -> bool
        ensures { result ≡ has_room self.stop self.left.0 }
    {
        is_going(self.stop) && LONGEST <= self.left.0
    }

    // And is one more asked? Asked last: so ordered, instructions that do not stop skip the question whether the core is going.
    fn may_go_on(self, more: u32) -> bool
        ensures { result ≡ cond (has_room self.stop self.left.0) (ltb 0 more) false }
    {
        self.has_room() && 0 < more
    }

    // What an instruction can change, as it is with PC one past it.
    fn before(self, rt: u16) -> Effect
        ensures { result ≡ effect_before_of self rt }
    {
        Effect {
            rt,
            pc: words::add(self.pc, 1),
            sp: self.sp,
            flags: self.flags,
            stop: self.stop,
            store: None,
        }
    }

    // The instruction `word` by the table, on the registers that it names.
    fn execute(self, kind: Kind, word: u16, regs: &[u16], memory: &[u16]) -> Executed
        ensures { result ≡ executed_of kind word regs.now memory.now self }
    {
        let ra = register_of(regs, isa::field_a(word));
        let rb = register_of(regs, isa::field_b(word));
        let before = self.before(register_of(regs, isa::field_t(word)));
        effects::execute(kind, word, ra, rb, self.hidden, memory, before)
    }

    // The state after that instruction and its cycles, with the hidden registers as these leave them; `regs` are the registers before it. The
    // hidden registers are written out here: a run takes longer where a callee makes them.
    fn after(self, kind: Kind, word: u16, regs: &[u16], done: Executed, cycles: Cycles) -> Working
        requires { cycles.0 ≤ self.left.0 }
        ensures { result ≡ working_after kind word regs.now done cycles.0 self }
    {
        let stop = effects::stop_of(kind);
        let ra = register_of(regs, isa::field_a(word));
        let second = isa::second_register(kind, isa::field_t(word), isa::field_b(word));
        let rb = register_of(regs, second);
        let effect = done.effect;
        let hidden = self.hidden;
        Working {
            pc: effect.pc,
            sp: effect.sp,
            flags: effect.flags,
            hidden: Hidden {
                ir: word,
                ra: effects::unless_stopping(stop, ra, hidden.ra),
                rb: effects::unless_stopping(stop, rb, hidden.rb),
                ralu: done.ralu,
            },
            stop: effect.stop,
            left: Cycles(self.left.0 - cycles.0),
        }
    }

    // The instruction engine: the instruction at PC, with the bank and the memory changed where they lie.
    #[tactic(auto, using(crate::proofs::Cycles::cost_of_range), unfolding(crate::specs::Instruction::takes, crate::specs::Instruction::memory_after))]
    fn instruct(self, regs: &mut [u16], memory: &mut [u16]) -> Working
        requires { longest ≤ self.left.0 }
        ensures { (result ≡ working_on memory.old regs.old self) × (regs.new ≡ bank_on memory.old regs.old self) × (memory.new ≡ memory_after memory.old (seen self regs.old)) }
    {
        let word = words::read(memory, self.pc);
        let kind = table::kind_of(word);
        let done = self.execute(kind, word, regs, memory);
        let next = self.after(kind, word, regs, done, isa::cost(kind, self.flags));
        set_register(regs, isa::field_t(word), done.effect.rt);
        apply(done.effect.store, memory);
        next
    }
}

impl Core {
    // The core in another stop state.
    pub fn with_stop(mut self, next: Stop) -> Core
        ensures { result ≡ stopped next self }
    {
        self.stop = next;
        self
    }

    // Cycle 1: IR takes M(PC); PC+1.
    fn fetch(mut self, memory: &[u16]) -> Core
        ensures { result ≡ fetched memory.now self }
    {
        self.hidden.ir = words::read(memory, self.pc);
        self.pc = words::add(self.pc, 1);
        self
    }

    // Cycle 2 of a word that does not stop.
    fn latch(mut self, kind: Kind) -> Core
        ensures { result ≡ latched kind self }
    {
        let word = self.hidden.ir;
        let t = isa::field_t(word);
        let a = isa::field_a(word);
        let b = isa::field_b(word);
        self.hidden.ra = register_of(&self.regs, a);
        self.hidden.rb = register_of(&self.regs, isa::second_register(kind, t, b));
        self
    }

    fn with_result(mut self, outcome: Outcome) -> Core
        ensures { result ≡ with_result outcome self }
    {
        self.flags = outcome.flags;
        self.hidden.ralu = outcome.value;
        self
    }

    // Cycle 2: HALT and undefined words stop the core, all others have their registers latched.
    fn stop_or_latch(self, kind: Kind) -> Core
        ensures { result ≡ second (stop_of kind) kind self }
    {
        match effects::stop_of(kind) {
            Stop::Going => self.latch(kind),
            stop => self.with_stop(stop),
        }
    }

    // What the instruction in IR can change, as it is: Rt, PC, SP, flags and stop state, and nothing to store.
    fn effect_before(self) -> Effect
        ensures { result ≡ effect_before self.hidden.ir (visible_of self) }
    {
        Effect {
            rt: register_of(&self.regs, isa::field_t(self.hidden.ir)),
            pc: self.pc,
            sp: self.sp,
            flags: self.flags,
            stop: self.stop,
            store: None,
        }
    }

    // Cycle 3: RALU and flags.
    fn calculate(self, kind: Kind) -> Core
        ensures { result ≡ third kind self }
    {
        let outcome = effects::calculate(kind, self.hidden, self.effect_before());
        self.with_result(outcome)
    }

    // An effect put into the core, all but its store.
    fn with_effect(mut self, effect: Effect) -> Core
        ensures { result ≡ with_effect effect self }
    {
        let t = isa::field_t(self.hidden.ir);
        set_register(&mut self.regs, t, effect.rt);
        self.pc = effect.pc;
        self.sp = effect.sp;
        self.flags = effect.flags;
        self.with_stop(effect.stop)
    }

    // Is the cycle due the last of the instruction in IR?
    fn is_last(self, kind: Kind) -> bool
        ensures { result ≡ is_last kind self }
    {
        isa::cost(kind, self.flags).0 <= u32::from(self.due)
    }

    // The core after a cycle: the clock grows by 1; cycle 1 is due after the last cycle of an instruction, else the next one.
    fn transition(mut self, finished: bool, store: Option<Store>) -> Transition
        requires { (self.clock.0 < 4294967295) × (self.due ≤ 4) }
        ensures { result ≡ transition finished self store }
    {
        self.clock.0 += 1;
        self.due = if finished { 1 } else { self.due + 1 };
        Transition {
            core: self,
            finished,
            store,
        }
    }

    // No cycle.
    fn idle(self) -> Transition
        ensures { result ≡ idle self }
    {
        Transition {
            core: self,
            finished: false,
            store: None,
        }
    }

    // The datapath engine: one cycle, for every core. One whose clock is full, or whose cycle due is none of 1 to 4, is handed back as it is. The
    // store is the caller's to make; whether the core is going is the caller's to ask.
    #[tactic(auto, unfolding(crate::specs::Datapath::cycle_or_idle))]
    pub fn cycle(self, memory: &[u16]) -> Transition
        ensures { result ≡ cycle_or_idle memory.now self }
    {
        if clock_full(self.clock, 1) {
            return self.idle();
        }
        self.due_cycle(memory)
    }

    // The cycle due, where the clock has room for it; with a number due that is none of 1 to 4 nothing happens (run refuses it).
    #[tactic(auto, unfolding(crate::specs::Datapath::due_cycle, crate::specs::Datapath::later_cycle))]
    fn due_cycle(self, memory: &[u16]) -> Transition
        requires { self.clock.0 < 4294967295 }
        ensures { result ≡ due_cycle memory.now self }
    {
        if self.due == 1 {
            return self.fetch(memory).transition(false, None);
        }
        let kind = table::kind_of(self.hidden.ir);
        let last = self.is_last(kind);
        match self.due {
            2 => self.stop_or_latch(kind).transition(last, None),
            3 => self.calculate(kind).transition(last, None),
            4 => {
                let effect = effects::write_back(kind, self.hidden, memory, self.effect_before());
                self.with_effect(effect).transition(last, effect.store)
            }
            _ => self.idle(),
        }
    }

    // The state that whole instructions start from, with a budget.
    fn working_from(self, b: u32) -> Working
        ensures { result ≡ working_from b self }
    {
        Working {
            pc: self.pc,
            sp: self.sp,
            flags: self.flags,
            hidden: self.hidden,
            stop: self.stop,
            left: Cycles(b),
        }
    }

    // The core with a state and a bank put into it, its clock on by the cycles used, and all else as it is.
    fn joined(mut self, state: Working, regs: [u16; 16], used: Cycles) -> Core
        requires { self.clock.0 + used.0 ≤ 4294967295 }
        ensures { result ≡ joined self state regs used.0 }
    {
        self.regs = regs;
        self.pc = state.pc;
        self.sp = state.sp;
        self.flags = state.flags;
        self.hidden = state.hidden;
        self.clock.0 += used.0;
        self.with_stop(state.stop)
    }

    // At most `most` whole instructions of a core with cycle 1 due, each where it is going and what is left of the budget has room for one.
    fn instructions(self, most: u32, b: u32, memory: &mut [u16]) -> Moved
        requires { (due_one self ≡ true) × (self.clock.0 + b ≤ 4294967295) }
        ensures { reached result memory.new ≡ instructions_on most b (starting self memory.old) }
    {
        let mut regs = self.regs;
        let mut state = self.working_from(b);
        let mut more = most;
        while state.may_go_on(more) {
            state = state.instruct(&mut regs, memory);
            more -= 1;
        }
        let cycles = Cycles(b - state.left.0);
        Moved {
            core: self.joined(state, regs, cycles),
            cycles,
            instructions: Instructions(most - more),
        }
    }

    // A turn of run's loop: whole instructions where cycle 1 is due and there is room for one, else a cycle.
    #[tactic(auto, unfolding(crate::specs::Progress::cycle_on, crate::specs::Datapath::due_cycle))]
    fn instructions_or_cycle(self, b: u32, memory: &mut [u16]) -> Moved
        requires { (1 ≤ b) × (self.clock.0 + b ≤ 4294967295) }
        ensures { reached result memory.new ≡ instructions_or_cycle b (starting self memory.old) }
    {
        if LONGEST <= b && self.one_due() {
            // A copy for this call: single cycles take longer where the compiler lends it run's own core.
            let whole = self;
            return whole.instructions(b, b, memory);
        }
        let transition = self.due_cycle(memory);
        apply(transition.store, memory);
        Moved {
            core: transition.core,
            cycles: Cycles(1),
            instructions: Instructions(u32::from(transition.finished)),
        }
    }

    // The same core, copied field by field: what was just written by fields is read again at once, and a copy of several fields at a time waits.
    fn by_fields(self) -> Core
        ensures { result ≡ self }
    {
        let Hidden { ir, ra, rb, ralu } = self.hidden;
        let Flags { n, z, c, v } = self.flags;
        let regs = self.regs;
        Core {
            regs,
            pc: self.pc,
            sp: self.sp,
            flags: Flags { n, z, c, v },
            hidden: Hidden { ir, ra, rb, ralu },
            due: self.due,
            stop: self.stop,
            clock: Cycles(self.clock.0),
        }
    }

    // The hidden registers zero.
    fn without_hidden(mut self) -> Core
        ensures { result ≡ with_hidden no_hidden self }
    {
        self.hidden = no_hidden();
        self
    }

    fn one_due(self) -> bool
        ensures { result ≡ due_one self }
    {
        self.due == 1
    }

    fn due_in_range(self) -> bool
        ensures { result ≡ due_in_range self }
    {
        (1..=4).contains(&self.due)
    }

    // The cycles spent in an unfinished instruction, of a core that calls made of a fresh one.
    pub fn spent(self) -> u8
        ensures { result ≡ spent_of self }
    {
        self.due.saturating_sub(1)
    }

    fn snapshot(self) -> Snapshot
        ensures { result ≡ shown self }
    {
        let regs = self.regs;
        Snapshot {
            regs,
            pc: self.pc,
            sp: self.sp,
            flags: self.flags,
            stop: self.stop,
            due: self.due,
            clock: self.clock,
        }
    }

    // The end letter.
    fn end(self) -> End
        ensures { result ≡ end_of self.stop (due_one self) }
    {
        match self.stop {
            Stop::Halted => End::H,
            Stop::Undefined => End::U,
            Stop::Going if self.one_due() => End::B,
            Stop::Going => End::M,
        }
    }

    // Why a run is refused, and a step with 4 for b: 1, 8, 7, 9.
    #[tactic(auto, unfolding(crate::specs::Numbers::run_number, refusals::specs::Refusals::first_number))]
    fn run_verdict(&self, length: usize, ready: bool, b: u32) -> Result<(), Refusal>
        ensures { verdict_number result ≡ run_number length self.now.stop ready self.now.clock.0 b }
    {
        if refusals::wrong_length(length) {
            return Err(Refusal::WrongLength);
        }
        if !is_going(self.stop) {
            return Err(Refusal::Stopped);
        }
        if !ready {
            return Err(Refusal::WrongCycle);
        }
        if clock_full(self.clock, b) {
            return Err(Refusal::ClockFull);
        }
        Ok(())
    }

    // A fresh core for this one.
    #[tactic(auto, unfolding(crate::specs::Calls::reset))]
    pub fn reset(mut self) -> Core
        ensures { reset_gave result ≡ reset self }
    {
        self = fresh();
        self
    }

    // A listing, checked and stored.
    pub fn load(self, text: &[u8], memory: &mut [u16]) -> LoadReply
        ensures { load_gave result memory.new ≡ load text.now self memory.old }
    {
        let answer = self.loaded(text, memory);
        Answered { core: self, answer }
    }

    #[tactic(auto, unfolding(crate::specs::Calls::load))]
    fn loaded(self, text: &[u8], memory: &mut [u16]) -> Result<usize, ListingError>
        ensures { load_gave (record { core = self; answer = result }) memory.new ≡ load text.now self memory.old }
    {
        load_verdict(memory.len(), self.one_due())?;
        Ok(listing::store(text, memory)?)
    }

    // b datapath cycles, fewer if the core stops.
    pub fn run(mut self, b: u32, memory: &mut [u16]) -> RunReply
        ensures { run_gave result memory.new ≡ run b self memory.old }
    {
        let answer = self.ran(b, memory);
        Answered { core: self, answer }
    }

    fn ran(&mut self, b: u32, memory: &mut [u16]) -> Result<Ran, Refusal>
        ensures { run_gave (record { core = self.new; answer = result }) memory.new ≡ run b self.old memory.old }
    {
        self.run_verdict(memory.len(), self.due_in_range(), b)?;
        let mut used = Cycles(0);
        let mut finished = Instructions(0);
        while used.0 < b && is_going(self.stop) {
            let moved = self.instructions_or_cycle(b - used.0, memory);
            used.0 += moved.cycles.0;
            finished.0 += moved.instructions.0;
            *self = moved.core.by_fields();
        }
        Ok(Ran {
            cycles: used,
            instructions: finished,
            end: self.end(),
        })
    }

    // One instruction by the instruction engine; the hidden registers become zero. The core stays by value: a step takes longer where it is lent.
    pub fn step(mut self, memory: &mut [u16]) -> RunReply
        ensures { run_gave result memory.new ≡ step self memory.old }
    {
        if let Err(why) = self.run_verdict(memory.len(), self.one_due(), LONGEST) {
            return Answered {
                core: self,
                answer: Err(why),
            };
        }
        let one = self.instructions(1, LONGEST, memory);
        self = one.core.without_hidden();
        Answered {
            core: self,
            answer: Ok(Ran {
                cycles: one.cycles,
                instructions: one.instructions,
                end: self.end(),
            }),
        }
    }

    // All but the hidden registers, of a core with cycle 1 due.
    pub fn view(self) -> ViewReply
        ensures reply { view_gave result ≡ view self }
        ensures snapshot { snapshot_of result.answer ≡ shown (cond (due_one self) self fresh_core) }
    {
        let answer = self.viewed();
        Answered { core: self, answer }
    }

    // A view is refused with 7 alone.
    #[tactic(auto, unfolding(crate::specs::Calls::view, crate::specs::Numbers::view_number, refusals::specs::Refusals::first_number))]
    fn viewed(self) -> Result<Snapshot, Refusal>
        ensures snapshot { snapshot_of result ≡ shown (cond (due_one self) self fresh_core) }
        ensures reply { view_gave (record { core = self; answer = result }) ≡ view self }
    {
        if !self.one_due() {
            return Err(Refusal::WrongCycle);
        }
        Ok(self.snapshot())
    }
}
