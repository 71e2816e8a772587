// What an instruction does to the values that it can reach: by the instruction table at once, and cycle by cycle, of cycle 2 whether it stops
// and what RA and RB are after it. There is no core here: the caller hands in the registers that the word names, and writes back what comes out.
#![tactic(auto)]

ghost use Rattle.std.specs.Prelude.{◌≡◌};
ghost use Rattle.effects.specs.Effect.{to_rt, to_pc, to_sp, stopping, storing, arithmetic_result, pushed};
ghost use Rattle.effects.specs.Table.{jumped};
ghost use Rattle.effects.specs.Cycles.{stop_of, calculated, written_back, unless_stopping, leaving, whole_instruction};

use alu::Outcome;
use isa::{Flags, Kind};

// The stop state.
#[derive(Clone, Copy, PartialEq, Eq)]
pub enum Stop {
    Going,
    Halted,
    Undefined,
}

// A word that is to be stored.
#[derive(Clone, Copy)]
pub struct Store {
    pub address: u16,
    pub word: u16,
}

// The hidden registers.
#[derive(Clone, Copy)]
pub struct Hidden {
    pub ir: u16,
    pub ra: u16,
    pub rb: u16,
    pub ralu: u16,
}

// What an instruction can change: the register that its field t names, PC, SP, flags, stop state, and one word of memory.
#[derive(Clone, Copy)]
pub struct Effect {
    pub rt: u16,
    pub pc: u16,
    pub sp: u16,
    pub flags: Flags,
    pub stop: Stop,
    pub store: Option<Store>,
}

// What a whole instruction does, and what its cycles leave in RALU.
#[derive(Clone, Copy)]
pub struct Executed {
    pub effect: Effect,
    pub ralu: u16,
}

impl Effect {
    fn with_rt(self, rt: u16) -> Effect
        ensures { result ≡ to_rt rt self }
    {
        Effect { rt, ..self }
    }

    fn with_pc(self, pc: u16) -> Effect
        ensures { result ≡ to_pc pc self }
    {
        Effect { pc, ..self }
    }

    fn with_sp(self, sp: u16) -> Effect
        ensures { result ≡ to_sp sp self }
    {
        Effect { sp, ..self }
    }

    fn with_stop(self, stop: Stop) -> Effect
        ensures { result ≡ stopping stop self }
    {
        Effect { stop, ..self }
    }

    fn with_store(self, address: u16, word: u16) -> Effect
        ensures { result ≡ storing address word self }
    {
        Effect {
            store: Some(Store { address, word }),
            ..self
        }
    }

    // Written anew: with its two fields set in place a run takes twice as long.
    fn with_result(self, outcome: Outcome) -> Effect
        ensures { result ≡ arithmetic_result outcome self }
    {
        Effect {
            rt: outcome.value,
            flags: outcome.flags,
            ..self
        }
    }

    fn push(self, word: u16) -> Effect
        ensures { result ≡ pushed word self }
    {
        self.with_store(self.sp, word)
            .with_sp(words::subtract(self.sp, 1))
    }

    fn jump(self, goes: bool, target: u16) -> Effect
        ensures { result ≡ jumped goes target self }
    {
        if goes { self.with_pc(target) } else { self }
    }

    fn leaving(self, ralu: u16) -> Executed
        ensures { result ≡ leaving ralu self }
    {
        Executed { effect: self, ralu }
    }

    // o 0 to 8 and SL0 to NOT: RALU takes the value that Rt takes.
    fn arithmetic(self, outcome: Outcome) -> Executed
        ensures { result ≡ leaving outcome.value (arithmetic_result outcome self) }
    {
        self.with_result(outcome).leaving(outcome.value)
    }
}

// A whole instruction, by the table: `ra` and `rb` are Ra and Rb, `hidden` are the hidden registers before it, and PC of `before` is one past
// it.
pub fn execute(
    kind: Kind,
    word: u16,
    ra: u16,
    rb: u16,
    hidden: Hidden,
    memory: &[u16],
    before: Effect,
) -> Executed
    ensures { result ≡ whole_instruction kind word ra rb hidden memory.now before }
{
    let Effect { rt, pc, flags, .. } = before;
    let ralu = hidden.ralu;
    let above = words::add(before.sp, 1);
    let sum = words::add(ra, rb);
    match kind {
        Kind::Undefined => before.with_stop(Stop::Undefined).leaving(ralu),
        Kind::Binary(op) => before.arithmetic(alu::binary(op, ra, rb, flags)),
        Kind::Constant(op) => before.arithmetic(alu::constant(op, rt, isa::field_k(word), flags)),
        Kind::Ld => before.with_rt(words::read(memory, sum)).leaving(sum),
        Kind::St => before.with_store(sum, rt).leaving(sum),
        Kind::Unary(op) => before.arithmetic(alu::unary(op, ra, flags)),
        Kind::Nop => before.leaving(ralu),
        Kind::Halt => before.with_stop(Stop::Halted).leaving(ralu),
        Kind::Ldsp => before.with_sp(ra).leaving(ra),
        Kind::Rts => before
            .with_sp(above)
            .with_pc(words::read(memory, above))
            .leaving(above),
        Kind::Pop => before
            .with_sp(above)
            .with_rt(words::read(memory, above))
            .leaving(above),
        Kind::Push => before.push(rt).leaving(rt),
        Kind::Jump(condition, target) => {
            let to = isa::jump_target(target, word, pc, ra);
            before.jump(isa::is_taken(condition, flags), to).leaving(to)
        }
        Kind::Call(target) => {
            let to = isa::call_target(target, word, pc, ra);
            before.push(pc).with_pc(to).leaving(to)
        }
    }
}

// The stop state that cycle 2 sets; `Going` where it stops nothing.
pub fn stop_of(kind: Kind) -> Stop
    ensures { result ≡ stop_of kind }
{
    match kind {
        Kind::Undefined => Stop::Undefined,
        Kind::Halt => Stop::Halted,
        Kind::Binary(_) | Kind::Constant(_) | Kind::Unary(_) => Stop::Going,
        Kind::Ld | Kind::St | Kind::Ldsp | Kind::Rts | Kind::Pop | Kind::Push => Stop::Going,
        Kind::Nop | Kind::Jump(_, _) | Kind::Call(_) => Stop::Going,
    }
}

// RA or RB after cycle 2: latched, unless that stops the core.
pub fn unless_stopping(stop: Stop, new: u16, old: u16) -> u16
    ensures { result ≡ unless_stopping stop new old }
{
    match stop {
        Stop::Going => new,
        Stop::Halted | Stop::Undefined => old,
    }
}

// Cycle 3: what RALU takes, and the flags after it.
pub fn calculate(kind: Kind, hidden: Hidden, before: Effect) -> Outcome
    ensures { result ≡ calculated kind hidden before }
{
    let Hidden { ir, ra, rb, ralu } = hidden;
    let Effect { pc, sp, flags, .. } = before;
    let value = match kind {
        Kind::Binary(op) => return alu::binary(op, ra, rb, flags),
        Kind::Constant(op) => return alu::constant(op, rb, isa::field_k(ir), flags),
        Kind::Unary(op) => return alu::unary(op, ra, flags),
        Kind::Undefined | Kind::Nop | Kind::Halt => ralu,
        Kind::Ld | Kind::St => words::add(ra, rb),
        Kind::Ldsp => ra,
        Kind::Rts | Kind::Pop => words::add(sp, 1),
        Kind::Push => rb,
        Kind::Jump(_, target) => isa::jump_target(target, ir, pc, ra),
        Kind::Call(target) => isa::call_target(target, ir, pc, ra),
    };
    Outcome { value, flags }
}

// Cycle 4: what is written back.
pub fn write_back(kind: Kind, hidden: Hidden, memory: &[u16], before: Effect) -> Effect
    ensures { result ≡ written_back kind hidden memory.now before }
{
    let Hidden { rb, ralu, .. } = hidden;
    match kind {
        Kind::Undefined | Kind::Nop | Kind::Halt => before,
        Kind::Binary(_) | Kind::Constant(_) | Kind::Unary(_) => before.with_rt(ralu),
        Kind::Ld => before.with_rt(words::read(memory, ralu)),
        Kind::St => before.with_store(ralu, before.rt),
        Kind::Ldsp => before.with_sp(ralu),
        Kind::Rts => before.with_sp(ralu).with_pc(words::read(memory, ralu)),
        Kind::Pop => before.with_sp(ralu).with_rt(words::read(memory, ralu)),
        Kind::Push => before.push(rb),
        Kind::Jump(condition, _) => before.jump(isa::is_taken(condition, before.flags), ralu),
        Kind::Call(_) => before.push(before.pc).with_pc(ralu),
    }
}
