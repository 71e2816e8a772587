// The instruction set of document 01: kinds, fields, conditions, targets and cycle counts.
#![tactic(auto)]

ghost use Rattle.std.specs.Prelude.{◌≡◌, ◌<◌, ◌*◌};
ghost use Rattle.isa.specs.Fields.{field_o, field_t, field_a, field_b, field_k, extended, d10, d12};
ghost use Rattle.isa.specs.Control.{taken, address, jump_target, call_target, second_register};
ghost use Rattle.isa.specs.Cost.{class_of, cost_of};

#[derive(Clone, Copy)]
pub enum BinaryOp {
    Add,
    Sub,
    And,
    Or,
    Xor,
}

#[derive(Clone, Copy)]
pub enum ConstantOp {
    Addi,
    Subi,
    Ldl,
    Ldh,
}

#[derive(Clone, Copy)]
pub enum UnaryOp {
    Sl0,
    Sl1,
    Sr0,
    Sr1,
    Not,
}

#[derive(Clone, Copy)]
pub enum Condition {
    Always,
    Negative,
    Zero,
    Carry,
    Overflow,
}

// Where a jump or a call goes: PC+Ra, Ra, or PC and the displacement (d10 of a jump, d12 of a call).
#[derive(Clone, Copy)]
pub enum Target {
    Relative,
    Absolute,
    Displaced,
}

// An instruction without its operands.
#[derive(Clone, Copy)]
pub enum Kind {
    Undefined,
    Binary(BinaryOp),
    Constant(ConstantOp),
    Ld,
    St,
    Unary(UnaryOp),
    Nop,
    Halt,
    Ldsp,
    Rts,
    Pop,
    Push,
    Jump(Condition, Target),
    Call(Target),
}

#[derive(Clone, Copy)]
pub struct Flags {
    pub n: bool,
    pub z: bool,
    pub c: bool,
    pub v: bool,
}

// What an instruction's cost goes by: HALT and undefined; NOP and an untaken jump; all others.
#[derive(Clone, Copy)]
pub enum Class {
    Stop,
    Short,
    Full,
}

// A number of clock cycles.
#[derive(Clone, Copy)]
pub struct Cycles(pub u32);

pub fn field_o(word: u16) -> u8
    ensures { result ≡ field_o word }
{
    (word / 4096) as u8
}

pub fn field_t(word: u16) -> u8
    ensures { result ≡ field_t word }
{
    (word / 256 % 16) as u8
}

pub fn field_a(word: u16) -> u8
    ensures { result ≡ field_a word }
{
    (word / 16 % 16) as u8
}

pub fn field_b(word: u16) -> u8
    ensures { result ≡ field_b word }
{
    (word % 16) as u8
}

pub fn field_k(word: u16) -> u8
    ensures { result ≡ field_k word }
{
    (word % 256) as u8
}

// A number below 2 * half, sign extended to a word: from half on, all bits above it are set.
fn extended(half: u16, d: u16) -> u16
    requires within { d < 2 * half }
    requires fits { 2 * half < 65536 }
    ensures { result ≡ extended half d }
{
    if d < half {
        d
    } else {
        d.wrapping_sub(2 * half)
    }
}

// The displacement of a jump, sign extended to a word.
pub fn field_d10(word: u16) -> u16
    ensures { result ≡ d10 word }
{
    extended(512, word % 1024)
}

// The displacement of a call, sign extended to a word.
pub fn field_d12(word: u16) -> u16
    ensures { result ≡ d12 word }
{
    extended(2048, word % 4096)
}

// Does a jump on this condition go?
pub fn is_taken(condition: Condition, flags: Flags) -> bool
    ensures { result ≡ taken condition flags }
{
    match condition {
        Condition::Always => true,
        Condition::Negative => flags.n,
        Condition::Zero => flags.z,
        Condition::Carry => flags.c,
        Condition::Overflow => flags.v,
    }
}

fn address_of(target: Target, pc: u16, register: u16, displacement: u16) -> u16
    ensures { result ≡ address target pc register displacement }
{
    match target {
        Target::Relative => words::add(pc, register),
        Target::Absolute => register,
        Target::Displaced => words::add(pc, displacement),
    }
}

// Where a jump goes: `pc` is one past the instruction, `register` is Ra.
pub fn jump_target(target: Target, word: u16, pc: u16, register: u16) -> u16
    ensures { result ≡ jump_target target word pc register }
{
    address_of(target, pc, register, field_d10(word))
}

// Where a call goes, likewise.
pub fn call_target(target: Target, word: u16, pc: u16, register: u16) -> u16
    ensures { result ≡ call_target target word pc register }
{
    address_of(target, pc, register, field_d12(word))
}

// Which of the fields t and b names the register that cycle 2 latches into RB. HALT and undefined words latch none: there the
// answer is b, which nothing uses.
pub fn second_register(kind: Kind, t: u8, b: u8) -> u8
    ensures { result ≡ second_register kind t b }
{
    match kind {
        Kind::Constant(_) | Kind::Push => t,
        Kind::Undefined | Kind::Binary(_) | Kind::Ld | Kind::St | Kind::Unary(_) => b,
        Kind::Nop | Kind::Halt | Kind::Ldsp | Kind::Rts | Kind::Pop => b,
        Kind::Jump(_, _) | Kind::Call(_) => b,
    }
}

// The cycle counts, by class.
const COUNTS: [u32; 3] = [2, 3, 4];

fn class_of(kind: Kind, flags: Flags) -> Class
    ensures { result ≡ class_of kind flags }
{
    match kind {
        Kind::Undefined | Kind::Halt => Class::Stop,
        Kind::Nop => Class::Short,
        Kind::Jump(condition, _) => {
            if is_taken(condition, flags) {
                Class::Full
            } else {
                Class::Short
            }
        }
        Kind::Binary(_) | Kind::Constant(_) | Kind::Unary(_) => Class::Full,
        Kind::Ld | Kind::St | Kind::Ldsp | Kind::Rts | Kind::Pop | Kind::Push => Class::Full,
        Kind::Call(_) => Class::Full,
    }
}

// The cycles that an instruction takes under these flags.
#[tactic(auto, unfolding(crate::specs::Cost::cost_of))]
pub fn cost(kind: Kind, flags: Flags) -> Cycles
    ensures { result.0 ≡ cost_of kind flags }
{
    Cycles(COUNTS[class_of(kind, flags) as usize])
}
