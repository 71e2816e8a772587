// Arithmetic with flags: what o 0 to 8 and SL0 to NOT give, value and N, Z, C, V.
#![tactic(auto)]

ghost use Rattle.std.specs.Prelude.{◌≡◌};
ghost use Rattle.alu.specs.Flags.{bit15, sets_nz, sets_all, sum_overflows, difference_overflows, added, subtracted};
ghost use Rattle.alu.specs.Results.{binary_result, constant_result, unary_result};

use isa::{BinaryOp, ConstantOp, Flags, UnaryOp};

// A result, and the flags after it.
#[derive(Clone, Copy)]
pub struct Outcome {
    pub value: u16,
    pub flags: Flags,
}

fn top_bit(p: u16) -> bool
    ensures { result ≡ bit15 p }
{
    32768 <= p
}

// A result that sets all flags, C and V as given.
fn with_all(value: u16, carry: bool, overflow: bool) -> Outcome
    ensures { result ≡ sets_all value carry overflow }
{
    let flags = Flags {
        n: top_bit(value),
        z: value == 0,
        c: carry,
        v: overflow,
    };
    Outcome { value, flags }
}

// A result that sets N and Z and keeps C and V.
fn with_nz(value: u16, flags: Flags) -> Outcome
    ensures { result ≡ sets_nz value flags }
{
    with_all(value, flags.c, flags.v)
}

fn sum_overflows(p: bool, q: bool, r: bool) -> bool
    ensures { result ≡ sum_overflows p q r }
{
    p == q && r != p
}

fn difference_overflows(p: bool, q: bool, r: bool) -> bool
    ensures { result ≡ difference_overflows p q r }
{
    p != q && r != p
}

fn add(p: u16, q: u16) -> Outcome
    ensures { result ≡ added p q }
{
    let value = words::add(p, q);
    let carry = value < p; // a sum that wraps is less than either operand
    let overflow = sum_overflows(top_bit(p), top_bit(q), top_bit(value));
    with_all(value, carry, overflow)
}

fn subtract(p: u16, q: u16) -> Outcome
    ensures { result ≡ subtracted p q }
{
    let value = words::subtract(p, q);
    let carry = q <= p;
    let overflow = difference_overflows(top_bit(p), top_bit(q), top_bit(value));
    with_all(value, carry, overflow)
}

// ADD, SUB, AND, OR, XOR of Ra and Rb.
pub fn binary(op: BinaryOp, p: u16, q: u16, flags: Flags) -> Outcome
    ensures { result ≡ binary_result op p q flags }
{
    match op {
        BinaryOp::Add => add(p, q),
        BinaryOp::Sub => subtract(p, q),
        BinaryOp::And => with_nz(words::and(p, q), flags),
        BinaryOp::Or => with_nz(words::or(p, q), flags),
        BinaryOp::Xor => with_nz(words::xor(p, q), flags),
    }
}

// ADDI, SUBI, LDL, LDH of Rt and the constant k.
pub fn constant(op: ConstantOp, p: u16, k: u8, flags: Flags) -> Outcome
    ensures { result ≡ constant_result op p k flags }
{
    match op {
        ConstantOp::Addi => add(p, u16::from(k)),
        ConstantOp::Subi => subtract(p, u16::from(k)),
        ConstantOp::Ldl => Outcome {
            value: p / 256 * 256 + u16::from(k),
            flags,
        },
        ConstantOp::Ldh => Outcome {
            value: u16::from(k) * 256 + p % 256,
            flags,
        },
    }
}

// SL0, SL1, SR0, SR1, NOT of Ra.
pub fn unary(op: UnaryOp, p: u16, flags: Flags) -> Outcome
    ensures { result ≡ unary_result op p flags }
{
    let value = match op {
        UnaryOp::Sl0 => words::shift_left(p, false),
        UnaryOp::Sl1 => words::shift_left(p, true),
        UnaryOp::Sr0 => words::shift_right(p, false),
        UnaryOp::Sr1 => words::shift_right(p, true),
        UnaryOp::Not => words::not(p),
    };
    with_nz(value, flags)
}
