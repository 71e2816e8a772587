// Runs document 01's worked values, and corner values of carry, overflow and flags that stay, and
// prints a line for each: mnemonic, operands, result and NZCV after. The flags before are clear,
// or all set where a line says `from 1111`.
#![tactic(auto)]

use alu::Outcome;
use isa::{BinaryOp, ConstantOp, Flags, UnaryOp};
use std::{fmt, io};

// A word in its four digits.
#[derive(Clone, Copy)]
struct Word(u16);

impl fmt::Display for Word {
    fn fmt<W: fmt::Write>(&self, f: &mut fmt::Formatter<W>) -> fmt::Result {
        for digit in hexadecimal::word_text(self.0) {
            f.write_char(char::from(digit))?;
        }
        Ok(())
    }
}

// A byte in its two digits, the last two of a word's.
#[derive(Clone, Copy)]
struct Byte(u8);

impl fmt::Display for Byte {
    fn fmt<W: fmt::Write>(&self, f: &mut fmt::Formatter<W>) -> fmt::Result {
        let [_, _, high, low] = hexadecimal::word_text(u16::from(self.0));
        f.write_char(char::from(high))?;
        f.write_char(char::from(low))
    }
}

// N, Z, C, V.
#[derive(Clone, Copy)]
struct Nzcv(Flags);

impl fmt::Display for Nzcv {
    fn fmt<W: fmt::Write>(&self, f: &mut fmt::Formatter<W>) -> fmt::Result {
        let Flags { n, z, c, v } = self.0;
        write!(
            f,
            "{}{}{}{}",
            u8::from(n),
            u8::from(z),
            u8::from(c),
            u8::from(v)
        )
    }
}

// The flags before: all clear, or all set.
#[derive(Clone, Copy)]
enum Before {
    Clear,
    Set,
}

impl Before {
    fn flags(self) -> Flags {
        let set = matches!(self, Before::Set);
        Flags {
            n: set,
            z: set,
            c: set,
            v: set,
        }
    }
}

impl fmt::Display for Before {
    fn fmt<W: fmt::Write>(&self, f: &mut fmt::Formatter<W>) -> fmt::Result {
        match self {
            Before::Clear => Ok(()),
            Before::Set => write!(f, " from {}", Nzcv(self.flags())),
        }
    }
}

// The result and the flags after it.
#[derive(Clone, Copy)]
struct Shown(Outcome);

impl fmt::Display for Shown {
    fn fmt<W: fmt::Write>(&self, f: &mut fmt::Formatter<W>) -> fmt::Result {
        let Outcome { value, flags } = self.0;
        write!(f, "{} {}", Word(value), Nzcv(flags))
    }
}

fn show_binary(
    rt: &impl Print,
    op: BinaryOp,
    name: &str,
    p: u16,
    q: u16,
    before: Before,
) -> io::Result<()> {
    let outcome = alu::binary(op, p, q, before.flags());
    println!(rt;
        "{name} {} {}{before} = {}",
        Word(p),
        Word(q),
        Shown(outcome)
    )
}

fn show_constant(
    rt: &impl Print,
    op: ConstantOp,
    name: &str,
    p: u16,
    k: u8,
    before: Before,
) -> io::Result<()> {
    let outcome = alu::constant(op, p, k, before.flags());
    println!(rt;
        "{name} {} {}{before} = {}",
        Word(p),
        Byte(k),
        Shown(outcome)
    )
}

fn show_unary(rt: &impl Print, op: UnaryOp, name: &str, p: u16, before: Before) -> io::Result<()> {
    let outcome = alu::unary(op, p, before.flags());
    println!(rt; "{name} {}{before} = {}", Word(p), Shown(outcome))
}

fn show_add(rt: &impl Print, p: u16, q: u16) -> io::Result<()> {
    show_binary(rt, BinaryOp::Add, "ADD", p, q, Before::Clear)
}

fn show_sub(rt: &impl Print, p: u16, q: u16) -> io::Result<()> {
    show_binary(rt, BinaryOp::Sub, "SUB", p, q, Before::Clear)
}

fn show_addi(rt: &impl Print, p: u16, k: u8) -> io::Result<()> {
    show_constant(rt, ConstantOp::Addi, "ADDI", p, k, Before::Clear)
}

fn show_subi(rt: &impl Print, p: u16, k: u8) -> io::Result<()> {
    show_constant(rt, ConstantOp::Subi, "SUBI", p, k, Before::Clear)
}

// AND, OR, XOR, NOT: C and V stay.
fn show_logic(rt: &impl Print, p: u16, q: u16) -> io::Result<()> {
    show_binary(rt, BinaryOp::And, "AND", p, q, Before::Set)?;
    show_binary(rt, BinaryOp::Or, "OR", p, q, Before::Set)?;
    show_binary(rt, BinaryOp::Xor, "XOR", p, q, Before::Set)?;
    show_unary(rt, UnaryOp::Not, "NOT", p, Before::Set)
}

fn show_shifts(rt: &impl Print, p: u16, before: Before) -> io::Result<()> {
    show_unary(rt, UnaryOp::Sl0, "SL0", p, before)?;
    show_unary(rt, UnaryOp::Sl1, "SL1", p, before)?;
    show_unary(rt, UnaryOp::Sr0, "SR0", p, before)?;
    show_unary(rt, UnaryOp::Sr1, "SR1", p, before)
}

// LDL, LDH: all flags stay.
fn show_loads(rt: &impl Print, p: u16, k: u8, before: Before) -> io::Result<()> {
    show_constant(rt, ConstantOp::Ldl, "LDL", p, k, before)?;
    show_constant(rt, ConstantOp::Ldh, "LDH", p, k, before)
}

// Document 01, 'Proof bench'.
fn show_worked(rt: &impl Print) -> io::Result<()> {
    show_add(rt, 0x1008, 0x1234)?;
    show_sub(rt, 0x1008, 0x1234)?;
    show_addi(rt, 0x1018, 0xFF)?;
    show_addi(rt, 0xFFFF, 0xFF)?;
    show_addi(rt, 0x7FFF, 0x01)?;
    show_subi(rt, 0x8000, 0x01)?;
    show_unary(rt, UnaryOp::Sr1, "SR1", 0x9754, Before::Clear)
}

fn show_sums(rt: &impl Print) -> io::Result<()> {
    show_add(rt, 0x0000, 0x0000)?;
    show_add(rt, 0xFFFF, 0x0001)?;
    show_add(rt, 0x7FFF, 0x0001)?;
    show_add(rt, 0x8000, 0x8000)?;
    show_add(rt, 0xFFFF, 0xFFFF)?;
    show_add(rt, 0x8000, 0x7FFF)?;
    show_binary(rt, BinaryOp::Add, "ADD", 0x0001, 0x0001, Before::Set)
}

fn show_differences(rt: &impl Print) -> io::Result<()> {
    show_sub(rt, 0x0000, 0x0000)?;
    show_sub(rt, 0x0000, 0x0001)?;
    show_sub(rt, 0x8000, 0x0001)?;
    show_sub(rt, 0x7FFF, 0xFFFF)?;
    show_sub(rt, 0xFFFF, 0x7FFF)?;
    show_sub(rt, 0x0001, 0x8000)?;
    show_binary(rt, BinaryOp::Sub, "SUB", 0x0001, 0x0002, Before::Set)
}

fn main(rt: HostRuntime) -> io::Result<()> {
    show_worked(&rt)?;
    show_sums(&rt)?;
    show_differences(&rt)?;
    show_logic(&rt, 0x1234, 0x0FF0)?;
    show_logic(&rt, 0xFF00, 0x80FF)?;
    show_logic(&rt, 0x0000, 0x0000)?;
    show_logic(&rt, 0xFFFF, 0xFFFF)?;
    show_shifts(&rt, 0x8001, Before::Clear)?;
    show_shifts(&rt, 0x0000, Before::Clear)?;
    show_shifts(&rt, 0x8001, Before::Set)?;
    show_loads(&rt, 0x1234, 0xAB, Before::Set)?;
    show_loads(&rt, 0x1234, 0x00, Before::Clear)
}
