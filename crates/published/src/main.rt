// The published test listing of source document 003, section 9, from standard input (its address and word columns; the comments are our
// own): executed in steps, with what the comments of 003 say of registers, SP, PC and flags beside what is found; then the registers and
// the totals of a run.
#![tactic(auto)]

use Register::{Pc, R, Sp};
use isa::Flags;
use r8_core::{Core, ListingError, Ran, Snapshot};
use std::{fmt, io};

// What a comment of 003 names: R0 to R15, SP or PC.
#[derive(Clone, Copy)]
enum Register {
    R(usize),
    Sp,
    Pc,
}

impl Register {
    // What a core holds there. The number is below 16; the remainder only says so.
    fn held(self, core: &Core) -> u16 {
        match self {
            R(i) => core.regs[i % 16],
            Sp => core.sp,
            Pc => core.pc,
        }
    }
}

impl fmt::Display for Register {
    fn fmt<W: fmt::Write>(&self, f: &mut fmt::Formatter<W>) -> fmt::Result {
        match *self {
            R(i) => write!(f, "R{i}"),
            Sp => write!(f, "SP"),
            Pc => write!(f, "PC"),
        }
    }
}

// A word in its four digits.
#[derive(Clone, Copy)]
struct Word(u16);

impl fmt::Display for Word {
    fn fmt<W: fmt::Write>(&self, f: &mut fmt::Formatter<W>) -> fmt::Result {
        for digit in hexadecimal::word_text(self.0) {
            f.write_char(char::from(digit))?;
        }
        Ok(())
    }
}

// Flags, written NZCV.
#[derive(Clone, Copy)]
struct Nzcv(Flags);

impl fmt::Display for Nzcv {
    fn fmt<W: fmt::Write>(&self, f: &mut fmt::Formatter<W>) -> fmt::Result {
        for bit in text::flags_text(self.0) {
            f.write_char(char::from(bit))?;
        }
        Ok(())
    }
}

// What the comments of 003 say that registers hold after the instructions at some addresses.
const CLAIMS: [(u16, Register, u16); 33] = [
    (0x0001, R(1), 0x1008),
    (0x0003, R(2), 0x1234),
    (0x0005, R(3), 0xFEDC),
    (0x0006, R(4), 0x223C),
    (0x0007, R(5), 0xFDD4),
    (0x0008, R(6), 0x1000),
    (0x0009, R(7), 0x123C),
    (0x000A, R(8), 0x023C),
    (0x000B, R(1), 0x1009),
    (0x000C, R(1), 0x1018),
    (0x000D, R(1), 0x1117),
    (0x000E, R(2), 0x1233),
    (0x000F, R(2), 0x122F),
    (0x0010, R(2), 0x1130),
    (0x0012, R(13), 0x01FF),
    (0x0013, Sp, 0x01FF),
    (0x0015, R(1), 0x0100),
    (0x0019, R(0), 0xFFFF),
    (0x001D, R(7), 0x0030),
    (0x001E, Pc, 0x0030),
    (0x0032, Pc, 0x0043),
    (0x0043, Pc, 0x0094),
    (0x0106, Pc, 0x0110),
    (0x0110, R(1), 0x0000),
    (0x0111, R(2), 0x0000),
    (0x0112, R(3), 0x0000),
    (0x0113, R(4), 0x0000),
    (0x0114, Pc, 0x0128),
    (0x0129, R(1), 0x0190),
    (0x012B, R(3), 0xBBAA),
    (0x0131, R(2), 0xBAA3),
    (0x0135, R(4), 0xCBAA),
    (0x0136, R(1), 0xFFFF),
];

// What is claimed of the core after the instruction at an address, if anything, beside what is found.
fn print_claim(rt: &impl Print, address: u16, core: &Core) -> io::Result<()> {
    let Some(&(_, register, value)) = CLAIMS.iter().find(|(at, ..)| *at == address) else {
        return Ok(());
    };
    let found = register.held(core);
    print!(rt; "{} {register} {}", Word(address), Word(found))?;
    if found == value {
        println!(rt; ", as 003 says")
    } else {
        println!(rt; ", where 003 says {}", Word(value))
    }
}

// What the comments of 003 say of flags, and what is right.
fn print_remark(rt: &impl Print, address: u16, before: Flags, after: Flags) -> io::Result<()> {
    let flags = Nzcv(after);
    match address {
        0x0019 => println!(rt;
            "0019 NZCV {flags}, before it {}: LDH sets no flag, where 003 says that it sets N",
            Nzcv(before)
        ),
        0x001A => println!(rt;
            "001A NZCV {flags}: FFFF + FF gives C and not V, where 003 says that it sets V"
        ),
        0x001B if after.z => println!(rt; "001B NZCV {flags}: Z is set, as 003 says"),
        0x001B => println!(rt; "001B NZCV {flags}: Z is clear, where 003 says that it is set"),
        _ => Ok(()),
    }
}

fn print_steps(rt: &impl Print, mut core: Core, count: u32, memory: &mut [u16]) -> io::Result<()> {
    for _ in 0..count {
        let next = core.step(memory).core;
        print_claim(rt, core.pc, &next)?;
        print_remark(rt, core.pc, core.flags, next.flags)?;
        core = next;
    }
    Ok(())
}

// Four registers to a line.
fn print_registers(rt: &impl Print, regs: &[u16; 16]) -> io::Result<()> {
    for (i, value) in regs.iter().enumerate() {
        let gap = if i % 4 == 3 { '\n' } else { ' ' };
        print!(rt; "R{i} {}{gap}", Word(*value))?;
    }
    Ok(())
}

fn print_snapshot(rt: &impl Print, shown: &Snapshot) -> io::Result<()> {
    print_registers(rt, &shown.regs)?;
    println!(rt;
        "PC {} SP {} NZCV {} clock {}",
        Word(shown.pc),
        Word(shown.sp),
        Nzcv(shown.flags),
        shown.clock.0
    )
}

fn print_run(rt: &impl Print, core: Core, memory: &mut [u16], again: &mut [u16]) -> io::Result<()> {
    let reply = core.run(1000, memory);
    let Ok(
        Ran {
            cycles,
            instructions,
            end,
        },
    ) = reply.answer
    else {
        return println!(rt; "run refused");
    };
    print_steps(rt, core, instructions.0, again)?;
    match reply.core.view().answer {
        Ok(shown) => print_snapshot(rt, &shown)?,
        Err(_) => println!(rt; "view refused")?,
    }
    let letter = char::from(text::letter(end));
    println!(rt;
        "cycles {} instructions {} end {letter}",
        cycles.0, instructions.0
    )
}

fn main(rt: HostRuntime) -> io::Result<()> {
    let mut listing = [0u8; 4096];
    let length = input::read_full(&mut rt.stdin(), &mut listing)?;
    let mut memory = [0u16; 16384];
    let loaded = r8_core::fresh().load(&listing[..length], &mut memory);
    match loaded.answer {
        Ok(count) => {
            println!(rt; "words stored {count}")?;
            let mut again = memory;
            print_run(&rt, loaded.core, &mut memory, &mut again)
        }
        Err(ListingError::Faulty(at)) => println!(rt; "load refused at {}", at.offset),
        Err(ListingError::Refused(_)) => println!(rt; "load refused"),
    }
}
