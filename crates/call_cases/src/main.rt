// The five calls at the corners of their rules, a printed line for each: what was called on what, and the answer.
#![tactic(auto)]

use isa::Cycles;
use r8_core::{Core, ListingError, LoadReply, Ran, RunReply};
use std::{fmt, io};

// A word in its four digits.
#[derive(Clone, Copy)]
struct Word(u16);

impl fmt::Display for Word {
    fn fmt<W: fmt::Write>(&self, f: &mut fmt::Formatter<W>) -> fmt::Result {
        for digit in hexadecimal::word_text(self.0) {
            f.write_char(char::from(digit))?;
        }
        Ok(())
    }
}

// What a core has beside its registers, at the end of a line.
fn print_core(rt: &impl Print, core: &Core) -> io::Result<()> {
    println!(rt;
        "; PC {} due {} clock {} IR {}",
        Word(core.pc),
        core.due,
        core.clock.0,
        Word(core.hidden.ir)
    )
}

// A run or a step. Gives back the next core.
fn show(rt: &impl Print, name: &str, reply: RunReply) -> io::Result<Core> {
    match reply.answer {
        Ok(
            Ran {
                cycles,
                instructions,
                end,
            },
        ) => {
            let letter = char::from(text::letter(end));
            print!(rt;
                "{name}: cycles {} instructions {} end {letter}",
                cycles.0, instructions.0
            )?
        }
        Err(why) => print!(rt; "{name}: refused {}", u8::from(why))?,
    }
    print_core(rt, &reply.core)?;
    Ok(reply.core)
}

fn show_load(rt: &impl Print, name: &str, reply: LoadReply) -> io::Result<()> {
    match reply.answer {
        Ok(count) => print!(rt; "{name}: stored {count}")?,
        Err(ListingError::Faulty(at)) => {
            print!(rt; "{name}: refused {} at {}", u8::from(at.fault), at.offset)?
        }
        Err(ListingError::Refused(why)) => print!(rt; "{name}: refused {}", u8::from(why))?,
    }
    print_core(rt, &reply.core)
}

fn show_view(rt: &impl Print, name: &str, core: Core) -> io::Result<()> {
    let reply = core.view();
    match reply.answer {
        Ok(_) => print!(rt; "{name}: viewed")?,
        Err(why) => print!(rt; "{name}: refused {}", u8::from(why))?,
    }
    let shown = reply.snapshot();
    print!(rt; ", shows PC {} clock {}", Word(shown.pc), shown.clock.0)?;
    print_core(rt, &reply.core)
}

// A fresh core but for the cycle due and the clock.
fn core_at(due: u8, time: u32) -> Core {
    Core {
        due,
        clock: Cycles(time),
        ..r8_core::fresh()
    }
}

// LDL, HALT and an undefined word, in turn.
fn show_runs(rt: &impl Print, memory: &mut [u16]) -> io::Result<()> {
    let start = r8_core::fresh();
    let program = b"0000 7105\n0001 B006\n0002 B00B";
    show_load(rt, "load", start.load(program, memory))?;
    show(rt, "run of 0", start.run(0, memory))?;
    let middle = show(rt, "run of 3", start.run(3, memory))?;
    show_load(rt, "load in the middle", middle.load(b"0000 0000", memory))?;
    show(rt, "step in the middle", middle.step(memory))?;
    show_view(rt, "view in the middle", middle)?;
    let between = show(rt, "run of 1 on", middle.run(1, memory))?;
    show_view(rt, "view between", between)?;
    show(rt, "run of 1 at HALT", between.run(1, memory))?;
    let halted = show(rt, "run of 9 at HALT", between.run(9, memory))?;
    show(rt, "run halted", halted.run(1, memory))?;
    show(rt, "step halted", halted.step(memory))?;
    show_load(rt, "load halted", halted.load(b"0000 7105", memory))?;
    show_view(rt, "view halted", halted)?;
    print!(rt; "reset")?;
    print_core(rt, &halted.reset())?;
    let other = Core { pc: 2, ..between };
    show(rt, "step at B00B", other.step(memory))?;
    show(rt, "run of 2 at B00B", other.run(2, memory))?;
    show(rt, "step at LDL", start.step(memory))?;
    Ok(())
}

// Cores that no call made, and clocks at their limit.
fn show_limits(rt: &impl Print, memory: &mut [u16]) -> io::Result<()> {
    let late = core_at(4, 0);
    let almost = core_at(1, u32::MAX - 1);
    let full = core_at(1, u32::MAX);
    show(rt, "run with cycle 0 due", core_at(0, 0).run(1, memory))?;
    show(rt, "run with cycle 5 due", core_at(5, 0).run(1, memory))?;
    show(rt, "run of 1 with cycle 4 due", late.run(1, memory))?;
    show(rt, "step with cycle 4 due", late.step(memory))?;
    show(rt, "run of 1 to the limit", almost.run(1, memory))?;
    show(rt, "run of 1 past the limit", full.run(1, memory))?;
    show(rt, "run of 0 at the limit", full.run(0, memory))?;
    let long = core_at(1, 1).run(u32::MAX, memory);
    show(rt, "run of 4294967295 at 1", long)?;
    let last = core_at(1, u32::MAX - 4);
    show(rt, "step to the limit", last.step(memory))?;
    let past = core_at(1, u32::MAX - 3);
    show(rt, "step past the limit", past.step(memory))?;
    let both = core_at(2, u32::MAX).step(memory);
    show(rt, "step with cycle 2 due past the limit", both)?;
    Ok(())
}

// A memory of a wrong length is refused first of all.
fn show_lengths(rt: &impl Print) -> io::Result<()> {
    let core = core_at(5, u32::MAX);
    let mut none: [u16; 0] = [];
    show(rt, "run on no memory", core.run(1, &mut none))?;
    let mut more = [0u16; 65537];
    show(rt, "run on 65537 words", core.run(1, &mut more))?;
    show(rt, "step on 65537 words", core.step(&mut more))?;
    let loaded = core_at(5, 0).load(b"?", &mut more);
    show_load(rt, "load into 65537 words", loaded)?;
    let mut most = [0u16; 65536];
    show(rt, "run on 65536 words", r8_core::fresh().run(4, &mut most))?;
    Ok(())
}

fn main(rt: HostRuntime) -> io::Result<()> {
    let mut memory = [0u16; 8];
    show_runs(&rt, &mut memory)?;
    show_limits(&rt, &mut memory)?;
    let loaded = core_at(5, 0).load(b"?", &mut memory);
    show_load(&rt, "load with cycle 5 due", loaded)?;
    let loaded = r8_core::fresh().load(b"0007 0000\n0008 0000", &mut memory);
    show_load(&rt, "load past the end", loaded)?;
    show_view(&rt, "view with cycle 5 due", core_at(5, 7))?;
    show_lengths(&rt)
}
