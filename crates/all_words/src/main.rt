// Takes all 65,536 words to forms and back, and prints how many are defined, undefined, written
// back unchanged, and refused by form to word. Then prints one word of each of the 40 instructions
// with the name and the operands that its form has; the registers that a form has differ.
#![tactic(auto)]

use forms::Form;
use isa::{BinaryOp, Condition, ConstantOp, UnaryOp};
use std::{fmt, io};

// The counts of all words.
#[derive(Default, Drop)]
struct Counts {
    defined: u32,
    undefined: u32,
    unchanged: u32,
    refused: u32,
}

fn count_all() -> Counts {
    let mut counts = Counts::default();
    for word in 0..=u16::MAX {
        match forms::word_to_form(word) {
            Ok(form) => {
                counts.defined += 1;
                match forms::form_to_word(form) {
                    Ok(back) if back == word => counts.unchanged += 1,
                    Ok(_) => {}
                    Err(_) => counts.refused += 1,
                }
            }
            Err(_) => counts.undefined += 1,
        }
    }
    counts
}

// A word in its four digits.
#[derive(Clone, Copy)]
struct Word(u16);

impl fmt::Display for Word {
    fn fmt<W: fmt::Write>(&self, f: &mut fmt::Formatter<W>) -> fmt::Result {
        for digit in hexadecimal::word_text(self.0) {
            f.write_char(char::from(digit))?;
        }
        Ok(())
    }
}

fn binary_name(op: BinaryOp) -> &'static str {
    match op {
        BinaryOp::Add => "ADD",
        BinaryOp::Sub => "SUB",
        BinaryOp::And => "AND",
        BinaryOp::Or => "OR",
        BinaryOp::Xor => "XOR",
    }
}

fn constant_name(op: ConstantOp) -> &'static str {
    match op {
        ConstantOp::Addi => "ADDI",
        ConstantOp::Subi => "SUBI",
        ConstantOp::Ldl => "LDL",
        ConstantOp::Ldh => "LDH",
    }
}

fn unary_name(op: UnaryOp) -> &'static str {
    match op {
        UnaryOp::Sl0 => "SL0",
        UnaryOp::Sl1 => "SL1",
        UnaryOp::Sr0 => "SR0",
        UnaryOp::Sr1 => "SR1",
        UnaryOp::Not => "NOT",
    }
}

// The flag that a jump goes on.
fn flag_name(condition: Condition) -> &'static str {
    match condition {
        Condition::Always => "",
        Condition::Negative => "N",
        Condition::Zero => "Z",
        Condition::Carry => "C",
        Condition::Overflow => "V",
    }
}

// A form as it is printed: its name and its operands. A jump is JMP, the flag that it goes on, and a letter for its target: JMP, JMPN, JMPR,
// JMPNR, JMPD, JMPND.
#[derive(Clone, Copy)]
struct Shown(Form);

impl fmt::Display for Shown {
    fn fmt<W: fmt::Write>(&self, f: &mut fmt::Formatter<W>) -> fmt::Result {
        match self.0 {
            Form::Binary { op, t, a, b } => write!(f, "{} t {t} a {a} b {b}", binary_name(op)),
            Form::Constant { op, t, k } => write!(f, "{} t {t} k {k}", constant_name(op)),
            Form::Ld { t, a, b } => write!(f, "LD t {t} a {a} b {b}"),
            Form::St { t, a, b } => write!(f, "ST t {t} a {a} b {b}"),
            Form::Unary { op, t, a } => write!(f, "{} t {t} a {a}", unary_name(op)),
            Form::Nop => write!(f, "NOP"),
            Form::Halt => write!(f, "HALT"),
            Form::Ldsp { a } => write!(f, "LDSP a {a}"),
            Form::Rts => write!(f, "RTS"),
            Form::Pop { t } => write!(f, "POP t {t}"),
            Form::Push { t } => write!(f, "PUSH t {t}"),
            Form::JumpRelative { condition, a } => write!(f, "JMP{}R a {a}", flag_name(condition)),
            Form::JumpAbsolute { condition, a } => write!(f, "JMP{} a {a}", flag_name(condition)),
            Form::CallRelative { a } => write!(f, "JSRR a {a}"),
            Form::CallAbsolute { a } => write!(f, "JSR a {a}"),
            Form::JumpDisplaced { condition, d10 } => write!(
                f,
                "JMP{}D d10 {d10}",
                flag_name(condition)
            ),
            Form::CallDisplaced { d12 } => write!(f, "JSRD d12 {d12}"),
        }
    }
}

fn print_word(rt: &impl Print, word: u16) -> io::Result<()> {
    match forms::word_to_form(word) {
        Ok(form) => println!(rt; "{} {}", Word(word), Shown(form)),
        Err(_) => println!(rt; "{} undefined", Word(word)),
    }
}

fn main(rt: HostRuntime) -> io::Result<()> {
    let all = count_all();
    println!(&rt; "defined {}", all.defined)?;
    println!(&rt; "undefined {}", all.undefined)?;
    println!(&rt; "unchanged {}", all.unchanged)?;
    println!(&rt; "refused {}", all.refused)?;
    for word in (0x0123..=0xA123).step_by(0x1000) {
        print_word(&rt, word)?;
    }
    for word in 0xB120..=0xB12A {
        print_word(&rt, word)?;
    }
    for word in 0xC120..=0xC12B {
        print_word(&rt, word)?;
    }
    print_word(&rt, 0xD3FF)?;
    for word in (0xE123..=0xED23).step_by(0x400) {
        print_word(&rt, word)?;
    }
    print_word(&rt, 0xF923)
}
