// The instruction table of document 01: which instruction a word is, and the word of each.
#![tactic(auto)]

ghost use Rattle.std.specs.Prelude.{◌≡◌};
ghost use Rattle.table.specs.Table.{place_of, kind_of, first_jump, call_entry, entry, word_of};

use isa::{BinaryOp, Condition, ConstantOp, Kind, Target, UnaryOp};

// Where a word stands in the table; 40 for an undefined word. The tests are of order: on equality they become a jump through a table, and a
// run takes longer.
#[tactic(auto, unfolding(crate::specs::Table::place_of))]
fn place_of(word: u16) -> u8
    ensures { result ≡ place_of word }
{
    let o = isa::field_o(word);
    let b = isa::field_b(word);
    if o < 11 {
        o
    } else if o < 12 {
        if b < 11 { 11 + b } else { 40 }
    } else if o < 13 {
        if b < 12 { 22 + b } else { 40 }
    } else if o < 14 {
        34
    } else if o < 15 {
        35 + (word / 1024 % 4) as u8
    } else {
        39
    }
}

// Which instruction a word is: the table, in the order of document 01. It is no constant array, which would be laid out anew at each
// reading.
#[tactic(auto, using(crate::proofs::Entries::found_past), unfolding(crate::specs::Table::kind_of, crate::specs::Table::table))]
pub fn kind_of(word: u16) -> Kind
    ensures { result ≡ kind_of word }
{
    match place_of(word) {
        0 => Kind::Binary(BinaryOp::Add),
        1 => Kind::Binary(BinaryOp::Sub),
        2 => Kind::Binary(BinaryOp::And),
        3 => Kind::Binary(BinaryOp::Or),
        4 => Kind::Binary(BinaryOp::Xor),
        5 => Kind::Constant(ConstantOp::Addi),
        6 => Kind::Constant(ConstantOp::Subi),
        7 => Kind::Constant(ConstantOp::Ldl),
        8 => Kind::Constant(ConstantOp::Ldh),
        9 => Kind::Ld,
        10 => Kind::St,
        11 => Kind::Unary(UnaryOp::Sl0),
        12 => Kind::Unary(UnaryOp::Sl1),
        13 => Kind::Unary(UnaryOp::Sr0),
        14 => Kind::Unary(UnaryOp::Sr1),
        15 => Kind::Unary(UnaryOp::Not),
        16 => Kind::Nop,
        17 => Kind::Halt,
        18 => Kind::Ldsp,
        19 => Kind::Rts,
        20 => Kind::Pop,
        21 => Kind::Push,
        22 => Kind::Jump(Condition::Always, Target::Relative),
        23 => Kind::Jump(Condition::Negative, Target::Relative),
        24 => Kind::Jump(Condition::Zero, Target::Relative),
        25 => Kind::Jump(Condition::Carry, Target::Relative),
        26 => Kind::Jump(Condition::Overflow, Target::Relative),
        27 => Kind::Jump(Condition::Always, Target::Absolute),
        28 => Kind::Jump(Condition::Negative, Target::Absolute),
        29 => Kind::Jump(Condition::Zero, Target::Absolute),
        30 => Kind::Jump(Condition::Carry, Target::Absolute),
        31 => Kind::Jump(Condition::Overflow, Target::Absolute),
        32 => Kind::Call(Target::Relative),
        33 => Kind::Call(Target::Absolute),
        34 => Kind::Jump(Condition::Always, Target::Displaced),
        35 => Kind::Jump(Condition::Negative, Target::Displaced),
        36 => Kind::Jump(Condition::Zero, Target::Displaced),
        37 => Kind::Jump(Condition::Carry, Target::Displaced),
        38 => Kind::Jump(Condition::Overflow, Target::Displaced),
        39 => Kind::Call(Target::Displaced),
        _ => Kind::Undefined,
    }
}

fn first_jump(target: Target) -> u8
    ensures { result ≡ first_jump target }
{
    match target {
        Target::Relative => 22,
        Target::Absolute => 27,
        Target::Displaced => 34,
    }
}

fn call_entry(target: Target) -> u8
    ensures { result ≡ call_entry target }
{
    match target {
        Target::Relative => 32,
        Target::Absolute => 33,
        Target::Displaced => 39,
    }
}

// The table the other way round: where an instruction stands in it; 40 for the undefined kind.
pub fn entry_of(kind: Kind) -> u8
    ensures { result ≡ entry kind }
{
    match kind {
        Kind::Undefined => 40,
        Kind::Binary(op) => op as u8,
        Kind::Constant(op) => 5 + op as u8,
        Kind::Ld => 9,
        Kind::St => 10,
        Kind::Unary(op) => 11 + op as u8,
        Kind::Nop => 16,
        Kind::Halt => 17,
        Kind::Ldsp => 18,
        Kind::Rts => 19,
        Kind::Pop => 20,
        Kind::Push => 21,
        Kind::Jump(condition, target) => first_jump(target) + condition as u8,
        Kind::Call(target) => call_entry(target),
    }
}

// The word of the table's entry at a place, all other fields zero. No entry stands from 40 on: there the answer is F000, which
// nothing uses.
#[tactic(auto, unfolding(crate::specs::Table::word_of))]
pub fn word_of(place: u8) -> u16
    ensures { result ≡ word_of place }
{
    let n = u16::from(place);
    match n {
        0..=10 => n * 0x1000,
        11..=21 => 0xB000 + (n - 11),
        22..=33 => 0xC000 + (n - 22),
        34 => 0xD000,
        35..=38 => 0xE000 + (n - 35) * 0x400,
        _ => 0xF000,
    }
}
