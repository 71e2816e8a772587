// Instruction words and forms: word to form and form to word, by the table of `table`.
#![tactic(auto)]

ghost use Rattle.std.specs.Prelude.{◌≡◌, ◌%◌};
ghost use Rattle.forms.specs.Answers.{form_answer, word_answer};
ghost use Rattle.forms.specs.Operands.{operands_of, outside, fault, placed};
ghost use Rattle.forms.specs.Reading.{form_with, word_to_form};
ghost use Rattle.forms.specs.Writing.{written_at, parts, parts_of, form_to_word};

use isa::{BinaryOp, Condition, ConstantOp, Kind, Target, UnaryOp};

// An instruction with the operands that it has. Registers, constants and displacements that no word holds can be given: form
// to word refuses them.
#[derive(Clone, Copy)]
pub enum Form {
    Binary { op: BinaryOp, t: u8, a: u8, b: u8 },
    Constant { op: ConstantOp, t: u8, k: u16 },
    Ld { t: u8, a: u8, b: u8 },
    St { t: u8, a: u8, b: u8 },
    Unary { op: UnaryOp, t: u8, a: u8 },
    Nop,
    Halt,
    Ldsp { a: u8 },
    Rts,
    Pop { t: u8 },
    Push { t: u8 },
    JumpRelative { condition: Condition, a: u8 },
    JumpAbsolute { condition: Condition, a: u8 },
    CallRelative { a: u8 },
    CallAbsolute { a: u8 },
    JumpDisplaced { condition: Condition, d10: i16 },
    CallDisplaced { d12: i16 },
}

// What a word without a form is: the table has no such instruction.
#[derive(Clone, Copy, PartialEq, Eq)]
pub struct Undefined;

// What a form without a word is: an operand does not fit its field.
#[derive(Clone, Copy, PartialEq, Eq)]
pub struct OutOfRange;

// All operands that there are: t, a, b, k, d10, d12.
#[derive(Clone, Copy)]
pub struct Operands(pub u8, pub u8, pub u8, pub u16, pub i16, pub i16);

// A form taken apart: where its instruction stands in the table, and its operands, those that it lacks zero.
#[derive(Clone, Copy)]
pub struct Parts(pub u8, pub Operands);

#[tactic(auto, unfolding(crate::specs::Operands::operands_of))]
fn operands_of(word: u16) -> Operands
    ensures { result ≡ operands_of word }
{
    let t = isa::field_t(word);
    let a = isa::field_a(word);
    let b = isa::field_b(word);
    let k = u16::from(isa::field_k(word));
    let d10 = isa::field_d10(word).cast_signed();
    let d12 = isa::field_d12(word).cast_signed();
    Operands(t, a, b, k, d10, d12)
}

fn form_with(kind: Kind, x: Operands) -> Result<Form, Undefined>
    ensures { form_answer result ≡ form_with kind x }
{
    let Operands(t, a, b, k, d10, d12) = x;
    let form = match kind {
        Kind::Undefined => return Err(Undefined),
        Kind::Binary(op) => Form::Binary { op, t, a, b },
        Kind::Constant(op) => Form::Constant { op, t, k },
        Kind::Ld => Form::Ld { t, a, b },
        Kind::St => Form::St { t, a, b },
        Kind::Unary(op) => Form::Unary { op, t, a },
        Kind::Nop => Form::Nop,
        Kind::Halt => Form::Halt,
        Kind::Ldsp => Form::Ldsp { a },
        Kind::Rts => Form::Rts,
        Kind::Pop => Form::Pop { t },
        Kind::Push => Form::Push { t },
        Kind::Jump(condition, Target::Relative) => Form::JumpRelative { condition, a },
        Kind::Jump(condition, Target::Absolute) => Form::JumpAbsolute { condition, a },
        Kind::Jump(condition, Target::Displaced) => Form::JumpDisplaced { condition, d10 },
        Kind::Call(Target::Relative) => Form::CallRelative { a },
        Kind::Call(Target::Absolute) => Form::CallAbsolute { a },
        Kind::Call(Target::Displaced) => Form::CallDisplaced { d12 },
    };
    Ok(form)
}

// Word to form: the form, or number 6.
#[tactic(auto, unfolding(crate::specs::Reading::word_to_form))]
pub fn word_to_form(word: u16) -> Result<Form, Undefined>
    ensures { form_answer result ≡ word_to_form word }
{
    form_with(table::kind_of(word), operands_of(word))
}

fn is_outside(least: i16, most: i16, d: i16) -> bool
    ensures { result ≡ outside least most d }
{
    !(least..=most).contains(&d)
}

#[tactic(auto, unfolding(crate::specs::Operands::fault))]
fn has_fault(x: Operands) -> bool
    ensures { result ≡ fault x }
{
    let Operands(t, a, b, k, d10, d12) = x;
    15 < t
        || 15 < a
        || 15 < b
        || 255 < k
        || is_outside(-512, 511, d10)
        || is_outside(-2048, 2047, d12)
}

#[tactic(auto, unfolding(crate::specs::Operands::placed))]
fn placed_of(x: Operands) -> u16
    ensures { result ≡ placed x % 65536 }
{
    let Operands(t, a, b, k, d10, d12) = x;
    let sum = u32::from(t) * 256
        + u32::from(a) * 16
        + u32::from(b)
        + u32::from(k)
        + u32::from(d10.cast_unsigned() % 1024)
        + u32::from(d12.cast_unsigned() % 4096);
    (sum % 65536) as u16
}

#[tactic(auto, unfolding(crate::specs::Writing::written_at))]
fn write(entry: u8, x: Operands) -> Result<u16, OutOfRange>
    ensures { word_answer result ≡ written_at entry x }
{
    if has_fault(x) {
        return Err(OutOfRange);
    }
    Ok(words::add(table::word_of(entry), placed_of(x)))
}

// An instruction with operands, by its place in the table.
fn row(kind: Kind, x: Operands) -> Parts
    ensures { result ≡ parts kind x }
{
    Parts(table::entry_of(kind), x)
}

pub fn parts_of(form: Form) -> Parts
    ensures { result ≡ parts_of form }
{
    match form {
        Form::Binary { op, t, a, b } => row(Kind::Binary(op), Operands(t, a, b, 0, 0, 0)),
        Form::Constant { op, t, k } => row(Kind::Constant(op), Operands(t, 0, 0, k, 0, 0)),
        Form::Ld { t, a, b } => row(Kind::Ld, Operands(t, a, b, 0, 0, 0)),
        Form::St { t, a, b } => row(Kind::St, Operands(t, a, b, 0, 0, 0)),
        Form::Unary { op, t, a } => row(Kind::Unary(op), Operands(t, a, 0, 0, 0, 0)),
        Form::Nop => row(Kind::Nop, Operands(0, 0, 0, 0, 0, 0)),
        Form::Halt => row(Kind::Halt, Operands(0, 0, 0, 0, 0, 0)),
        Form::Ldsp { a } => row(Kind::Ldsp, Operands(0, a, 0, 0, 0, 0)),
        Form::Rts => row(Kind::Rts, Operands(0, 0, 0, 0, 0, 0)),
        Form::Pop { t } => row(Kind::Pop, Operands(t, 0, 0, 0, 0, 0)),
        Form::Push { t } => row(Kind::Push, Operands(t, 0, 0, 0, 0, 0)),
        Form::JumpRelative { condition, a } => row(
            Kind::Jump(condition, Target::Relative),
            Operands(0, a, 0, 0, 0, 0),
        ),
        Form::JumpAbsolute { condition, a } => row(
            Kind::Jump(condition, Target::Absolute),
            Operands(0, a, 0, 0, 0, 0),
        ),
        Form::CallRelative { a } => row(Kind::Call(Target::Relative), Operands(0, a, 0, 0, 0, 0)),
        Form::CallAbsolute { a } => row(Kind::Call(Target::Absolute), Operands(0, a, 0, 0, 0, 0)),
        Form::JumpDisplaced { condition, d10 } => row(
            Kind::Jump(condition, Target::Displaced),
            Operands(0, 0, 0, 0, d10, 0),
        ),
        Form::CallDisplaced { d12 } => row(
            Kind::Call(Target::Displaced),
            Operands(0, 0, 0, 0, 0, d12),
        ),
    }
}

// Form to word: the word, its unused fields zero, or number 5.
#[tactic(auto, unfolding(crate::specs::Writing::form_to_word))]
pub fn form_to_word(form: Form) -> Result<u16, OutOfRange>
    ensures { word_answer result ≡ form_to_word form }
{
    let Parts(entry, x) = parts_of(form);
    write(entry, x)
}
