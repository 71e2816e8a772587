// How numbers, flags, end letters and the lines of a trace are written.
#![tactic(auto)]

ghost use Rattle.std.specs.Prelude.{◌≡◌};
ghost use Rattle.text.specs.Decimal.{last_digit, decimal_text, at_end};
ghost use Rattle.text.specs.Text.{bit_text, flags_text, line_text, letter_text};

use isa::{Cycles, Flags};
use r8_core::End;

fn last_digit(n: u64) -> u8
    ensures { result ≡ last_digit n }
{
    b'0' + (n % 10) as u8
}

// A number in base ten, at the end of as many bytes as one has digits at most, spaces before it, and where it starts.
#[derive(Drop)]
pub struct Figure {
    pub digits: [u8; 20],
    pub start: usize,
}

pub fn decimal(n: u64) -> Figure
    ensures { result ≡ at_end (decimal_text n) }
{
    let mut digits = [b' '; 20];
    let mut start: usize = 20;
    let mut rest = n;
    loop {
        start -= 1;
        digits[start] = last_digit(rest);
        if rest < 10 {
            return Figure { digits, start };
        }
        rest /= 10;
    }
}

fn bit(set: bool) -> u8
    ensures { result ≡ bit_text set }
{
    b'0' + u8::from(set)
}

pub fn flags_text(flags: Flags) -> [u8; 4]
    ensures { result ≡ flags_text flags }
{
    [bit(flags.n), bit(flags.z), bit(flags.c), bit(flags.v)]
}

// The line of a finished instruction. Its cycles, 2 to 4, are one digit; of a number above 9 it is the last.
pub fn line_text(address: u16, word: u16, cycles: Cycles, flags: Flags) -> [u8; 17]
    ensures { result ≡ line_text address word cycles.0 flags }
{
    let mut line = *b"0000 0000 0 0000\n";
    line[..4].copy_from_slice(&hexadecimal::word_text(address));
    line[5..9].copy_from_slice(&hexadecimal::word_text(word));
    line[10] = last_digit(u64::from(cycles.0));
    line[12..16].copy_from_slice(&flags_text(flags));
    line
}

pub fn letter(end: End) -> u8
    ensures { result ≡ letter_text end }
{
    match end {
        End::H => b'H',
        End::U => b'U',
        End::B => b'B',
        End::M => b'M',
    }
}
