// The line reader of a listing, and the comment call. A line is four hexadecimal digits (an address), one space, four digits (a word),
// spaces or none, then nothing or `;` and a comment; or it is spaces or none, and says nothing. An LF or the end of the listing ends it.
#![tactic(auto)]

ghost use Rattle.std.specs.Prelude.{◌≡◌, ◌+◌, ◌<◌, min, length, drop, unwrap_or};
ghost use Rattle.std.specs.Option.{SomeIff};
ghost use Rattle.hexadecimal.specs.Digits.{digit_value};
ghost use Rattle.lines.specs.Lines.{first_line, after_spaces, ends, four_digits, number_at, entry_of, read_line};
ghost use Rattle.lines.specs.Answers.{line_says, said_by};
ghost use Rattle.lines.specs.declared.Line.TheVariants.{IllFormed};
ghost use Rattle.lines.specs.Comment.{comment_text, comment_start};

mod search; // the place of a byte
mod walk; // the lines of a listing

pub use walk::Lines;

const LINE_FEED: u8 = b'\n';

const SPACE: u8 = b' ';

const SEMICOLON: u8 = b';';

// What one line says.
#[derive(Clone, Copy)]
pub enum Line {
    // Spaces or none: skipped.
    Blank,
    Entry { address: u16, word: u16 },
    IllFormed,
}

// What the line reader answers: what the line says, and how many bytes it has, the LF not counted.
#[derive(Clone, Copy)]
pub struct Read {
    pub line: Line,
    pub length: usize,
}

// The value of a hexadecimal digit, in either case. Three `if` that each set one variable are compiled without a jump between figures and letters,
// which a `match` over the ranges, or `to_digit`, would make.
#[inline(always)]
#[tactic(auto, unfolding(hexadecimal::specs::Digits::digit_value))]
fn digit(b: u8) -> Option<u16>
    ensures { SomeIff result (digit_value b < 16) (digit_value b) }
{
    let mut value = 16;
    if b'0' <= b && b <= b'9' {
        value = b - b'0';
    }
    if b'A' <= b && b <= b'F' {
        value = b - b'A' + 10;
    }
    if b'a' <= b && b <= b'f' {
        value = b - b'a' + 10;
    }
    (value < 16).then_some(value as u16)
}

// The number that four digits write, the first the highest.
#[inline(always)]
#[tactic(auto, unfolding(crate::specs::Lines::four_digits))]
fn number(a: u8, b: u8, c: u8, d: u8) -> Option<u16>
    ensures { unwrap_or result 65536 ≡ four_digits (digit_value a) (digit_value b) (digit_value c) (digit_value d) }
{
    let (Some(a), Some(b), Some(c), Some(d)) = (digit(a), digit(b), digit(c), digit(d)) else {
        return None;
    };
    Some(a * 4096 + b * 256 + c * 16 + d)
}

// What follows the spaces at the front.
#[tactic(auto, unfolding(crate::specs::Lines::after_spaces))]
fn after_spaces(s: &[u8]) -> &[u8]
    ensures { result.now ≡ after_spaces s.now }
{
    let mut rest = s;
    while let [SPACE, tail @ ..] = rest {
        rest = tail;
    }
    rest
}

// Whether a line may end so: spaces or none, then nothing or `;` and a comment.
#[tactic(auto, using(crate::proofs::Places::ends_at_end, crate::proofs::Places::ends_by_byte))]
pub fn line_ends(s: &[u8]) -> bool
    ensures { result ≡ ends s.now }
{
    matches!(after_spaces(s), [] | [SEMICOLON, ..])
}

// An entry: the digits of an address, a space, the digits of a word, and a line's end.
#[tactic(auto, using(crate::proofs::Places::too_short, crate::proofs::Entries::no_entry), unfolding(crate::specs::Lines::entry_of, crate::specs::Lines::number_at))]
fn entry_of(text: &[u8]) -> Option<Line>
    ensures { unwrap_or result IllFormed ≡ entry_of text.now }
{
    let [a, b, c, d, SPACE, e, f, g, h, end @ ..] = text else {
        return None;
    };
    let address = number(*a, *b, *c, *d)?;
    let word = number(*e, *f, *g, *h)?;
    line_ends(end).then_some(Line::Entry { address, word })
}

// What a line says, given without its LF.
#[tactic(auto, using(crate::proofs::Places::empty, crate::proofs::Places::not_empty), unfolding(crate::specs::Lines::read_line))]
fn line_of(text: &[u8]) -> Line
    ensures { result ≡ read_line text.now }
{
    if after_spaces(text).is_empty() {
        return Line::Blank;
    }
    entry_of(text).unwrap_or(Line::IllFormed)
}

// How many bytes the line at the front has, the LF not counted.
#[tactic(auto, using(crate::proofs::Places::first_length))]
pub fn line_length(rest: &[u8]) -> usize
    ensures { result ≡ length (first_line rest.now) }
{
    search::place_of(rest, LINE_FEED)
}

// The line at the front, without the LF.
#[tactic(auto, using(crate::proofs::Places::first_length))]
fn first_line(s: &[u8]) -> &[u8]
    ensures text { result.now ≡ first_line s.now }
    ensures place { result.ref_ptr ≡ s.entry.ref_ptr }
{
    &s[..line_length(s)]
}

// The line reader: given the rest of a listing, it reads the line at the front. Where nothing is left, that is blank and has no byte.
pub fn read_line(rest: &[u8]) -> Read
    ensures line { line_says result.line ≡ said_by (first_line rest.now) }
    ensures length { result.length ≡ length (first_line rest.now) }
{
    let text = first_line(rest);
    Read {
        line: line_of(text),
        length: text.len(),
    }
}

// The number that the first four bytes write in hexadecimal, where there are four and each is a digit.
#[tactic(auto, using(crate::proofs::Places::no_four), unfolding(crate::specs::Lines::number_at))]
pub fn front_number(text: &[u8]) -> Option<u16>
    ensures { unwrap_or result 65536 ≡ number_at text.now 0 }
{
    let [a, b, c, d, ..] = text else {
        return None;
    };
    number(*a, *b, *c, *d)
}

// What follows from a place on; an empty part where that is past the end.
fn part_from(s: &[u8], i: usize) -> &[u8]
    ensures text { result.now ≡ drop i s.now }
    ensures place { (result.ref_ptr.0 ≡ s.entry.ref_ptr.0) × (result.ref_ptr.1 ≡ s.entry.ref_ptr.1 + min i (length s.now)) }
{
    &s[i.min(s.len())..]
}

// The comment call: the part of the listing after the first `;` from the offset to the line's end, without the LF; an empty part
// where there is none, or the offset is past the end.
#[tactic(auto, using(crate::proofs::Places::find_le))]
pub fn comment(listing: &[u8], offset: usize) -> &[u8]
    ensures text { result.now ≡ comment_text listing.now offset }
    ensures place { (result.ref_ptr.0 ≡ listing.entry.ref_ptr.0) × (result.ref_ptr.1 ≡ listing.entry.ref_ptr.1 + comment_start listing.now offset) }
{
    let line = first_line(part_from(listing, offset));
    let i = search::place_of(line, SEMICOLON);
    part_from(line, i + 1)
}
