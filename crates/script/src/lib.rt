// Scripts: calls as lines of text, read into the numbers that replay::replay takes, and listings among them.
#![tactic(auto)]

ghost use Rattle.std.specs.Prelude.{◌≡◌, true, not, ◌+◌, ◌-◌, ◌*◌, ◌≤◌, ◌<◌, length, position, unwrap_or};
ghost use Rattle.script.specs.Commands.{says, is_digit, value_of, decimal_of, run_of, listing_at, with_numbers, command_of};
ghost use Rattle.script.specs.Script.{outside, meaning_of, place_after, followed, script_of, gave, script_read};
ghost use Rattle.script.specs.ScriptParts.{script_at, Within, verdict_of, at_end_answer, calls_in, put, Fits, calls_written};

// The case of a listing among the numbers of a script: its address and its count follow. The cases of replay::replay are below 100; from
// there on they are the script's own.
pub const LISTING: u64 = 100;

// What one line says.
#[derive(Clone, Copy)]
enum Command {
    // Spaces or none, then nothing or a comment: skipped.
    Blank,
    Reset,
    Load,
    End,
    Run(u32),
    Step,
    View,
    Listing { first: u16, count: u32 },
    Unknown,
}

// Outside a load; or inside one, with the number of its line and the offset at which its listing starts.
#[derive(Clone, Copy)]
enum Place {
    Outside,
    Inside { number: usize, from: usize },
}

// What a line comes to at its place: a call is the three numbers of replay::replay, or those of a listing.
#[derive(Drop)]
enum Meaning {
    Nothing,
    Call(u64, u64, u64),
    Unreadable,
}

// Where a line starts: its offset, its number, from 1, and its place.
#[derive(Clone, Copy)]
struct LineStart {
    at: usize,
    number: usize,
    place: Place,
}

// The first line.
const FIRST: LineStart = LineStart {
    at: 0,
    number: 1,
    place: Place::Outside,
};

// What a line comes to, and where the next one starts.
#[derive(Drop)]
struct LineRead {
    meaning: Meaning,
    next: LineStart,
}

// Why a script is not read: the number, from 1, of the first line that cannot be read (of a load that is never ended, the line `load`); or
// that its calls do not fit.
#[derive(Clone, Copy, PartialEq, Eq)]
pub enum ScriptError {
    Unreadable(usize),
    NoRoom,
}

// The word, then the end of a line.
#[tactic(auto, using(crate::proofs::Words::begins_there), unfolding(crate::specs::Commands::says))]
fn is_word(word: &[u8], line: &[u8]) -> bool
    ensures { result ≡ says word.now line.now }
{
    match line.strip_prefix(word) {
        Some(rest) => lines::line_ends(rest),
        None => false,
    }
}

// The place of the first byte that is no decimal digit.
#[tactic(auto, unfolding(crate::specs::Commands::is_digit))]
fn first_other(s: &[u8]) -> Option<usize>
    ensures { result ≡ position (λ b. not (is_digit b)) s.now }
{
    s.iter().position(|b| !b.is_ascii_digit())
}

// How many decimal digits stand at the front.
#[tactic(auto, using(crate::proofs::Decimals::digits_within))]
fn count_digits(s: &[u8]) -> usize
    ensures count { result ≡ unwrap_or (position (λ b. not (is_digit b)) s.now) (length s.now) }
    ensures fits { result ≤ length s.now }
{
    first_other(s).unwrap_or(s.len())
}

// A value with one digit more behind it, where that has 32 bits.
#[tactic(auto, unfolding(crate::specs::Commands::value_of))]
fn with_digit(value: u32, digit: u8) -> Option<u32>
    requires { 48 ≤ digit }
    ensures { result ≡ value_of (value * 10 + (digit - 48)) true }
{
    value.checked_mul(10)?.checked_add(u32::from(digit - b'0'))
}

// Digits, then the end of the line, which write a number of 32 bits.
fn read_decimal(s: &[u8]) -> Option<u32>
    ensures { result ≡ decimal_of s.now }
{
    let n = count_digits(s);
    if n == 0 || !lines::line_ends(&s[n..]) {
        return None;
    }
    let mut value = 0;
    for b in &s[..n] {
        value = with_digit(value, *b)?;
    }
    Some(value)
}

fn run_of(budget: Option<u32>) -> Command
    ensures { result ≡ run_of budget }
{
    budget.map_or(Command::Unknown, Command::Run)
}

// What follows `listing` and its space: an address, a space and a count.
#[tactic(auto, unfolding(crate::specs::Commands::listing_at))]
fn read_listing(s: &[u8]) -> Command
    ensures { result ≡ listing_at s.now }
{
    if s.len() < 5 || s[4] != b' ' {
        return Command::Unknown;
    }
    match (lines::front_number(s), read_decimal(&s[5..])) {
        (Some(first), Some(count)) => Command::Listing { first, count },
        _ => Command::Unknown,
    }
}

// The commands with numbers behind their word.
fn read_with_numbers(line: &[u8]) -> Command
    ensures { result ≡ with_numbers line.now }
{
    if let Some(rest) = line.strip_prefix(b"run ") {
        return run_of(read_decimal(rest));
    }
    if let Some(rest) = line.strip_prefix(b"listing ") {
        return read_listing(rest);
    }
    Command::Unknown
}

// The commands that are a word alone, then those with numbers.
#[tactic(auto, unfolding(crate::specs::Commands::command_of))]
fn read_command(line: &[u8]) -> Command
    ensures { result ≡ command_of line.now }
{
    if lines::line_ends(line) {
        return Command::Blank;
    }
    if is_word(b"reset", line) {
        return Command::Reset;
    }
    if is_word(b"load", line) {
        return Command::Load;
    }
    if is_word(b"end", line) {
        return Command::End;
    }
    if is_word(b"step", line) {
        return Command::Step;
    }
    if is_word(b"view", line) {
        return Command::View;
    }
    read_with_numbers(line)
}

fn outside_load(command: Command) -> Meaning
    ensures { result ≡ outside command }
{
    match command {
        Command::Blank | Command::Load => Meaning::Nothing,
        Command::Reset => Meaning::Call(0, 0, 0),
        Command::Run(b) => Meaning::Call(2, u64::from(b), 0),
        Command::Step => Meaning::Call(3, 0, 0),
        Command::View => Meaning::Call(4, 0, 0),
        Command::Listing { first, count } => Meaning::Call(
            LISTING,
            u64::from(first),
            u64::from(count),
        ),
        Command::End | Command::Unknown => Meaning::Unreadable,
    }
}

// What a line comes to that starts at an offset.
fn meaning_of(place: Place, command: Command, start: usize) -> Meaning
    ensures { result ≡ meaning_of place command start }
{
    match (place, command) {
        (Place::Outside, _) => outside_load(command),
        (Place::Inside { from, .. }, Command::End) => Meaning::Call(1, from as u64, start as u64),
        (Place::Inside { .. }, _) => Meaning::Nothing,
    }
}

// Where the next line is, after one with a number.
fn place_after(place: Place, command: Command, number: usize, next: usize) -> Place
    ensures { result ≡ place_after place command number next }
{
    match (place, command) {
        (Place::Outside, Command::Load) => Place::Inside { number, from: next },
        (Place::Inside { .. }, Command::End) => Place::Outside,
        _ => place,
    }
}

fn at_end(place: Place, count: usize) -> Result<usize, ScriptError>
    ensures { result ≡ at_end_answer place count }
{
    match place {
        Place::Outside => Ok(count),
        Place::Inside { number, .. } => Err(ScriptError::Unreadable(number)),
    }
}

// Reads one line: what the lines from its start on are is what it comes to, followed by the lines from the next start on.
fn read_line(text: &[u8], start: LineStart) -> LineRead
    requires { (start.at < length text.now) × Within text.now start }
    ensures reads { script_at text.now start ≡ followed result.meaning start.number (script_at text.now result.next) }
    ensures goes { (start.at < result.next.at) × Within text.now result.next }
{
    let LineStart { at, number, place } = start;
    let rest = &text[at..];
    let length = lines::line_length(rest);
    let command = read_command(&rest[..length]);
    let after = at + length + 1;
    LineRead {
        meaning: meaning_of(place, command, at),
        next: LineStart {
            at: after,
            number: number + 1,
            place: place_after(place, command, number, after),
        },
    }
}

// What a script is, with nothing written yet. The lines are walked by their starts: what is open at the end decides too.
fn check(text: &[u8]) -> Result<usize, ScriptError>
    ensures { result ≡ verdict_of (script_of text.now) }
{
    let mut start = FIRST;
    let mut count = 0;
    while start.at < text.len() {
        let line = read_line(text, start);
        match line.meaning {
            Meaning::Nothing => {}
            Meaning::Call(_, _, _) => count += 1,
            Meaning::Unreadable => return Err(ScriptError::Unreadable(start.number)),
        }
        start = line.next;
    }
    at_end(start.place, count)
}

// Writes a line's call from a place on, and answers the place after it.
fn put_call(calls: &mut [u64], to: usize, meaning: Meaning) -> usize
    requires { to + 3 * calls_in meaning ≤ length calls.old }
    ensures place { result ≡ to + 3 * calls_in meaning }
    ensures calls { calls.new ≡ put meaning to calls.old }
{
    match meaning {
        Meaning::Call(kind, first, second) => {
            calls[to] = kind;
            calls[to + 1] = first;
            calls[to + 2] = second;
            to + 3
        }
        Meaning::Nothing | Meaning::Unreadable => to,
    }
}

// Writes the calls of a script that can be read and whose calls fit.
fn write_calls(text: &[u8], calls: &mut [u64])
    requires { Fits (script_of text.now) (length calls.old) }
    ensures { calls.new ≡ calls_written (script_of text.now) calls.old }
{
    let mut start = FIRST;
    let mut to = 0;
    while start.at < text.len() {
        let line = read_line(text, start);
        to = put_call(calls, to, line.meaning);
        start = line.next;
    }
}

// Reads a script: writes its calls from calls[0] on, three numbers each, and answers how many it has. Where it cannot be read, or its calls do
// not fit, nothing is written.
pub fn read(text: &[u8], calls: &mut [u64]) -> Result<usize, ScriptError>
    ensures { gave result calls.new ≡ script_read (script_of text.now) calls.old }
{
    let count = check(text)?;
    if calls.len() / 3 < count {
        return Err(ScriptError::NoRoom);
    }
    write_calls(text, calls);
    Ok(count)
}
