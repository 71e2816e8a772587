// Listings back out of memory: words of a lent memory, written as lines of a listing into a lent text. No core is taken.
#![tactic(auto)]

ghost use Rattle.std.specs.Prelude.{◌≡◌, ◌++◌, ◌+◌, ◌*◌, ◌≤◌, length, drop};
ghost use Rattle.dump.specs.Dump.{entry_text, listing_text, past_end, dump_gave, dumped};

use listing::{Fault, FaultAt};
use r8_core::ListingError;
use refusals::Refusal;

// The bytes of a line: address, space, word, LF.
const LINE: usize = 10;

// A range has no line of its own, so the offset of its fault is 0.
const PAST_END: FaultAt = FaultAt {
    fault: Fault::PastEnd,
    offset: 0,
};

// Whether first plus count is above the limit; the sum itself may be above every usize.
fn past_end(limit: usize, first: usize, count: usize) -> bool
    ensures { result ≡ past_end limit first count }
{
    limit < first || limit - first < count
}

// A line, into its ten bytes, one by one: that an array of them is made and copied was tried, and has a third of the speed.
#[tactic(auto, using(crate::proofs::Writes::ten_stored))]
fn put_line(line: &mut [u8], address: u16, word: u16)
    requires { length line.old ≡ 10 }
    ensures { line.new ≡ entry_text address word }
{
    let [a, b, c, d] = hexadecimal::word_text(address);
    let [w, x, y, z] = hexadecimal::word_text(word);
    line[0] = a;
    line[1] = b;
    line[2] = c;
    line[3] = d;
    line[4] = b' ';
    line[5] = w;
    line[6] = x;
    line[7] = y;
    line[8] = z;
    line[9] = b'\n';
}

// The lines of a range that lies in the memory, into a text that has room for them. By places, and not over `chunks_exact_mut`, of which the
// library does not say what the text then holds.
#[tactic(auto, unfolding(crate::specs::Dump::listing_text))]
fn put_lines(memory: &[u16], first: usize, count: usize, text: &mut [u8])
    requires { (first + count ≤ length memory.now) × (length memory.now ≤ 65536) × (10 * count ≤ length text.old) }
    ensures { text.new ≡ listing_text memory.now first count ++ drop (10 * count) text.old }
{
    for (i, word) in memory[first..first + count].iter().enumerate() {
        put_line(
            &mut text[LINE * i..LINE * (i + 1)],
            (first + i) as u16,
            *word,
        );
    }
}

// Words of the memory, count of them from the address first on, as listing lines from the text's first byte on; what is past them stays.
// It gives how many bytes were written. Refused with 1, 4 (whose offset is 0) or 10, the first that applies, it leaves the text as it was.
#[tactic(auto, unfolding(crate::specs::Dump::dumped, crate::specs::Dump::dump_number, refusals::specs::Refusals::first_number))]
pub fn listing(
    memory: &[u16],
    first: usize,
    count: usize,
    text: &mut [u8],
) -> Result<usize, ListingError>
    ensures { dump_gave result text.new ≡ dumped memory.now first count text.old }
{
    if refusals::wrong_length(memory.len()) {
        return Err(Refusal::WrongLength.into());
    }
    if past_end(memory.len(), first, count) {
        return Err(PAST_END.into());
    }
    if text.len() / LINE < count {
        return Err(Refusal::ShortText.into());
    }
    put_lines(memory, first, count, text);
    Ok(LINE * count)
}
