// A listing out of memory.
ghost use Rattle.std.specs.Prelude.{◌≡◌};
ghost use Rattle.dump.specs.Dump.{answer_of, dumped};
ghost use Rattle.r8.specs.Dump.{dump_code, dump_returned};

use super::codes;
use r8_core::ListingError;

// A number is returned as itself; the offset of 4 is always 0.
fn code_of(answer: Result<usize, ListingError>) -> u32
    ensures { result ≡ dump_code (answer_of answer) }
{
    match answer {
        Ok(_) => codes::OK,
        Err(ListingError::Refused(why)) => u32::from(u8::from(why)),
        Err(ListingError::Faulty(at)) => u32::from(u8::from(at.fault)),
    }
}

pub fn r8_listing(memory: &[u16], first: usize, count: usize, text: &mut [u8]) -> u32
    ensures { (result, text.new) ≡ dump_returned (dumped memory.now first count text.old) }
{
    code_of(dump::listing(memory, first, count, text))
}
