// The trace of a listing, as numbers.
ghost use Rattle.std.specs.Prelude.{◌≡◌};
ghost use Rattle.trace.specs.Trace.{finding_of};
ghost use Rattle.r8.specs.Trace.{found_returned, traced_returned, trace_returned};

use super::codes;
use layout::Answer;
use r8_core::{ListingError, Ran};
use refusals::Refusal;
use trace::TraceError;

// The answer that was found, into the lent slice.
fn put_found(found: Result<Ran, TraceError>, answer: &mut [u64]) -> u32
    ensures { (result, answer.new) ≡ found_returned (finding_of found) answer.old }
{
    match found {
        Ok(ran) => {
            let said: Result<Ran, Refusal> = Ok(ran);
            layout::put(answer, said.numbers());
            codes::OK
        }
        Err(TraceError::Faulty(at)) => {
            let said: Result<usize, ListingError> = Err(ListingError::Faulty(at));
            layout::put(answer, said.numbers());
            codes::OK
        }
        Err(TraceError::TooLong) => codes::TOO_LONG,
        Err(TraceError::NoRoom) => codes::NO_ROOM,
    }
}

#[tactic(auto, unfolding(crate::specs::Trace::traced_returned))]
pub fn r8_trace(listing: &[u8], rows: &mut [u64], answer: &mut [u64]) -> u32
    ensures { trace_returned result rows.new answer.new ≡ traced_returned listing.now rows.old answer.old }
{
    if 65536 < listing.len() {
        return codes::TOO_LONG;
    }
    if answer.len() < 23 {
        return codes::NO_ROOM;
    }
    put_found(trace::trace(listing, rows), answer)
}
