// What r8trace writes of a listing, byte by byte, on a lent page.
#![tactic(auto)]

ghost use Rattle.std.specs.Prelude.{◌≡◌, ◌*◌, ◌≤◌};
ghost use Rattle.listing.specs.Answers.{fault_number};
ghost use Rattle.r8_core.specs.Calls.{ran};
ghost use Rattle.output.specs.Page.{page_at, put_on};
ghost use Rattle.output.specs.Puts.{Puts};
ghost use Rattle.printed.specs.Printed.{row_text, lines_text, refused_text, answer_text, printed_trace};

use isa::Cycles;
use listing::FaultAt;
use output::Page;
use r8_core::Ran;
use trace::TraceError;

// The line of a row. It has the last four digits of an address and a word, and the last one of the cycles: the remainders change nothing.
fn row_text(row: &[u64; 4]) -> [u8; 17]
    ensures { result ≡ row_text row.now }
{
    let [address, word, cycles, flags] = *row;
    text::line_text(
        (address % 65536) as u16,
        (word % 65536) as u16,
        Cycles((cycles % 10) as u32),
        layout::flags_of(flags),
    )
}

// The lines of so many rows.
fn put_lines(page: &mut Page, rows: &[u64; 2000], count: u32)
    requires { 4 * count ≤ 2000 }
    ensures { Puts page.old page.new (lines_text count rows.now) }
{
    let (rows, _) = rows.as_chunks::<4>();
    for row in &rows[..count as usize] {
        page.put(&row_text(row));
    }
}

// The lines of a trace, then the totals.
fn put_ran(page: &mut Page, rows: &[u64; 2000], totals: Ran)
    requires { 4 * totals.instructions.0 ≤ 2000 }
    ensures { Puts page.old page.new (answer_text (ran totals.cycles.0 totals.instructions.0 totals.end) rows.now) }
{
    put_lines(page, rows, totals.instructions.0);
    page.put_totals(
        u64::from(totals.cycles.0),
        u64::from(totals.instructions.0),
        text::letter(totals.end),
    );
    page.put(b"\n");
}

fn put_fault(page: &mut Page, at: FaultAt)
    ensures { Puts page.old page.new (refused_text (fault_number at.fault) at.offset) }
{
    page.put_number(b"refused ", u64::from(u8::from(at.fault)));
    page.put_number(b" at ", at.offset as u64);
    page.put(b"\n");
}

fn put_trace(page: &mut Page, listing: &[u8])
    ensures { Puts page.old page.new (printed_trace listing.now) }
{
    let mut rows = [0u64; 2000];
    match trace::trace(listing, &mut rows) {
        Ok(totals) => put_ran(page, &rows, totals),
        Err(TraceError::Faulty(at)) => put_fault(page, at),
        Err(TraceError::TooLong) => page.put(b"too long\n"),
        // does not arise
        Err(TraceError::NoRoom) => {}
    }
}

// Puts what r8trace writes of a listing on a page, and answers how many bytes that is; on a page that is too short, the first of them. One
// of 16,384 bytes is never too short.
pub fn trace_text(listing: &[u8], page: &mut [u8]) -> usize
    ensures { page_at page.new result ≡ put_on (page_at page.old 0) (printed_trace listing.now) }
{
    let mut filled = Page::new(page);
    put_trace(&mut filled, listing);
    filled.count()
}
