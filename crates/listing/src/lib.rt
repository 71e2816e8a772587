// A listing checked, and stored into a lent memory: all lines are checked before a word is written.
#![tactic(auto)]

ghost use Rattle.std.specs.Prelude.{◌≡◌, length};
ghost use Rattle.lines.specs.Lines.{lines};
ghost use Rattle.listing.specs.Answers.{fault_number, store_answer};
ghost use Rattle.listing.specs.Verdicts.{verdict_number};
ghost use Rattle.listing.specs.Listing.{fault_of, store_lines, listing_answer, listing_memory};

use lines::{Line, Lines};

// What is wrong with a line.
#[derive(Clone, Copy, PartialEq, Eq)]
pub enum Fault {
    IllFormed,
    NotAbove,
    PastEnd,
}

// The numbers of document 01.
impl From<Fault> for u8 {
    ghost from_gives = { λ fault n. n ≡ fault_number fault };

    fn from(fault: Fault) -> u8 {
        match fault {
            Fault::IllFormed => 2,
            Fault::NotAbove => 3,
            Fault::PastEnd => 4,
        }
    }
}

// The first fault of a listing, and the offset of its line's start.
#[derive(Clone, Copy)]
pub struct FaultAt {
    pub fault: Fault,
    pub offset: usize,
}

fn judge(limit: usize, lowest: u32, line: Line) -> Result<(), Fault>
    ensures { verdict_number result ≡ fault_of limit lowest line }
{
    match line {
        Line::Blank => Ok(()),
        Line::Entry { address, .. } if limit <= address as usize => Err(Fault::PastEnd),
        Line::Entry { address, .. } if (address as u32) < lowest => Err(Fault::NotAbove),
        Line::Entry { .. } => Ok(()),
        Line::IllFormed => Err(Fault::IllFormed),
    }
}

// What a store of the listing answers, with nothing stored yet. An address has to be at or above the lowest: one past the last that was read.
#[tactic(auto, using(crate::proofs::Turns::same_faults, crate::proofs::Turns::same_counts, crate::proofs::Turns::counts_le, crate::proofs::Turns::numbered), unfolding(crate::proofs::Turns::faults, crate::proofs::Turns::counts, crate::specs::Listing::listing_answer, crate::specs::Listing::check_of))]
fn check(listing: &[u8], limit: usize) -> Result<usize, FaultAt>
    ensures { store_answer result ≡ listing_answer listing.now limit }
{
    let mut lowest = 0;
    let mut count = 0;
    for (offset, line) in Lines::new(listing) {
        judge(limit, lowest, line).map_err(|fault| FaultAt { fault, offset })?;
        if let Line::Entry { address, .. } = line {
            lowest = address as u32 + 1;
            count += 1;
        }
    }
    Ok(count)
}

// The lines are stored with no further look at what is wrong with one: an ill-formed line says nothing, and is passed over.
#[tactic(auto, using(crate::proofs::Turns::same_stores), unfolding(crate::proofs::Turns::stores))]
fn store_lines(listing: &[u8], memory: &mut [u16])
    ensures { memory.new ≡ store_lines (lines listing.now) memory.old }
{
    for (_, line) in Lines::new(listing) {
        if let Line::Entry { address, word } = line {
            words::write(memory, address, word);
        }
    }
}

// The checked store, which answers how many words were stored: a listing with a fault changes nothing. Every length of memory is taken as it is,
// 0 and above 65,536 too, which number 1 is for.
#[tactic(auto, using(crate::proofs::Decided::accepted, crate::proofs::Decided::refuses))]
pub fn store(listing: &[u8], memory: &mut [u16]) -> Result<usize, FaultAt>
    ensures answer { store_answer result ≡ listing_answer listing.now (length memory.old) }
    ensures memory { memory.new ≡ listing_memory listing.now memory.old }
{
    let stored = check(listing, memory.len())?;
    store_lines(listing, memory);
    Ok(stored)
}
