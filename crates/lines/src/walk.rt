// The lines of a listing, one after the other.
ghost use Rattle.std.specs.Prelude.{◌≡◌, length};
ghost use Rattle.std.specs.Iterator.{YieldsFirst, item_count};
ghost use Rattle.lines.specs.Lines.{lines};
ghost use Rattle.lines.specs.Walk.{read_lines, lines_left};

use crate::Line;

// The lines that are left, from an offset of the listing on.
#[derive(Drop)]
pub struct Lines<'a> {
    listing: &'a [u8],
    offset: usize,
}

impl<'a> Lines<'a> {
    pub fn new(listing: &'a [u8]) -> Lines<'a>
        ensures { lines_left result ≡ read_lines 0 (lines listing.now) }
    {
        Lines { listing, offset: 0 }
    }
}

// Each line, with the offset of its start.
impl<'a> Iterator for Lines<'a> {
    type Item = (usize, Line);

    ghost next_gives = { YieldsFirst lines_left };

    ghost remaining = { item_count lines_left };

    #[tactic(auto, using(crate::proofs::Front::front_at, crate::proofs::Front::first_in, crate::proofs::Front::lines_past, crate::proofs::Places::to_end, crate::proofs::Said::lines_apart), unfolding(crate::specs::Walk::read_lines))]
    fn next(&mut self) -> Option<(usize, Line)> {
        let offset = self.offset;
        if self.listing.len() <= offset {
            return None;
        }
        let read = crate::read_line(&self.listing[offset..]);
        self.offset += read.length + 1;
        Some((offset, read.line))
    }
}
