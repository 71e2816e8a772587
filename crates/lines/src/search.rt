// The place of a byte in a slice, eight bytes a turn. With `position` alone a load takes a sixth longer, and with comments a third; with `position`
// for the last bytes alone it takes a sixth longer, and with comments a fourth.
ghost use Rattle.std.specs.Prelude.{◌≡◌, ◌+◌, ◌≤◌, leb, length, drop};
ghost use Rattle.lines.specs.Lines.{find};

// Whether none of the eight bytes from a place on is b: all are compared, so that the compiler can compare them at once.
#[tactic(auto, using(crate::proofs::Eights::eight))]
fn none_of_eight(s: &[u8], i: usize, b: u8) -> bool
    requires { i + 8 ≤ length s.now }
    ensures { result ≡ leb 8 (find b (drop i s.now)) }
{
    let first = (s[i] != b) & (s[i + 1] != b) & (s[i + 2] != b) & (s[i + 3] != b);
    let last = (s[i + 4] != b) & (s[i + 5] != b) & (s[i + 6] != b) & (s[i + 7] != b);
    first & last
}

// A place that is not past the first byte b: eight bytes a turn.
#[tactic(auto, using(crate::proofs::Eights::find_over))]
fn place_before(s: &[u8], b: u8) -> usize
    ensures { find b s.now ≡ result + find b (drop result s.now) }
{
    let mut i = 0;
    while 8 <= s.len() - i {
        if !none_of_eight(s, i, b) {
            return i;
        }
        i += 8;
    }
    i
}

// The place of the first byte b, the length where there is none.
#[tactic(auto, using(crate::proofs::Places::find_here, crate::proofs::Places::find_further, crate::proofs::Places::find_nothing, crate::proofs::Places::find_le))]
pub fn place_of(s: &[u8], b: u8) -> usize
    ensures { result ≡ find b s.now }
{
    let mut i = place_before(s, b);
    while i < s.len() {
        if s[i] == b {
            return i;
        }
        i += 1;
    }
    i
}
