// Words of 16 bits: memory that is lent, sums and differences modulo 65,536, bits and shifts.
// Each function is total: no address and no word is refused.
#![tactic(auto)]

ghost use Rattle.std.specs.Prelude.{◌≡◌};
ghost use Rattle.words.specs.Memory.{word_at, stored};
ghost use Rattle.words.specs.Arithmetic.{sum, difference, conjunction, disjunction, exclusive, complement, left, right};

// The word at an address, 0000 at or past the end.
pub fn read(memory: &[u16], x: u16) -> u16
    ensures { result ≡ word_at memory.now x }
{
    memory.get(usize::from(x)).copied().unwrap_or(0)
}

// The word stored at an address, or lost at or past the end. The libraries write memory through this alone: by the stores of cycles and
// instructions, and by the lines of a listing.
pub fn write(memory: &mut [u16], x: u16, v: u16)
    ensures { memory.new ≡ stored memory.old x v }
{
    let i = usize::from(x);
    if i < memory.len() {
        memory[i] = v;
    }
}

pub fn add(p: u16, q: u16) -> u16
    ensures { result ≡ sum p q }
{
    p.wrapping_add(q)
}

pub fn subtract(p: u16, q: u16) -> u16
    ensures { result ≡ difference p q }
{
    p.wrapping_sub(q)
}

#[tactic(auto, unfolding(crate::specs::Arithmetic::conjunction))]
pub fn and(p: u16, q: u16) -> u16
    ensures { result ≡ conjunction p q }
{
    p & q
}

#[tactic(auto, unfolding(crate::specs::Arithmetic::disjunction))]
pub fn or(p: u16, q: u16) -> u16
    ensures { result ≡ disjunction p q }
{
    p | q
}

#[tactic(auto, unfolding(crate::specs::Arithmetic::exclusive))]
pub fn xor(p: u16, q: u16) -> u16
    ensures { result ≡ exclusive p q }
{
    p ^ q
}

pub fn not(p: u16) -> u16
    ensures { result ≡ complement p }
{
    !p
}

// Left by one; the bit enters below.
pub fn shift_left(p: u16, enters: bool) -> u16
    ensures { result ≡ left p enters }
{
    (p << 1) + u16::from(enters)
}

// Right by one; the bit enters above.
pub fn shift_right(p: u16, enters: bool) -> u16
    ensures { result ≡ right p enters }
{
    (u16::from(enters) << 15) + (p >> 1)
}
