// A lent page that is filled with text. A byte that would go past the page's end is lost.
#![tactic(auto)]

ghost use Rattle.std.specs.Prelude.{◌≡◌, ◌++◌, [], ◌∷◌, take};
ghost use Rattle.hexadecimal.specs.Digits.{word_text};
ghost use Rattle.text.specs.Decimal.{decimal_text};
ghost use Rattle.output.specs.Page.{totals_text};
ghost use Rattle.output.specs.Puts.{Puts};

// A page's bytes, and the place where the next one goes.
#[derive(Drop)]
pub struct Page<'a> {
    bytes: &'a mut [u8],
    at: usize,
}

impl<'a> Page<'a> {
    // A page that is filled from its start on.
    pub fn new(bytes: &'a mut [u8]) -> Page<'a>
        ensures same_reference { result.bytes.ghost_name ≡ bytes.entry.ghost_name }
        ensures bytes { result.bytes.now ≡ bytes.old }
        ensures at { result.at ≡ 0 }
    {
        Page::from_place(bytes, 0)
    }

    // A page that is filled from a place on. The bytes before it count as put.
    pub fn from_place(bytes: &'a mut [u8], at: usize) -> Page<'a>
        ensures same_reference { result.bytes.ghost_name ≡ bytes.entry.ghost_name }
        ensures bytes { result.bytes.now ≡ bytes.old }
        ensures at { result.at ≡ at }
    {
        Page { bytes, at }
    }

    // How many bytes are put on it.
    pub fn count(&self) -> usize
        ensures { result ≡ self.now.at }
    {
        self.at
    }

    // The bytes that are put on it.
    pub fn written(&self) -> &[u8]
        ensures { result.now ≡ take self.now.at self.now.bytes.now }
    {
        let bytes = &*self.bytes;
        bytes.get(..self.at).unwrap_or(bytes)
    }

    // Begins the page anew, from its start.
    pub fn clear(&mut self)
        ensures same_reference { self.new.bytes.ghost_name ≡ self.old.bytes.ghost_name }
        ensures bytes { self.new.bytes.now ≡ self.old.bytes.now }
        ensures at { self.new.at ≡ 0 }
    {
        self.at = 0;
    }

    #[tactic(auto, unfolding(crate::specs::Page::put_on))]
    fn put_byte(&mut self, byte: u8)
        ensures { Puts self.old self.new (byte ∷ []) }
    {
        if self.at < self.bytes.len() {
            self.bytes[self.at] = byte;
            self.at += 1;
        }
    }

    pub fn put(&mut self, bytes: &[u8])
        ensures { Puts self.old self.new bytes.now }
    {
        for &byte in bytes {
            self.put_byte(byte);
        }
    }

    // Text, then a number in base ten.
    pub fn put_number(&mut self, name: &[u8], n: u64)
        ensures { Puts self.old self.new (name.now ++ decimal_text n) }
    {
        self.put(name);
        let figure = text::decimal(n);
        self.put(&figure.digits[figure.start..]);
    }

    // Text, then a word in hexadecimal.
    #[tactic(auto, using(crate::proofs::Stores::put_both))]
    pub fn put_word(&mut self, name: &[u8], word: u16)
        ensures { Puts self.old self.new (name.now ++ word_text word) }
    {
        self.put(name);
        self.put(&hexadecimal::word_text(word));
    }

    // The totals of a run: its cycles, its instructions and its end letter.
    pub fn put_totals(&mut self, cycles: u64, instructions: u64, letter: u8)
        ensures { Puts self.old self.new (totals_text cycles instructions letter) }
    {
        self.put_number(b"cycles ", cycles);
        self.put_number(b" instructions ", instructions);
        self.put(b" end ");
        self.put(&[letter]);
    }
}
