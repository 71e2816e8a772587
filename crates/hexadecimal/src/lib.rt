// Words written in four hexadecimal digits.
#![tactic(auto)]

ghost use Rattle.std.specs.Prelude.{◌≡◌};
ghost use Rattle.hexadecimal.specs.Digits.{hex_digit, word_text};

// The last hexadecimal digit of a word.
fn digit(word: u16) -> u8
    ensures { result ≡ hex_digit word }
{
    let d = (word % 16) as u8;
    if d < 10 { b'0' + d } else { b'A' + (d - 10) }
}

// A word in four digits.
pub fn word_text(w: u16) -> [u8; 4]
    ensures { result ≡ word_text w }
{
    [digit(w / 4096), digit(w / 256), digit(w / 16), digit(w)]
}
