// Why a call is refused before it starts, and the number of each refusal.
#![tactic(auto)]

ghost use Rattle.std.specs.Prelude.{◌≡◌};
ghost use Rattle.refusals.specs.Refusals.{refusal_number, wrong_length};

// Numbers 1, 7, 8, 9 and 10.
#[derive(Clone, Copy, PartialEq, Eq)]
pub enum Refusal {
    WrongLength,
    WrongCycle,
    Stopped,
    ClockFull,
    ShortText,
}

// The numbers of documents 01 and 02.
impl From<Refusal> for u8 {
    ghost from_gives = { λ why n. n ≡ refusal_number why };

    fn from(why: Refusal) -> u8 {
        match why {
            Refusal::WrongLength => 1,
            Refusal::WrongCycle => 7,
            Refusal::Stopped => 8,
            Refusal::ClockFull => 9,
            Refusal::ShortText => 10,
        }
    }
}

pub fn wrong_length(length: usize) -> bool
    ensures { result ≡ wrong_length length }
{
    length == 0 || 65536 < length
}
