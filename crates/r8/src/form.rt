// The form of a word as seven numbers.
ghost use Rattle.std.specs.Prelude.{◌≡◌};
ghost use Rattle.r8.specs.Form.{form_numbers, formed};

use super::codes;
use forms::{Form, Operands, Parts};

#[tactic(auto, unfolding(crate::specs::Form::form_numbers))]
fn form_numbers(form: Form) -> [u16; 7]
    ensures { result ≡ form_numbers form }
{
    let Parts(entry, Operands(t, a, b, k, d10, d12)) = forms::parts_of(form);
    [
        u16::from(entry),
        u16::from(t),
        u16::from(a),
        u16::from(b),
        k,
        d10.cast_unsigned(),
        d12.cast_unsigned(),
    ]
}

#[tactic(auto, unfolding(crate::specs::Form::formed))]
pub fn r8_form(word: u16, form: &mut [u16]) -> u32
    ensures { (result, form.new) ≡ formed word form.old }
{
    if form.len() < 7 {
        return codes::NO_ROOM;
    }
    match forms::word_to_form(word) {
        Ok(read) => {
            form[..7].copy_from_slice(&form_numbers(read));
            codes::OK
        }
        Err(_) => codes::UNDEFINED,
    }
}
