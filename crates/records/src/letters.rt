// The letters of events.
ghost use Rattle.std.specs.Prelude.{◌≡◌};
ghost use Rattle.records.specs.Letters.{call_of};

use guest::call::Call;
use interrupt::cpu_interface::EoiMode;

// The call that an event with this letter, aux byte and number asks for, or none where the letter is unknown or a field is not as it should be.
pub fn call_of(letter: u8, aux: u8, number: u16) -> Option<Call>
    ensures { result ≡ call_of letter aux number }
{
    let word = u32::from(number);
    match char::from(letter) {
        'R' => (aux == 0).then_some(Call::Raise(word)),
        'L' => (aux == 0).then_some(Call::Lower(word)),
        'N' => (aux == 0).then_some(Call::Enable(word)),
        'F' => (aux == 0).then_some(Call::Disable(word)),
        'A' => (aux == 0 && number == 0).then_some(Call::Acknowledge),
        'E' => (aux == 0).then_some(Call::End(word)),
        'D' => (aux == 0).then_some(Call::Deactivate(word)),
        'M' => (number == 0).then_some(Call::Mask(u32::from(aux))),
        'I' => (aux < 2 && number == 0).then_some(Call::Open(aux == 1)),
        'V' => (aux < 2 && number == 0).then_some(Call::Mode(EoiMode::from(aux == 1))),
        'P' => (aux == 0 && number == 0).then_some(Call::Park),
        'Q' => (aux == 0 && number == 0).then_some(Call::Resume),
        _ => None,
    }
}
