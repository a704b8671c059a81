// Numbers in a command.
ghost use Rattle.std.specs.Prelude.{◌≡◌, ◌+◌, ◌*◌, ◌^◌, ◌<◌, ◌≤◌};
ghost use Rattle.std.specs.Option.{SomeIff};
ghost use Rattle.std.specs.Char.{digit_value};
ghost use Rattle.console.specs.Numbers.{numeral, number};

// The number that a word writes, in decimal or in hexadecimal after `0x`, if it is one below 2 ^ 32.
#[tactic(auto, using(crate::proofs::Digits::after_prefix))]
pub fn read_number(word: &[u8]) -> Option<u32>
    ensures { result ≡ number word.now }
{
    match word {
        [b'0', b'x', digits @ ..] => read_digits(digits, 16),
        _ => read_digits(word, 10),
    }
}

// The number that one or more digits write.
#[tactic(auto, using(crate::proofs::Digits::reading))]
fn read_digits(digits: &[u8], base: u32) -> Option<u32>
    requires low { 2 ≤ base }
    requires high { base ≤ 36 }
    ensures { result ≡ numeral base digits.now }
{
    if digits.is_empty() {
        return None;
    }
    let mut so_far = 0;
    // a loop, whose invariant is one line; of a try_fold the check finds no result
    for c in digits {
        so_far = append_digit(so_far, *c, base)?;
    }
    Some(so_far)
}

// The number with one more digit, if this is a digit and the number stays below 2 ^ 32.
fn append_digit(so_far: u32, c: u8, base: u32) -> Option<u32>
    requires low { 2 ≤ base }
    requires high { base ≤ 36 }
    ensures { SomeIff result ((digit_value c < base) × (so_far * base + digit_value c < 2 ^ 32)) (so_far * base + digit_value c) }
{
    let digit = char::from(c).to_digit(base)?;
    so_far.checked_mul(base)?.checked_add(digit)
}
