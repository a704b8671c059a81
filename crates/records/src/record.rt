// Records: parts of the file, of 8 bytes each.
ghost use Rattle.std.specs.Prelude.{◌≡◌, ℕ, false, cond, ◌&&◌, List, Some, None, Option};
ghost use Rattle.std.proofs.Common.{ap};
ghost use Rattle.records.specs.Records.{whole, kind_of, flag_of, setup_of, event_of, setup_fields, setup_in, event_in};

use crate::letters::call_of;
use crate::little_endian::{u16_at, u32_at};
use guest::call::Call;
use interrupt::kind::Kind;

#[derive(Clone, Copy)]
pub struct Setup {
    pub number: u16,
    pub kind: Kind,
    pub priority: u8,
    pub enabled: bool,
}

#[derive(Clone, Copy)]
pub struct Event {
    pub time: u32,
    pub call: Call,
}

// A part of the file, and where it lies there.
#[derive(Clone, Copy)]
pub struct Record<'a> {
    pub bytes: &'a [u8],
    pub offset: usize,
}

// What a record can hold.
pub trait FromRecord {
    // what a record of these bytes holds
    ghost held: { List ℕ → Option Self };

    // What is in the record, or none where it is not whole or a field is not as it should be.
    fn from_record(source: &Record) -> Option<Self>
        ensures { result ≡ held source.now.bytes.now };

    // a record that is not whole holds nothing
    ghost cut: { (bytes : List ℕ) → whole bytes ≡ false → held bytes ≡ None };
}

impl FromRecord for Setup {
    ghost held = { setup_of };

    ghost cut = { λ r e. ap (λ w. cond (w && setup_fields r) (Some (setup_in r)) None) e };

    fn from_record(source: &Record) -> Option<Setup> {
        let [_, _, kind, priority, enabled, 0, 0, 0] = source.bytes else {
            return None;
        };
        Some(Setup {
            number: u16_at(source.bytes, 0),
            kind: kind_of(*kind)?,
            priority: *priority,
            enabled: flag_of(*enabled)?,
        })
    }
}

impl FromRecord for Event {
    ghost held = { event_of };

    ghost cut = { λ r e. ap (λ w. cond w (event_in r) None) e };

    fn from_record(source: &Record) -> Option<Event> {
        let [_, _, _, _, letter, aux, _, _] = source.bytes else {
            return None;
        };
        Some(Event {
            time: u32_at(source.bytes, 0),
            call: call_of(*letter, *aux, u16_at(source.bytes, 6))?,
        })
    }
}

// Functions, and no TryFrom: the types are of other crates.

fn kind_of(letter: u8) -> Option<Kind>
    ensures { result ≡ kind_of letter }
{
    match char::from(letter) {
        'e' => Some(Kind::Edge),
        'l' => Some(Kind::Level),
        _ => None,
    }
}

fn flag_of(value: u8) -> Option<bool>
    ensures { result ≡ flag_of value }
{
    (value < 2).then_some(value == 1)
}
