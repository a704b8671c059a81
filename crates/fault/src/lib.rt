// Faults of a trace: in which layer, for which refusal, at which byte of the file. Each layer has a fault type of its own, which `?` turns into a fault.
#![tactic(auto)]

ghost use Rattle.std.specs.Prelude.{◌≡◌, Some};
ghost use Rattle.fault.specs.Faults.{layer_number, fault_text, of_contents, of_record, of_guest};

use refusal::Refusal;
use std::fmt;

#[derive(Clone, Copy, Debug, PartialEq, Eq)]
pub enum Layer {
    Contents = 1,
    Record = 2,
    Guest = 3,
}

// The number by which it is printed.
impl From<Layer> for u8 {
    ghost from_gives = { λ layer n. n ≡ layer_number layer };

    fn from(layer: Layer) -> u8 {
        layer as u8
    }
}

#[derive(Clone, Copy, Debug, PartialEq, Eq)]
pub struct Fault {
    pub layer: Layer,
    pub cause: Refusal,
    pub place: usize,
}

// `fault layer cause place`.
impl fmt::Display for Fault {
    ghost output = { λ fault. Some (fault_text fault) };

    fn fmt<W: fmt::Write>(&self, f: &mut fmt::Formatter<W>) -> fmt::Result {
        let layer = u8::from(self.layer);
        let cause = u8::from(self.cause);
        write!(f, "fault {layer} {cause} {}", self.place)
    }
}

#[derive(Clone, Copy, Debug, PartialEq, Eq)]
pub enum ContentsFault {
    // the size or the table of contents is wrong, at this byte
    Wrong(usize),
    // the report area is too small
    Area,
}

#[derive(Clone, Copy, Debug, PartialEq, Eq)]
pub enum RecordFault {
    // the record at this byte has an unknown letter or a field out of range
    Field(usize),
    // the event at this byte is earlier than the one before it
    Time(usize),
}

// The setup at this byte was declined.
#[derive(Clone, Copy, Debug, PartialEq, Eq)]
pub struct GuestFault {
    pub refusal: Refusal,
    pub place: usize,
}

impl From<ContentsFault> for Fault {
    ghost from_gives = { λ e r. r ≡ of_contents e };

    fn from(e: ContentsFault) -> Fault {
        let (cause, place) = match e {
            ContentsFault::Wrong(place) => (Refusal::BadContents, place),
            ContentsFault::Area => (Refusal::AreaTooSmall, 0),
        };
        Fault {
            layer: Layer::Contents,
            cause,
            place,
        }
    }
}

impl From<RecordFault> for Fault {
    ghost from_gives = { λ e r. r ≡ of_record e };

    fn from(e: RecordFault) -> Fault {
        let (cause, place) = match e {
            RecordFault::Field(place) => (Refusal::BadField, place),
            RecordFault::Time(place) => (Refusal::TimeFalls, place),
        };
        Fault {
            layer: Layer::Record,
            cause,
            place,
        }
    }
}

impl From<GuestFault> for Fault {
    ghost from_gives = { λ e r. r ≡ of_guest e };

    fn from(e: GuestFault) -> Fault {
        Fault {
            layer: Layer::Guest,
            cause: e.refusal,
            place: e.place,
        }
    }
}
