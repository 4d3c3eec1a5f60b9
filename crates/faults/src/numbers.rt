// The three numbers of each fault.
ghost use Rattle.std.specs.Prelude.{◌≡◌};
ghost use Rattle.faults.specs.Refusals.{text_refusal, sheet_refusal, run_refusal, engine_refusal};

use super::fault::{EngineFault, Refusal, RunFault, SheetFault, TextFault};

// The most bytes of a text, and the words of a table.
const TEXT_BYTES: usize = 16_384;

const WORDS: usize = 2668;

impl From<TextFault> for Refusal {
    ghost from_gives = { λ e r. r ≡ text_refusal e };

    fn from(fault: TextFault) -> Refusal {
        let (number, place) = match fault {
            TextFault::TooLong => (1, TEXT_BYTES),
            TextFault::Misplaced(at) => (2, at),
            TextFault::Beyond(at) => (3, at),
            TextFault::Cut(at) => (4, at),
        };
        Refusal {
            layer: 1,
            number,
            place,
        }
    }
}

impl From<SheetFault> for Refusal {
    ghost from_gives = { λ e r. r ≡ sheet_refusal e };

    fn from(fault: SheetFault) -> Refusal {
        let (number, place) = match fault {
            SheetFault::Text(fault) => return Refusal::from(fault),
            SheetFault::Unknown(at) => (5, at),
            SheetFault::Repeated(at) => (6, at),
            SheetFault::Count(at) => (7, at),
            SheetFault::NoRoom(at) => (8, at),
        };
        Refusal {
            layer: 2,
            number,
            place,
        }
    }
}

impl From<RunFault> for Refusal {
    ghost from_gives = { λ e r. r ≡ run_refusal e };

    fn from(fault: RunFault) -> Refusal {
        let (number, place) = match fault {
            RunFault::Sheet(fault) => return Refusal::from(fault),
            RunFault::TableLength => (11, WORDS),
            RunFault::Layout(word) => (12, word),
        };
        Refusal {
            layer: 3,
            number,
            place,
        }
    }
}

impl From<EngineFault> for Refusal {
    ghost from_gives = { λ e r. r ≡ engine_refusal e };

    fn from(fault: EngineFault) -> Refusal {
        let (number, place) = match fault {
            EngineFault::Variables(total) => (13, total),
            EngineFault::Full(room) => (14, room),
            EngineFault::Term(index) => (15, index),
            EngineFault::Rule(index) => (16, index),
            EngineFault::NoQuestion => (17, 0),
        };
        Refusal {
            layer: 4,
            number,
            place,
        }
    }
}
