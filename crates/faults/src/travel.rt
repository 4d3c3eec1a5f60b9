// How a fault of a lower layer travels up.
ghost use Rattle.std.specs.Prelude.{◌≡◌};
ghost use Rattle.faults.specs.declared.fault.SheetFault.TheVariants.{Text};
ghost use Rattle.faults.specs.declared.fault.RunFault.TheVariants.{Sheet};

use super::fault::{RunFault, SheetFault, TextFault};

impl From<TextFault> for SheetFault {
    ghost from_gives = { λ e r. r ≡ Text e };

    fn from(fault: TextFault) -> SheetFault {
        SheetFault::Text(fault)
    }
}

impl From<SheetFault> for RunFault {
    ghost from_gives = { λ e r. r ≡ Sheet e };

    fn from(fault: SheetFault) -> RunFault {
        RunFault::Sheet(fault)
    }
}
