//! What only some subcommands stop at.

ghost use Rattle.std.specs.Prelude.{◌≡◌, List, ℕ, Some};

use crate::status::Status;
use std::fmt;

/// A reason of a subcommand's own to stop, beside those that any subcommand may have.
pub trait Reason: Drop + fmt::Display {
    ghost use Rattle.command_inputs.specs.declared.status.Status.{Status};

    ghost text: { Self → List ℕ };

    ghost status: { Self → Status };

    /// The status that a subcommand ends with for this reason.
    fn status(&self) -> Status
        ensures { result ≡ status self.now };

    // What is displayed is the text.
    ghost shown: { (why : Self) → Self.output why ≡ Some (text why) };
}
