//! How the program ends.

ghost use Rattle.std.specs.Prelude.{◌≡◌};
ghost use Rattle.command_inputs.specs.Status.{code_of};

/// How a subcommand ended, which decides the exit status.
#[derive(Clone, Copy, Debug, PartialEq, Eq)]
pub enum Status {
    /// All that was asked for is done.
    Whole,
    /// Reading or decoding a capture stopped at a fault, a payload of it is bad, a hart's closing packet did not come
    /// or there are gaps; or not every log came back complete; or `audit` found that a path is not whole.
    NotWhole,
    /// The arguments, the base, the image, a log, the symbols, the schedule or the capture that was sent is refused.
    Refused,
    /// A file was not read, the output failed, allocation failed, or there was a stop of `replay` or `bench`.
    Machine,
}

impl Status {
    /// The exit status.
    pub fn code(self) -> u8
        ensures { result ≡ code_of self }
    {
        match self {
            Status::Whole => 0,
            Status::NotWhole => 1,
            Status::Refused => 2,
            Status::Machine => 3,
        }
    }
}
