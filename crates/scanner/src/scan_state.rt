//! How far a scanner has come.

ghost use Rattle.std.specs.Prelude.{◌≡◌};
ghost use Rattle.scanner.specs.Outputs.{output_port};

use stream_tokens::Token;

/// The outputs of a scanner.
#[derive(Clone, Copy)]
pub enum Output {
    Coordinates,
    References,
}

impl Output {
    #[inline]
    pub fn port(self) -> u32
        ensures { result ≡ output_port self }
    {
        match self {
            Output::Coordinates => 0,
            Output::References => 1,
        }
    }
}

/// How far a scanner has come. What is put is put on the coordinates first, then on the references.
#[derive(Clone, Copy)]
pub enum ScanState {
    /// The next reference is wanted. The flag says whether one was taken since the last stop, whose fiber is then not
    /// ended yet.
    Wanting(bool),
    /// That fiber is ended, before what this token calls for.
    Parting(Output, Token),
    /// A child is put: the reference of its parent, and its number among the children there.
    Child(Output, u64, u64),
    /// This stop or the end is put.
    Closing(Output, Token),
    Ended,
}
