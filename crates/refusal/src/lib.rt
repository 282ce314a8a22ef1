// The refusals of document 01, "Refusal numbers": why a call was turned away. Every floor above refuses with one of these, so that each
// number is written once. Which call refuses what, and in which order, is said where the call is.
#![tactic(auto)]

ghost use Rattle.std.specs.Prelude.{◌≡◌};
ghost use Rattle.refusal.specs.Numbers.{number_of};

#[derive(Clone, Copy, PartialEq, Eq, Debug)]
pub enum Refusal {
    // Counted places reach the capacity.
    Full = 1,
    // No open report or priming has the id.
    NotOpen = 2,
    // A report is open.
    ReportOpen = 3,
    // The id to be used is live.
    IdLive = 4,
    // An argument outside its range.
    BadArgument = 5,
    // A priming is open.
    PrimingOpen = 6,
    // The state isn't well kept.
    NotWellKept = 7,
    // A line that can't be read.
    BadLine = 8,
}

impl Refusal {
    // Document 01's number of the refusal.
    pub fn number(self) -> u8
        ensures { result ≡ number_of self }
    {
        self as u8
    }
}
