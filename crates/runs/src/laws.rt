//! The laws of runs.
//!
//! Each function has no body but its contract, which speaks of the same answers as that of `run_program`.

ghost use Rattle.runs.specs.Laws.{RunsToOneAnswer, RunsToSomeAnswer, AmpleRoomFinishes, UnlimitedFinishes};
ghost use Rattle.runs.specs.Laws.{SizesToOneAnswer, SufficingIsSized};

/// Whatever is played first, a run under given capacities has one answer.
pub fn runs_to_one_answer()
    ensures { RunsToOneAnswer }
{}

/// Over a list of entries for each tensor of the program, a run has an answer.
pub fn runs_to_some_answer()
    ensures { RunsToSomeAnswer }
{}

/// Where each given capacity is at least as large as its channel's stream is long, a run never stalls.
pub fn ample_room_finishes()
    ensures { AmpleRoomFinishes }
{}

/// Where no capacity is given, a run never stalls.
pub fn unlimited_finishes()
    ensures { UnlimitedFinishes }
{}

/// Of the room that a run needs there is one answer.
pub fn sizes_to_one_answer()
    ensures { SizesToOneAnswer }
{}

/// Where the largest capacity suffices, the answer is the least one.
pub fn sufficing_is_sized()
    ensures { SufficingIsSized }
{}
