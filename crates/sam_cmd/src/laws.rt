//! The laws of commands.
//!
//! A function here has no body but its contract, which speaks of the same parts as that of `sam`.

ghost use Rattle.sam_cmd.specs.Laws.{StepDenotes, RunDenotes, StepCompletes, RunCompletes};
ghost use Rattle.sam_cmd.specs.Laws.{SizeCompletes, VerifyCompletes, PlainGraphsAreVerified};

/// Whatever `step` answers is the text of the tensor that the last statement denotes, each over the results of those before it.
pub fn step_denotes()
    ensures { StepDenotes }
{}

/// So is whatever `run` answers.
pub fn run_denotes()
    ensures { RunDenotes }
{}

/// Where the files that `step` reads are there and accepted, its options name channels that are there, no result is too large, none that
/// is passed on has too many positions, and each given capacity is at least as large as its channel's stream is long, the answer that is
/// due is the tensor that the last statement denotes.
pub fn step_completes()
    ensures { StepCompletes }
{}

/// Where the files that `run` reads are there and accepted, no result is too large, none that is passed on has too many positions, and no
/// graph has more than 256 blocks, the answer that is due is the tensor that the last statement denotes. That says nothing of whether
/// the run ends.
pub fn run_completes()
    ensures { RunCompletes }
{}

/// Where the files that `size` reads are there and accepted, and the largest capacity suffices, the answer that is due is the
/// least capacity.
pub fn size_completes()
    ensures { SizeCompletes }
{}

/// Where the files that `verify` reads are there, the program is accepted and the graph is verified, that is the answer that is due.
pub fn verify_completes()
    ensures { VerifyCompletes }
{}

/// The graph that an accepted program is lowered to is verified.
pub fn plain_graphs_are_verified()
    ensures { PlainGraphsAreVerified }
{}
