//! The laws of plays, for graphs over stored tensors.
//!
//! Each function has no body but its contract, which speaks of the same states as the clauses of the machine's calls.

ghost use Rattle.stepper.specs.Laws.{GraphsAreWired, AlwaysPartWay, QueuesArePart, OneStuckState, MoreRoomNeverHurts, RoomSuffices, MoveCount, AllIsSent};

/// A well formed graph that the stored tensors fit is a net to which every law of plays applies.
pub fn graphs_are_wired()
    ensures { GraphsAreWired }
{}

/// At every moment, what was put on a channel is a beginning of its whole stream, no more was taken, and no channel holds
/// more than its capacity.
pub fn always_part_way()
    ensures { AlwaysPartWay }
{}

/// What waits on a channel is the part of its whole stream from the number taken up to the number put.
pub fn queues_are_part()
    ensures { QueuesArePart }
{}

/// Whatever the schedule, plays that end stuck end in one state, and there is such a play.
pub fn one_end()
    ensures { OneStuckState }
{}

/// Where a play finishes, no play stalls under capacities that are each at least as large.
pub fn more_room_never_hurts()
    ensures { MoreRoomNeverHurts }
{}

/// Where each capacity is at least as large as its channel's stream is long, no play stalls.
pub fn room_suffices()
    ensures { RoomSuffices }
{}

/// A finished state has made twice as many moves as all whole streams are long together.
pub fn move_count()
    ensures { MoveCount }
{}

/// Once every block is finished, each channel's whole stream was put on it.
pub fn all_is_sent()
    ensures { AllIsSent }
{}
