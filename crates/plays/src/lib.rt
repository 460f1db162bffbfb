//! Plays of a net of blocks: states, schedules, and the laws of where they end.
//!
//! A net says of each block which moves it makes, and of each channel which ports it joins. A state counts the moves that
//! each block has made; the tokens that wait on a channel follow from these counts. A schedule is a list of block numbers,
//! and its play makes the event of each block in turn where there is one. Each function here has no body but its contract:
//! a law for every net, all schedules and all capacities.
#![tactic(auto)]

ghost use Rattle.plays.specs.Laws.{NeverPassed, OneEnd, SomeEnd, MoreRoom, AlwaysKept, StaysReached, NoStall, EachCounts, TwiceEach, LargerSuffices};

/// The one law: a play under limits that are at most as large never passes a stuck state. No block ever makes more moves
/// than it has made there.
pub fn never_passed()
    ensures { NeverPassed }
{}

/// Two plays that end stuck end in the same state, so where a run ends does not depend on the order of its events.
pub fn one_end()
    ensures { OneEnd }
{}

/// Some play from the start ends stuck, so there is an end to speak of.
pub fn some_end()
    ensures { SomeEnd }
{}

/// More room never hurts: where a play finishes, each play that ends stuck under limits at least as large finishes too.
pub fn more_room()
    ensures { MoreRoom }
{}

/// In each state that a play reaches, no block has made more moves than it has, no more is taken from a channel than was
/// put on it, and none holds more than its limit.
pub fn always_kept()
    ensures { AlwaysKept }
{}

/// What events of a reached state lead to is reached, so what holds of all reached states holds of a run that goes on from
/// one.
pub fn stays_reached()
    ensures { StaysReached }
{}

/// Where each channel has room for its whole stream and channels lead forwards, plays that end stuck finish.
pub fn no_stall()
    ensures { NoStall }
{}

/// Each move is one put on one channel or one take from one channel: a state has made as many moves as tokens were put and
/// taken.
pub fn each_counts()
    ensures { EachCounts }
{}

/// A finished state has made twice as many moves as all streams are long together: each token is put once and taken once.
pub fn twice_each()
    ensures { TwiceEach }
{}

/// A larger limit on all channels suffices where a smaller one does.
pub fn larger_suffices()
    ensures { LargerSuffices }
{}
