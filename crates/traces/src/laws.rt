//! A law of what is sent.

ghost use Rattle.traces.specs.Laws.{MomentsAreBeginnings};

/// What was sent on each channel when a schedule ends is a beginning of the channel's whole stream.
pub fn moments_are_beginnings()
    ensures { MomentsAreBeginnings }
{}
