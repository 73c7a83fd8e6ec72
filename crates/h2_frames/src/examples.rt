//! Worked examples of the rules on frames (RFC 9113, sections 3.4, 4.2, 4.3 and 6), as laws.
ghost use Rattle.h2_frames.specs.FrameExamples.{SizesAreJudged, FlagsAreJudged, OrderIsJudged, ContentsLie, ListsAreCut};

/// Every size of which a rule speaks, and those beside it.
pub fn size_examples()
    ensures { SizesAreJudged }
{}

/// Every flag of which a rule speaks, with the sizes that it asks for, and flags without a meaning.
pub fn flag_examples()
    ensures { FlagsAreJudged }
{}

/// First frames, field blocks, streams, server push, and which rule comes first.
pub fn order_examples()
    ensures { OrderIsJudged }
{}

/// Data and fragments with padding and priority fields, and without.
pub fn content_examples()
    ensures { ContentsLie }
{}

/// Four frames with their offsets, and a fault behind them.
pub fn list_examples()
    ensures { ListsAreCut }
{}
