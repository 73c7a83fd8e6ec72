//! What the bytes of a frame that have come say of a rule.

ghost use Rattle.std.specs.Prelude.{◌≡◌};
ghost use Rattle.h2_frames.specs.FrameErrors.{keeps_if as keeps, breaks_if as breaks, of_all as all_or_none, first_broken as first};
ghost use Rattle.h2_frames.specs.FrameWords.{verdict_of, judgement_of};

/// A rule, as far as the bytes that have come decide it.
#[derive(Clone, Copy)]
pub(crate) enum Verdict {
    /// The bytes may go on so that it is kept, and so that it is broken.
    Undecided,
    /// All frames that begin so keep it.
    Keeps,
    /// All frames that begin so break it.
    Breaks,
}

/// All rules, in order.
#[derive(Clone, Copy)]
pub(crate) enum Judgement {
    /// A rule is not decided, and those before it are kept.
    Open,
    /// All rules are kept.
    Fine,
    /// The code of the first rule that is broken.
    Fault(u32),
}

/// Kept where a test holds, else broken.
pub(crate) fn keeps_if(holds: bool) -> Verdict
    ensures { verdict_of result ≡ keeps holds }
{
    if holds {
        Verdict::Keeps
    } else {
        Verdict::Breaks
    }
}

/// Broken where a test holds, else kept.
pub(crate) fn breaks_if(broken: bool) -> Verdict
    ensures { verdict_of result ≡ breaks broken }
{
    if broken {
        Verdict::Breaks
    } else {
        Verdict::Keeps
    }
}

/// A rule on a number of which some bytes have not come: whether all numbers in reach keep it,
/// and whether none does.
pub(crate) fn of_all(all: bool, none: bool) -> Verdict
    ensures { verdict_of result ≡ all_or_none all none }
{
    if all {
        Verdict::Keeps
    } else if none {
        Verdict::Breaks
    } else {
        Verdict::Undecided
    }
}

/// What a rule and those behind it say.
pub(crate) fn first_broken(verdict: Verdict, code: u32, rest: Judgement) -> Judgement
    ensures { judgement_of result ≡ first (verdict_of verdict) code (judgement_of rest) }
{
    match verdict {
        Verdict::Undecided => Judgement::Open,
        Verdict::Breaks => Judgement::Fault(code),
        Verdict::Keeps => rest,
    }
}
