//! Where a scan for the end of a part stands (RFC 9112, sections 2.1, 2.2 and 7.1).
ghost use Rattle.std.specs.Prelude.{◌≡◌};
ghost use Rattle.http1_front.specs.PlaceSteps.{IsAfter, first_place, line_step, place_behind_feed, place_behind_other, place_behind_return};

use crate::part::Part;

/// Behind which bytes a scan stands.
#[derive(Debug, Clone, Copy, PartialEq, Eq)]
pub(crate) enum Place {
    /// Before a head, at the start of a line.
    Blank,
    /// Before a head, behind a CR that may be an empty line's.
    BlankReturn,
    /// Inside a line of a head or of a section.
    InLine,
    /// Behind a line feed of a head or of a section.
    LineFeed,
    /// Behind a line feed of a head or of a section, and a CR.
    LineFeedReturn,
    /// At the start of a section.
    SectionStart,
    /// Behind a CR at the start of a section.
    SectionReturn,
    /// Inside a chunk size line.
    InSizeLine,
}

impl Place {
    /// The place at the start of a part.
    pub(crate) fn first(part: Part) -> Place
        ensures { result ≡ first_place part }
    {
        match part {
            Part::Head => Place::Blank,
            Part::SizeLine => Place::InSizeLine,
            Part::Trailers => Place::SectionStart,
        }
    }

    /// The place behind one more byte; none where the part ends with it.
    pub(crate) fn after(self, byte: u8) -> Option<Place>
        ensures { IsAfter self byte result }
    {
        match byte {
            b'\n' => self.behind_feed(),
            b'\r' => Some(self.behind_return()),
            _ => Some(self.behind_other()),
        }
    }

    /// How many lines that count one more byte ends.
    pub(crate) fn line_step(self, byte: u8) -> u32
        ensures { result ≡ line_step self byte }
    {
        if byte != b'\n' {
            return 0;
        }
        match self {
            Place::Blank => 0,
            Place::BlankReturn => 0,
            _ => 1,
        }
    }

    /// The place behind a line feed; none where the part ends with it.
    fn behind_feed(self) -> Option<Place>
        ensures { result ≡ place_behind_feed self }
    {
        match self {
            Place::Blank => Some(Place::Blank),
            Place::BlankReturn => Some(Place::Blank),
            Place::InLine => Some(Place::LineFeed),
            Place::LineFeed => None,
            Place::LineFeedReturn => None,
            Place::SectionStart => None,
            Place::SectionReturn => None,
            Place::InSizeLine => None,
        }
    }

    /// The place behind a CR.
    fn behind_return(self) -> Place
        ensures { result ≡ place_behind_return self }
    {
        match self {
            Place::Blank => Place::BlankReturn,
            Place::LineFeed => Place::LineFeedReturn,
            Place::SectionStart => Place::SectionReturn,
            Place::InSizeLine => Place::InSizeLine,
            Place::BlankReturn => Place::InLine,
            Place::InLine => Place::InLine,
            Place::LineFeedReturn => Place::InLine,
            Place::SectionReturn => Place::InLine,
        }
    }

    /// The place behind any other byte.
    fn behind_other(self) -> Place
        ensures { result ≡ place_behind_other self }
    {
        match self {
            Place::InSizeLine => Place::InSizeLine,
            _ => Place::InLine,
        }
    }
}
