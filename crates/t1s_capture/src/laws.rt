//! Laws over captures.

ghost use Rattle.t1s_capture.specs.Captures.{EndsItself, OneReading};
ghost use Rattle.t1s_capture.specs.Cut.{CutsAreCaptures};
ghost use Rattle.t1s_capture.specs.CutRows.{CutsReadWhatIsHeard, RowsAreCutApart, SilenceIsOneGap};

/// No octets are the capture of two item lists, or at two nodes.
pub fn one_reading()
    ensures { OneReading }
{}

/// No capture begins a longer one.
pub fn ends_itself()
    ensures { EndsItself }
{}

/// What is cut from ticks may stand in a capture, and lasts as long as the ticks.
pub fn cuts_are_captures()
    ensures { CutsAreCaptures }
{}

/// Where silence begins or ends, what is before and what is after are cut apart.
pub fn rows_are_cut_apart()
    ensures { RowsAreCutApart }
{}

/// A row of silent ticks is one gap.
pub fn silence_is_one_gap()
    ensures { SilenceIsOneGap }
{}

/// A row of other ticks is read as the longest list of symbols that is heard from its first tick on and begins a burst.
/// It is a burst where these symbols are one and no tick is left over, and else a torn burst.
pub fn cuts_read_what_is_heard()
    ensures { CutsReadWhatIsHeard }
{}
