//! The row of ticks that a writer is in: a gap, or a burst that it reads.
ghost use Rattle.std.specs.Prelude.{◌≡◌, ◌≤◌, ◌+◌, ◌<◌, [], ◌∷◌, ℕ, IfSome};
ghost use Rattle.t1s_base.specs.Limits.{most_ticks};
ghost use Rattle.t1s_symbols.specs.Ranges.{IsSymbol, IsQuarter};
ghost use Rattle.t1s_grammar.specs.PlaceTable.{place_step};
ghost use Rattle.t1s_capture.specs.Captures.{count_octets};
ghost use Rattle.t1s_capture.specs.WriterTable.{reading_step, quarter_step, symbol_ends, ticks_begun, nothing_read, reading_end, row_end, row_from, sound_step, quiet_ticks, RowFits};

use crate::format::{GAP, TORN};
use crate::octets::Octets;
use t1s_grammar::Place;
use t1s_symbols::{Quarter, QuarterReading, Symbol, group_of};

/// The ticks of a symbol.
const SYMBOL_TICKS: u32 = 4;

/// A burst as it is read.
#[derive(Drop)]
pub struct ReadingSoFar {
    /// The place in the grammar after the symbols so far.
    pub place: Place,
    /// The last quarter of the symbol that has begun.
    pub last: Option<Quarter>,
}

/// A row of ticks so far.
#[derive(Drop)]
pub enum RowSoFar {
    /// No tick yet.
    Empty,
    /// So many silent ticks.
    Silent(u32),
    /// A burst whose reading goes on.
    Reading(ReadingSoFar),
    /// A burst whose reading has ended, with so many ticks after its symbols.
    Torn(u32),
}

/// The ticks of the symbol that has begun.
fn ticks_begun(last: Option<Quarter>) -> u32
    ensures value { result ≡ ticks_begun last }
    ensures range { result ≤ 256 }
{
    match last {
        None => 0,
        Some(quarter) => quarter.part as u32 + 1,
    }
}

impl ReadingSoFar {
    /// Nothing is read yet.
    fn start() -> ReadingSoFar
        ensures { result ≡ nothing_read }
    {
        ReadingSoFar {
            place: Place::start(),
            last: None,
        }
    }

    /// A tick with this quarter, or with none that can be read.
    fn hears(self, quarter: Option<Quarter>) -> (RowSoFar, Octets)
        requires { IfSome quarter IsQuarter }
        ensures step { result ≡ reading_step self quarter }
        ensures fits { (ticks : ℕ) → RowFits ticks result.0 }
    {
        match quarter {
            Some(quarter) => self.hears_quarter(quarter),
            None => (RowSoFar::Torn(ticks_begun(self.last) + 1), Octets::new()),
        }
    }

    fn hears_quarter(self, quarter: Quarter) -> (RowSoFar, Octets)
        requires { IsQuarter quarter }
        ensures step { result ≡ quarter_step self quarter }
        ensures fits { (ticks : ℕ) → RowFits ticks result.0 }
    {
        let ReadingSoFar { place, last } = self;
        match quarter.reading(last) {
            QuarterReading::Broken => (RowSoFar::Torn(ticks_begun(last) + 1), Octets::new()),
            QuarterReading::Complete => symbol_ends(place, quarter.sym),
            QuarterReading::Partial => {
                let reading = ReadingSoFar {
                    place,
                    last: Some(quarter),
                };
                (RowSoFar::Reading(reading), Octets::new())
            }
        }
    }

    /// What the end of the row gives out.
    fn end(&self) -> Octets
        ensures { result ≡ reading_end self.now }
    {
        let blur = ticks_begun(self.last);
        if blur == 0 && self.place.is_burst() {
            return Octets::new();
        }
        Octets::counted(TORN, blur)
    }
}

/// A symbol is complete, which may stand there or not.
fn symbol_ends(place: Place, symbol: Symbol) -> (RowSoFar, Octets)
    requires { IsSymbol symbol }
    ensures step { result ≡ symbol_ends symbol (place_step place symbol) }
    ensures fits { (ticks : ℕ) → RowFits ticks result.0 }
{
    match place.take(symbol) {
        Ok(place) => (
            RowSoFar::Reading(ReadingSoFar { place, last: None }),
            Octets::one(group_of(symbol)),
        ),
        Err(_) => (RowSoFar::Torn(SYMBOL_TICKS), Octets::new()),
    }
}

impl RowSoFar {
    /// What the end of the row gives out.
    pub fn end(&self) -> Octets
        ensures { result ≡ row_end self.now }
    {
        match self {
            RowSoFar::Empty => Octets::new(),
            RowSoFar::Silent(ticks) => Octets::counted(GAP, *ticks),
            RowSoFar::Reading(reading) => reading.end(),
            RowSoFar::Torn(blur) => Octets::counted(TORN, *blur),
        }
    }

    /// So many silent ticks, one after another: the first ends a burst, and the others only count.
    pub fn hears_silence(self, ticks: u32) -> (RowSoFar, Octets)
        requires some { 1 ≤ ticks }
        requires few { ticks ≤ most_ticks }
        requires row_fits { RowFits most_ticks self }
        ensures step { result ≡ row_from (self, []) (quiet_ticks ticks) }
        ensures fits { (before : ℕ) → RowFits before self → RowFits (before + ticks) result.0 }
    {
        match self {
            RowSoFar::Empty => (RowSoFar::Silent(ticks), Octets::new()),
            RowSoFar::Silent(before) => (RowSoFar::Silent(before + ticks), Octets::new()),
            RowSoFar::Reading(reading) => (RowSoFar::Silent(ticks), reading.end()),
            RowSoFar::Torn(blur) => (RowSoFar::Silent(ticks), Octets::counted(TORN, blur)),
        }
    }

    /// A tick with this quarter, or with something that cannot be read.
    pub fn hears_sound(self, quarter: Option<Quarter>) -> (RowSoFar, Octets)
        requires range { IfSome quarter IsQuarter }
        requires fits { RowFits most_ticks self }
        ensures step { result ≡ sound_step self quarter }
        ensures fits { (ticks : ℕ) → RowFits ticks self → RowFits (ticks + 1) result.0 }
    {
        match self {
            RowSoFar::Empty => ReadingSoFar::start().hears(quarter),
            RowSoFar::Silent(ticks) => {
                let (row, _) = ReadingSoFar::start().hears(quarter);
                (row, Octets::counted(GAP, ticks))
            }
            RowSoFar::Reading(reading) => reading.hears(quarter),
            RowSoFar::Torn(blur) => (RowSoFar::Torn(blur + 1), Octets::new()),
        }
    }
}
