//! `Place`, which judges the symbols of a burst one after another.
ghost use Rattle.std.specs.Prelude.{◌≡◌, ◌<◌, ◌↔◌, IsTrue, IsOk, IfOk, List, [], ◌∷◌, ◌++◌, length};
ghost use Rattle.t1s_symbols.specs.Ranges.{IsSymbol};
ghost use Rattle.t1s_symbols.specs.declared.Symbol.{Symbol as Symbols};
ghost use Rattle.t1s_grammar.specs.Burst.{IsBurst, BeginsBurst};
ghost use Rattle.t1s_grammar.specs.Prefixes.{Stands, IsTooLong, whole_pieces, last_lead, last_nibbles};
ghost use Rattle.t1s_grammar.specs.PlaceTable.{start_phase, place_step, pieces_at, lead_at, nibbles_at, ends_burst, phase_in_range, beacon_step, between_step, opened_step, within_step, ended_step};

use std::marker::Model;
use t1s_symbols::Symbol;

/// How many N make a beacon.
const BEACON: u8 = 5;

/// The most J in a row.
pub const MOST_LEAD: u16 = 4096;

/// The fewest J before the H of a piece.
pub const LEAST_LEAD: u16 = 2;

/// The most pieces of a run.
const MOST_PIECES: u16 = 4096;

/// The fewest nibbles of a piece.
const LEAST_NIBBLES: u16 = 9;

/// The most nibbles of a piece.
const MOST_NIBBLES: u16 = 3056;

/// Why a symbol continues no burst.
#[derive(Clone, Copy, Debug, PartialEq, Eq)]
pub enum PlaceFault {
    /// The grammar has no such symbol here.
    NotHere,
    /// The symbol is one too many: the 3057th nibble of a piece, the 4097th J in a row, or the first H of the
    /// 4097th piece after at least two J.
    TooLong,
}

/// Where in a burst the symbols so far end.
#[derive(Clone, Copy, Debug, PartialEq, Eq)]
pub enum Phase {
    /// In a beacon, after so many N.
    Beacon(u8),
    /// After whole pieces, and so many J since. At the start both are 0.
    Between {
        closed: u16,
        lead: u16,
    },
    /// After the first H of a piece.
    Opened {
        closed: u16,
        lead: u16,
    },
    /// After both H of a piece, and so many nibbles since.
    Within {
        closed: u16,
        lead: u16,
        nibbles: u16,
    },
    /// After the T of a piece.
    Ended {
        closed: u16,
        lead: u16,
        nibbles: u16,
    },
}

/// The place in a burst at which its next symbol is judged. It stands for the symbols so far, with which some
/// burst begins, and keeps counts of them alone.
#[derive(Debug, Drop)]
pub struct Place {
    phase: Phase,
}

impl Model for Place {
    ghost use Rattle.std.specs.Prelude.{IsTrue};
    ghost use Rattle.t1s_grammar.specs.declared.place.Phase.{Phase};
    ghost use Rattle.t1s_grammar.specs.PlaceTable.{phase_in_range};

    ghost Value = { Phase };

    ghost view = { λ p. p.phase };

    ghost invariant = { λ p. IsTrue (phase_in_range p.phase) };
}

impl Place {
    /// The place before the first symbol of a burst.
    pub fn start() -> Place
        ensures value { result ≡ start_phase }
        ensures stands { Stands [] result }
    {
        Place {
            phase: Phase::Between { closed: 0, lead: 0 },
        }
    }

    /// Takes the next symbol. It is refused exactly where the symbols with it begin no burst: as `TooLong` where it is
    /// the 3057th nibble of a piece, the 4097th J in a row, or the first H of the 4097th piece after at least two J,
    /// and as `NotHere` in all other cases.
    #[inline(always)]
    pub fn take(self, s: Symbol) -> Result<Place, PlaceFault>
        requires { IsSymbol s }
        ensures step { result ≡ place_step self s }
        ensures stands { (symbols : List Symbols) → Stands symbols self → IfOk result (Stands (symbols ++ s ∷ [])) }
        ensures ok { (symbols : List Symbols) → Stands symbols self
            → IsOk result ↔ (BeginsBurst (symbols ++ s ∷ [])) }
        ensures too_long { (symbols : List Symbols) → Stands symbols self
            → (result ≡ Err PlaceFault.TooLong) ↔ IsTooLong symbols s }
    {
        match next(self.phase, s) {
            Ok(phase) => Ok(Place { phase }),
            Err(fault) => Err(fault),
        }
    }

    /// Whether the symbols so far are a burst.
    pub fn is_burst(&self) -> bool
        ensures value { result ≡ ends_burst self.now }
        ensures burst { (symbols : List Symbols) → Stands symbols self.now → IsTrue result ↔ IsBurst symbols }
    {
        ends_burst(self.phase)
    }

    /// How many pieces are closed so far.
    pub fn pieces(&self) -> u16
        ensures value { result ≡ pieces_at self.now }
        ensures pieces { (symbols : List Symbols) → (h : Stands symbols self.now)
            → result ≡ length (whole_pieces h.beginning) }
    {
        match self.phase {
            Phase::Beacon(_) => 0,
            Phase::Between { closed, .. }
            | Phase::Opened { closed, .. }
            | Phase::Within { closed, .. }
            | Phase::Ended { closed, .. } => closed,
        }
    }

    /// How many J stand after the closed pieces: the lead of the piece that has begun, if one has.
    pub fn lead(&self) -> u16
        ensures value { result ≡ lead_at self.now }
        ensures lead { (symbols : List Symbols) → (h : Stands symbols self.now) → result ≡ last_lead h.beginning }
    {
        match self.phase {
            Phase::Beacon(_) => 0,
            Phase::Between { lead, .. }
            | Phase::Opened { lead, .. }
            | Phase::Within { lead, .. }
            | Phase::Ended { lead, .. } => lead,
        }
    }

    /// How many nibbles the piece that has begun has so far.
    pub fn nibbles(&self) -> u16
        ensures value { result ≡ nibbles_at self.now }
        ensures nibbles { (symbols : List Symbols) → (h : Stands symbols self.now)
            → result ≡ length (last_nibbles h.beginning) }
    {
        match self.phase {
            Phase::Beacon(_) | Phase::Between { .. } | Phase::Opened { .. } => 0,
            Phase::Within { nibbles, .. } | Phase::Ended { nibbles, .. } => nibbles,
        }
    }
}

/// Whether the symbols so far are a burst.
fn ends_burst(phase: Phase) -> bool
    ensures { result ≡ ends_burst phase }
{
    match phase {
        Phase::Beacon(count) => count == BEACON,
        Phase::Between { closed, lead } => 0 < closed || 0 < lead,
        Phase::Opened { .. } | Phase::Within { .. } | Phase::Ended { .. } => false,
    }
}

/// The phase after the next symbol.
fn next(phase: Phase, s: Symbol) -> Result<Phase, PlaceFault>
    requires { IsTrue (phase_in_range phase) }
    ensures step { result ≡ place_step phase s }
    ensures range { IfOk result (λ q. IsTrue (phase_in_range q)) }
{
    match phase {
        Phase::Beacon(count) => in_beacon(count, s),
        Phase::Between { closed, lead } => between(closed, lead, s),
        Phase::Opened { closed, lead } => opened(closed, lead, s),
        Phase::Within {
            closed,
            lead,
            nibbles,
        } => within(closed, lead, nibbles, s),
        Phase::Ended { closed, .. } => ended(closed, s),
    }
}

/// The next symbol after `count` N.
fn in_beacon(count: u8, s: Symbol) -> Result<Phase, PlaceFault>
    ensures { result ≡ beacon_step count s }
{
    match s {
        Symbol::N if count < BEACON => Ok(Phase::Beacon(count + 1)),
        _ => Err(PlaceFault::NotHere),
    }
}

/// The next symbol after pieces and J.
fn between(closed: u16, lead: u16, s: Symbol) -> Result<Phase, PlaceFault>
    ensures { result ≡ between_step closed lead s }
{
    match s {
        Symbol::J if lead < MOST_LEAD => Ok(Phase::Between {
            closed,
            lead: lead + 1,
        }),
        Symbol::J => Err(PlaceFault::TooLong),
        Symbol::H if lead < LEAST_LEAD => Err(PlaceFault::NotHere),
        Symbol::H if closed < MOST_PIECES => Ok(Phase::Opened { closed, lead }),
        Symbol::H => Err(PlaceFault::TooLong),
        Symbol::N if closed == 0 && lead == 0 => Ok(Phase::Beacon(1)),
        _ => Err(PlaceFault::NotHere),
    }
}

/// The next symbol after the first H of a piece.
fn opened(closed: u16, lead: u16, s: Symbol) -> Result<Phase, PlaceFault>
    ensures { result ≡ opened_step closed lead s }
{
    match s {
        Symbol::H => Ok(Phase::Within {
            closed,
            lead,
            nibbles: 0,
        }),
        _ => Err(PlaceFault::NotHere),
    }
}

/// The next symbol after both H of a piece and its nibbles so far.
fn within(closed: u16, lead: u16, nibbles: u16, s: Symbol) -> Result<Phase, PlaceFault>
    ensures { result ≡ within_step closed lead nibbles s }
{
    match s {
        Symbol::Nibble(_) if nibbles < MOST_NIBBLES => Ok(Phase::Within {
            closed,
            lead,
            nibbles: nibbles + 1,
        }),
        Symbol::Nibble(_) => Err(PlaceFault::TooLong),
        Symbol::T if LEAST_NIBBLES <= nibbles => Ok(Phase::Ended {
            closed,
            lead,
            nibbles,
        }),
        _ => Err(PlaceFault::NotHere),
    }
}

/// The next symbol after the T of a piece.
fn ended(closed: u16, s: Symbol) -> Result<Phase, PlaceFault>
    requires { closed < 4096 }
    ensures { result ≡ ended_step closed s }
{
    match s {
        Symbol::R | Symbol::K | Symbol::S => Ok(Phase::Between {
            closed: closed + 1,
            lead: 0,
        }),
        _ => Err(PlaceFault::NotHere),
    }
}
