//! Octets that are taken in one go.
ghost use Rattle.std.specs.Prelude.{◌≡◌, ◌≤◌, ◌<◌, ◌^◌, ◌+◌, false, length, IfOk, IfSome, IsTrue};
ghost use Rattle.t1s_symbols.specs.Ranges.{IsSymbol};
ghost use Rattle.t1s_symbols.specs.declared.Symbol.TheVariants.{Nibble};
ghost use Rattle.t1s_grammar.specs.PlaceTable.{place_step};
ghost use Rattle.t1s_capture.specs.declared.stage.OctetKind.TheVariants.{Known};
ghost use Rattle.t1s_capture.specs.declared.stage.CountSoFar.TheVariants.{Nothing};
ghost use Rattle.t1s_capture.specs.declared.stage.Stage.TheVariants.{InGap, InBurst};
ghost use Rattle.t1s_capture.specs.DecoderTable.{fed, goes, octet_kind, symbol_step, symbol_taken};
ghost use Rattle.t1s_capture.specs.OctetKinds.{OctetKindInRange};
ghost use Rattle.t1s_capture.specs.Ranges.{Fits, FitsSymbol, closes};
ghost use Rattle.t1s_capture.specs.StepAnswers.{IsBeacon, IsSteppedTo, LastFits, StepFits, beacon_ends, counted, decoder_at, last_next, passed_next, step_next};

use crate::format::{GAP, LIMIT};
use crate::held_item::HeldItem;
use crate::items::{Counts, Why};
use crate::progress::{Progress, Step};
use crate::stage::{BurstSoFar, CountSoFar, OctetKind, Stage, count_of, kind_of_octet};
use t1s_grammar::PlaceFault;
use t1s_symbols::Symbol;

/// The octet of N, of which a beacon is made.
const N: u8 = 0x08;

/// The ticks of a beacon.
const BEACON_TICKS: u64 = 20;

/// The symbol that an octet is, where it is no nibble and ends no piece.
#[inline(always)]
fn open_symbol(kind: OctetKind) -> Option<Symbol>
    requires { OctetKindInRange kind }
    ensures kind { IfSome result (λ symbol. kind ≡ Known symbol) }
    ensures open { IfSome result (λ symbol. closes symbol ≡ false) }
    ensures symbol { IfSome result IsSymbol }
{
    match kind {
        OctetKind::Known(Symbol::R | Symbol::K | Symbol::S | Symbol::Nibble(_)) => None,
        OctetKind::Known(symbol) => Some(symbol),
        OctetKind::Gap | OctetKind::End | OctetKind::Torn | OctetKind::Unknown => None,
    }
}

/// The nibble that an octet is, if it is one.
// Nearly all octets of a frame are nibbles, so they are looked up without the other symbols.
#[tactic(auto, unfolding(t1s_symbols::specs::GroupTable::symbol))]
fn nibble_of(octet: u8) -> Option<u8>
    ensures kind { IfSome result (λ n. octet_kind octet ≡ Known (Nibble n)) }
    ensures range { IfSome result (λ n. n < 16) }
{
    match octet {
        0x1E => Some(0x0),
        0x09 => Some(0x1),
        0x14 => Some(0x2),
        0x15 => Some(0x3),
        0x0A => Some(0x4),
        0x0B => Some(0x5),
        0x0E => Some(0x6),
        0x0F => Some(0x7),
        0x12 => Some(0x8),
        0x13 => Some(0x9),
        0x16 => Some(0xA),
        0x17 => Some(0xB),
        0x1A => Some(0xC),
        0x1B => Some(0xD),
        0x1C => Some(0xE),
        0x1D => Some(0xF),
        _ => None,
    }
}

/// Whether a beacon and the first octet of the next gap stand behind the four octets of a gap's count.
fn is_beacon(octets: &[u8]) -> bool
    ensures { IsTrue result → IsBeacon octets.now }
{
    octets.len() >= 10
        && octets[4] == N
        && octets[5] == N
        && octets[6] == N
        && octets[7] == N
        && octets[8] == N
        && octets[9] == GAP
}

impl Progress {
    /// Takes octets one after another, up to the first at which an item is handed out or that is refused, or to the last. It
    /// answers how many were taken, and what the last leads to. That one is counted here, where it isn't refused.
    pub fn run(&mut self, stage: Stage, octets: &[u8]) -> (usize, Step)
        requires fits { Fits self.old stage }
        ensures next { (result.0, last_next result.1 self.new) ≡ fed (decoder_at self.old stage) octets.now }
        ensures fits { LastFits result.1 self.new }
    {
        let mut stage = stage;
        let mut at = 0;
        while at < octets.len() {
            if self.taken == LIMIT {
                return (at + 1, Step::Refuses(Why::TooLong));
            }
            let (last, step) = self.stretch(stage, &octets[at..]);
            at += last + 1;
            match step {
                Step::Goes(next) => {
                    self.taken += 1;
                    stage = next;
                }
                Step::Yields(item, next) => {
                    self.taken += 1;
                    return (at, Step::Yields(item, next));
                }
                Step::Refuses(why) => return (at, Step::Refuses(why)),
            }
        }
        (octets.len(), Step::Goes(stage))
    }

    /// Takes octets one after another: the nibbles of a piece, or the other symbols of a burst, up to the first octet that
    /// leads elsewhere; the count of a gap as a whole, with a beacon that stands alone between it and the next gap; and else
    /// one octet. It answers the place of the last octet that was taken, and what it leads to. That one is not counted here.
    fn stretch(&mut self, stage: Stage, octets: &[u8]) -> (usize, Step)
        requires some { 1 ≤ length octets.now }
        requires below { self.old.taken < 2 ^ 30 }
        requires fits { Fits self.old stage }
        ensures within { result.0 < length octets.now }
        ensures next { IsSteppedTo (decoder_at self.old stage) octets.now result.0 (step_next result.1 self.new) }
        ensures fits { StepFits result.1 self.new }
        ensures below { self.new.taken < 2 ^ 30 }
    {
        match stage {
            Stage::InBurst(burst) if burst.place.nibbles() != 0 => self.nibbles(burst, octets),
            Stage::InBurst(burst) => self.symbols(burst, octets),
            Stage::InGap(CountSoFar::Nothing) => self.gap(octets),
            other => (0, self.step(other, octets[0])),
        }
    }

    /// The same where a gap has begun: all octets of its count, if they are there, and else one. Where a beacon and the next
    /// gap follow, they are taken up to the first octet of that gap.
    fn gap(&mut self, octets: &[u8]) -> (usize, Step)
        requires some { 1 ≤ length octets.now }
        requires below { self.old.taken < 2 ^ 30 }
        requires fits { Fits self.old (InGap Nothing) }
        ensures within { result.0 < length octets.now }
        ensures next { IsSteppedTo (decoder_at self.old (InGap Nothing)) octets.now result.0 (step_next result.1 self.new) }
        ensures fits { StepFits result.1 self.new }
        ensures below { self.new.taken < 2 ^ 30 }
    {
        if octets.len() < 4 || LIMIT - self.taken < 4 {
            return (0, self.in_gap(CountSoFar::Nothing, octets[0]));
        }
        let ticks = count_of(octets[0], octets[1], octets[2], octets[3]);
        if ticks != 0 && LIMIT - self.taken >= 10 && is_beacon(octets) {
            return (9, self.beacon(ticks));
        }
        self.taken += 3;
        (3, self.gap_ends(ticks))
    }

    /// What a gap of so many ticks, a beacon and the first octet of the next gap lead to. That octet is not counted here.
    fn beacon(&mut self, ticks: u32) -> Step
        requires below { self.old.taken + 10 ≤ 2 ^ 30 }
        requires fits { Fits self.old (InGap Nothing) }
        ensures next { step_next result self.new ≡ beacon_ends self.old ticks }
        ensures fits { StepFits result self.new }
        ensures below { self.new.taken < 2 ^ 30 }
    {
        let start = self.counts.ticks + ticks as u64;
        self.taken += 9;
        self.counts = Counts {
            ticks: start + BEACON_TICKS,
            beacons: self.counts.beacons + 1,
            ..self.counts
        };
        Step::Yields(
            HeldItem::Beacon { start },
            Stage::InGap(CountSoFar::Nothing),
        )
    }

    /// The same within a burst, before the nibbles of a piece and after them. No octet past the most that a capture may have is
    /// taken.
    fn symbols(&mut self, burst: BurstSoFar, octets: &[u8]) -> (usize, Step)
        requires some { 1 ≤ length octets.now }
        requires below { self.old.taken < 2 ^ 30 }
        requires fits { Fits self.old (InBurst burst) }
        ensures within { result.0 < length octets.now }
        ensures next { IsSteppedTo (decoder_at self.old (InBurst burst)) octets.now result.0 (step_next result.1 self.new) }
        ensures fits { StepFits result.1 self.new }
        ensures below { self.new.taken < 2 ^ 30 }
    {
        let last = octets.len().min((LIMIT - self.taken) as usize) - 1;
        let mut burst = burst;
        for place in 0..last {
            let kind = kind_of_octet(octets[place]);
            match open_symbol(kind) {
                Some(symbol) => match self.passes(burst, symbol) {
                    Ok(next) => {
                        self.taken += 1;
                        burst = next;
                    }
                    Err(why) => return (place, Step::Refuses(why)),
                },
                None => return (place, self.in_burst(burst, kind)),
            }
        }
        (last, self.in_burst(burst, kind_of_octet(octets[last])))
    }

    /// The same within a burst, after a nibble of a piece.
    fn nibbles(&mut self, burst: BurstSoFar, octets: &[u8]) -> (usize, Step)
        requires some { 1 ≤ length octets.now }
        requires below { self.old.taken < 2 ^ 30 }
        requires fits { Fits self.old (InBurst burst) }
        ensures within { result.0 < length octets.now }
        ensures next { IsSteppedTo (decoder_at self.old (InBurst burst)) octets.now result.0 (step_next result.1 self.new) }
        ensures fits { StepFits result.1 self.new }
        ensures below { self.new.taken < 2 ^ 30 }
    {
        let last = octets.len().min((LIMIT - self.taken) as usize) - 1;
        let mut burst = burst;
        for place in 0..last {
            match nibble_of(octets[place]) {
                Some(nibble) => match self.passes(burst, Symbol::Nibble(nibble)) {
                    Ok(next) => {
                        self.taken += 1;
                        burst = next;
                    }
                    Err(why) => return (place, Step::Refuses(why)),
                },
                None => return (place, self.in_burst(burst, kind_of_octet(octets[place]))),
            }
        }
        (last, self.in_burst(burst, kind_of_octet(octets[last])))
    }

    /// What a symbol that ends no piece leads to: the symbols with it, or a refusal.
    #[inline(always)]
    fn passes(&mut self, burst: BurstSoFar, symbol: Symbol) -> Result<BurstSoFar, Why>
        requires below { self.old.taken < 2 ^ 30 }
        requires fits { Fits self.old (InBurst burst) }
        requires symbol { IsSymbol symbol }
        requires open { closes symbol ≡ false }
        ensures next { passed_next result self.new ≡ symbol_step self.old burst symbol (place_step burst.place symbol) }
        ensures fits { IfOk result (λ b. Fits (counted self.new) (InBurst b)) }
        ensures taken { self.new.taken ≡ self.old.taken }
    {
        let groups = burst.place.nibbles();
        let BurstSoFar {
            place,
            symbols,
            closed,
            after_gap,
        } = burst;
        match place.take(symbol) {
            Ok(place) => {
                let burst = BurstSoFar {
                    place,
                    symbols: symbols + 1,
                    closed,
                    after_gap,
                };
                Ok(self.passed(symbol, groups, burst))
            }
            Err(PlaceFault::TooLong) => Err(Why::BurstLong),
            Err(PlaceFault::NotHere) => Err(Why::Place),
        }
    }

    /// A symbol that ends no piece and may stand here, with which the symbols are these. The piece that is begun had so
    /// many groups before it.
    #[inline(always)]
    pub fn passed(&mut self, symbol: Symbol, groups: u16, burst: BurstSoFar) -> BurstSoFar
        requires fits { FitsSymbol self.old symbol groups burst }
        requires symbol { IsSymbol symbol }
        requires open { closes symbol ≡ false }
        ensures same { result ≡ burst }
        ensures next { goes self.new (InBurst burst) ≡ symbol_taken self.old 0 groups symbol burst }
        ensures fits { Fits (counted self.new) (InBurst burst) }
        ensures taken { self.new.taken ≡ self.old.taken }
    {
        if let Symbol::Nibble(_) = symbol {
            self.reader.take(groups, symbol);
        }
        burst
    }
}
