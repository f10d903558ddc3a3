//! What a decoder keeps beside its stage, and what an octet does to it at each stage. It is changed in place.
ghost use Rattle.std.specs.Prelude.{◌≡◌, ℕ, ◌+◌, ◌*◌, ◌^◌, ◌≤◌, ◌<◌, IsTrue, List, length};
ghost use Rattle.t1s_symbols.specs.Ranges.{IsSymbol};
ghost use Rattle.t1s_symbols.specs.declared.Symbol.TheVariants.{Nibble};
ghost use Rattle.t1s_grammar.specs.PlaceTable.{ends_burst, place_step};
ghost use Rattle.t1s_pcs_rx.specs.Views.{closer_symbol};
ghost use Rattle.t1s_capture.specs.declared.stage.CountSoFar.TheVariants.{Three};
ghost use Rattle.t1s_capture.specs.declared.stage.Stage.TheVariants.{Magic, InGap, InBurst, InBlur, AfterTorn};
ghost use Rattle.t1s_capture.specs.DecoderTable.{goes, magic_step, gap_step, gap_ends, blur_step, blur_ends, counting, burst_ends, gap_here, end_here, torn_here, symbol_taken, symbol_step, piece_ends, burst_step_by, torn_step_by, stage_step, with_ticks, with_torn, with_piece, with_whole, whole_item};
ghost use Rattle.t1s_capture.specs.Ranges.{Fits, FitsSymbol, StageInRange, octets_begun, octets_counted, nibbles_held};
ghost use Rattle.t1s_capture.specs.HeldItems.{held_item};
ghost use Rattle.t1s_capture.specs.StepAnswers.{counted, step_next, StepFits};
ghost use Rattle.t1s_capture.specs.OctetKinds.{OctetKindInRange};

use crate::format::VERSION;
use crate::held_item::{HeldItem, HeldPiece};
use crate::items::{Counts, Why};
use crate::stage::{
    BlurSoFar, BurstSoFar, CountSoFar, OctetKind, Stage, count_of, kind_of_octet, magic_octet,
};
use t1s_base::MOST_NODES;
use t1s_grammar::PlaceFault;
use t1s_pcs_rx::{Closer, Kind, PieceReader};
use t1s_symbols::Symbol;

/// The ticks of a symbol.
const SYMBOL_TICKS: u64 = 4;

/// What an octet leads to.
#[derive(Drop)]
pub enum Step {
    /// This stage.
    Goes(Stage),
    /// An item, which is held until the decoder goes on at this stage.
    Yields(HeldItem, Stage),
    /// A refusal.
    Refuses(Why),
}

/// What a decoder keeps beside its stage.
#[derive(Drop)]
pub struct Progress {
    pub taken: u64,
    pub counts: Counts,
    pub reader: PieceReader,
}

impl Counts {
    fn with_ticks(self, ticks: u64) -> Counts
        requires { self.ticks + ticks < 2 ^ 64 }
        ensures { result ≡ with_ticks self ticks }
    {
        Counts {
            ticks: self.ticks + ticks,
            ..self
        }
    }

    fn with_torn(self) -> Counts
        requires { self.torn + 1 < 2 ^ 64 }
        ensures { result ≡ with_torn self }
    {
        Counts {
            torn: self.torn + 1,
            ..self
        }
    }

    fn with_piece(self, good: bool) -> Counts
        requires pieces { self.pieces + 1 < 2 ^ 64 }
        requires good { self.good + 1 < 2 ^ 64 }
        ensures { result ≡ with_piece self good }
    {
        Counts {
            pieces: self.pieces + 1,
            good: self.good + good as u64,
            ..self
        }
    }

    /// The counts with a burst of so many pieces and so many J after them.
    fn with_whole(self, pieces: u16, lead: u16) -> Counts
        requires beacons { self.beacons + 1 < 2 ^ 64 }
        requires runs { self.runs + 1 < 2 ^ 64 }
        requires bare { self.bare + 1 < 2 ^ 64 }
        ensures { result ≡ with_whole pieces lead self }
    {
        if pieces != 0 {
            Counts {
                runs: self.runs + 1,
                ..self
            }
        } else if lead != 0 {
            Counts {
                bare: self.bare + 1,
                ..self
            }
        } else {
            Counts {
                beacons: self.beacons + 1,
                ..self
            }
        }
    }
}

/// The item of a whole burst of so many pieces and so many J after them.
fn whole_item(pieces: u16, lead: u16, start: u64, end: u64) -> HeldItem
    ensures { (heard : List ℕ) → held_item result heard ≡ whole_item pieces lead start end }
{
    if pieces != 0 {
        HeldItem::Run {
            start,
            end,
            pieces: pieces as u64,
        }
    } else if lead != 0 {
        HeldItem::Bare { start, end }
    } else {
        HeldItem::Beacon { start }
    }
}

impl Progress {
    /// A stage that the octet leads to.
    fn goes(&self, stage: Stage) -> Step
        requires { Fits (counted self.now) stage }
        ensures next { step_next result self.now ≡ goes self.now stage }
        ensures fits { StepFits result self.now }
    {
        Step::Goes(stage)
    }

    /// What an octet does at a stage. It is not counted here.
    pub fn step(&mut self, stage: Stage, octet: u8) -> Step
        requires below { self.old.taken < 2 ^ 30 }
        requires fits { Fits self.old stage }
        ensures next { step_next result self.new ≡ stage_step stage self.old octet }
        ensures fits { StepFits result self.new }
        ensures taken { self.new.taken ≡ self.old.taken }
    {
        match stage {
            Stage::Magic(taken) => self.in_magic(taken, octet),
            Stage::Version if octet == VERSION => self.goes(Stage::Node),
            Stage::Version => Step::Refuses(Why::Version),
            Stage::Node if octet < MOST_NODES => self.goes(Stage::InBurst(BurstSoFar::none(false))),
            Stage::Node => Step::Refuses(Why::NodeByte),
            Stage::InGap(count) => self.in_gap(count, octet),
            Stage::InBurst(burst) => self.in_burst(burst, kind_of_octet(octet)),
            Stage::InBlur(blur) => self.in_blur(blur, octet),
            Stage::AfterTorn => self.after_torn(kind_of_octet(octet)),
            Stage::Ended => Step::Refuses(Why::AfterEnd),
        }
    }

    fn in_magic(&self, taken: u8, octet: u8) -> Step
        requires below { self.now.taken < 2 ^ 30 }
        requires fits { Fits self.now (Magic taken) }
        ensures next { step_next result self.now ≡ magic_step self.now taken octet }
        ensures fits { StepFits result self.now }
    {
        if octet != magic_octet(taken) {
            return Step::Refuses(Why::Magic);
        }
        if taken == 3 {
            return self.goes(Stage::Version);
        }
        self.goes(Stage::Magic(taken + 1))
    }

    pub fn in_gap(&mut self, count: CountSoFar, octet: u8) -> Step
        requires below { self.old.taken < 2 ^ 30 }
        requires fits { Fits self.old (InGap count) }
        ensures next { step_next result self.new ≡ gap_step self.old count octet }
        ensures fits { StepFits result self.new }
        ensures taken { self.new.taken ≡ self.old.taken }
    {
        match count {
            CountSoFar::Nothing => self.goes(Stage::InGap(CountSoFar::One(octet))),
            CountSoFar::One(a) => self.goes(Stage::InGap(CountSoFar::Two(a, octet))),
            CountSoFar::Two(a, b) => self.goes(Stage::InGap(CountSoFar::Three(a, b, octet))),
            CountSoFar::Three(a, b, c) => self.gap_ends(count_of(a, b, c, octet)),
        }
    }

    pub fn gap_ends(&mut self, ticks: u32) -> Step
        requires below { self.old.taken < 2 ^ 30 }
        requires fits { (a : ℕ) × (b : ℕ) × (c : ℕ) × Fits self.old (InGap (Three a b c)) }
        ensures next { step_next result self.new ≡ gap_ends self.old ticks }
        ensures fits { StepFits result self.new }
        ensures taken { self.new.taken ≡ self.old.taken }
    {
        if ticks == 0 {
            return Step::Refuses(Why::CountZero);
        }
        self.counts = self.counts.with_ticks(ticks as u64);
        self.goes(Stage::InBurst(BurstSoFar::none(true)))
    }

    fn in_blur(&mut self, blur: BlurSoFar, octet: u8) -> Step
        requires below { self.old.taken < 2 ^ 30 }
        requires fits { Fits self.old (InBlur blur) }
        ensures next { step_next result self.new ≡ blur_step self.old blur octet }
        ensures fits { StepFits result self.new }
        ensures taken { self.new.taken ≡ self.old.taken }
    {
        match blur.count {
            CountSoFar::Nothing => self.counting(blur, CountSoFar::One(octet)),
            CountSoFar::One(a) => self.counting(blur, CountSoFar::Two(a, octet)),
            CountSoFar::Two(a, b) => self.counting(blur, CountSoFar::Three(a, b, octet)),
            CountSoFar::Three(a, b, c) => self.blur_ends(blur, count_of(a, b, c, octet)),
        }
    }

    /// One octet more of the count of a blur.
    fn counting(&self, blur: BlurSoFar, count: CountSoFar) -> Step
        requires below { self.now.taken < 2 ^ 30 }
        requires fits { Fits self.now (InBlur blur) }
        requires one { octets_counted count ≡ octets_counted blur.count + 1 }
        ensures next { step_next result self.now ≡ counting self.now blur count }
        ensures fits { StepFits result self.now }
    {
        self.goes(Stage::InBlur(BlurSoFar {
            needed: blur.needed,
            symbols: blur.symbols,
            count,
        }))
    }

    fn blur_ends(&mut self, blur: BlurSoFar, ticks: u32) -> Step
        requires below { self.old.taken < 2 ^ 30 }
        requires fits { Fits self.old (InBlur blur) }
        requires whole { octets_counted blur.count ≡ 3 }
        ensures next { step_next result self.new ≡ blur_ends self.old blur ticks }
        ensures fits { StepFits result self.new }
        ensures taken { self.new.taken ≡ self.old.taken }
    {
        if blur.needed && ticks == 0 {
            return Step::Refuses(Why::CountZero);
        }
        let start = self.counts.ticks;
        let lasts = SYMBOL_TICKS * blur.symbols + ticks as u64;
        self.counts = self.counts.with_ticks(lasts).with_torn();
        let item = HeldItem::Torn {
            start,
            end: start + lasts,
            symbols: blur.symbols,
            blur: ticks as u64,
        };
        Step::Yields(item, Stage::AfterTorn)
    }

    fn after_torn(&self, kind: OctetKind) -> Step
        requires below { self.now.taken < 2 ^ 30 }
        requires fits { Fits self.now AfterTorn }
        ensures next { step_next result self.now ≡ torn_step_by kind self.now }
        ensures fits { StepFits result self.now }
    {
        match kind {
            OctetKind::Gap => self.goes(Stage::InGap(CountSoFar::Nothing)),
            OctetKind::End => self.goes(Stage::Ended),
            OctetKind::Torn | OctetKind::Known(_) => Step::Refuses(Why::Place),
            OctetKind::Unknown => Step::Refuses(Why::Group),
        }
    }

    pub fn in_burst(&mut self, burst: BurstSoFar, kind: OctetKind) -> Step
        requires below { self.old.taken < 2 ^ 30 }
        requires fits { Fits self.old (InBurst burst) }
        requires symbol { OctetKindInRange kind }
        ensures next { step_next result self.new ≡ burst_step_by kind self.old burst }
        ensures fits { StepFits result self.new }
        ensures taken { self.new.taken ≡ self.old.taken }
    {
        match kind {
            OctetKind::Gap => self.gap_here(burst),
            OctetKind::End => self.end_here(burst),
            OctetKind::Torn => self.torn_here(burst),
            OctetKind::Known(symbol) => self.symbol_here(burst, symbol),
            OctetKind::Unknown => Step::Refuses(Why::Group),
        }
    }

    /// A gap begins after these symbols.
    fn gap_here(&mut self, burst: BurstSoFar) -> Step
        requires below { self.old.taken < 2 ^ 30 }
        requires fits { Fits self.old (InBurst burst) }
        ensures next { step_next result self.new ≡ gap_here self.old burst }
        ensures fits { StepFits result self.new }
        ensures taken { self.new.taken ≡ self.old.taken }
    {
        if burst.place.is_burst() {
            return self.burst_ends(burst, Stage::InGap(CountSoFar::Nothing));
        }
        if burst.symbols != 0 {
            return Step::Refuses(Why::Place);
        }
        if burst.after_gap {
            return Step::Refuses(Why::GapTwice);
        }
        self.goes(Stage::InGap(CountSoFar::Nothing))
    }

    /// The capture ends after these symbols.
    fn end_here(&mut self, burst: BurstSoFar) -> Step
        requires below { self.old.taken < 2 ^ 30 }
        requires fits { Fits self.old (InBurst burst) }
        ensures next { step_next result self.new ≡ end_here self.old burst }
        ensures fits { StepFits result self.new }
        ensures taken { self.new.taken ≡ self.old.taken }
    {
        if burst.place.is_burst() {
            return self.burst_ends(burst, Stage::Ended);
        }
        if burst.symbols != 0 {
            return Step::Refuses(Why::Place);
        }
        self.goes(Stage::Ended)
    }

    /// The burst ends before the octet, which leads to this stage.
    fn burst_ends(&mut self, burst: BurstSoFar, stage: Stage) -> Step
        requires below { self.old.taken < 2 ^ 30 }
        requires fits { Fits self.old (InBurst burst) }
        requires begun { octets_begun stage ≤ 1 }
        requires none { nibbles_held stage ≡ 0 }
        requires range { StageInRange stage }
        requires ends { IsTrue (ends_burst burst.place) }
        ensures next { step_next result self.new ≡ burst_ends self.old burst stage }
        ensures fits { StepFits result self.new }
        ensures taken { self.new.taken ≡ self.old.taken }
    {
        let start = self.counts.ticks;
        let lasts = SYMBOL_TICKS * burst.symbols;
        let pieces = burst.place.pieces();
        let lead = burst.place.lead();
        self.counts = self.counts.with_ticks(lasts).with_whole(pieces, lead);
        Step::Yields(whole_item(pieces, lead, start, start + lasts), stage)
    }

    /// The burst is torn after these symbols.
    fn torn_here(&mut self, burst: BurstSoFar) -> Step
        requires below { self.old.taken < 2 ^ 30 }
        requires fits { Fits self.old (InBurst burst) }
        ensures next { step_next result self.new ≡ torn_here self.old burst }
        ensures fits { StepFits result self.new }
        ensures taken { self.new.taken ≡ self.old.taken }
    {
        self.reader.clear();
        self.goes(Stage::InBlur(BlurSoFar {
            needed: burst.symbols == 0 || burst.place.is_burst(),
            symbols: burst.symbols,
            count: CountSoFar::Nothing,
        }))
    }

    fn symbol_here(&mut self, burst: BurstSoFar, symbol: Symbol) -> Step
        requires below { self.old.taken < 2 ^ 30 }
        requires fits { Fits self.old (InBurst burst) }
        requires symbol { IsSymbol symbol }
        ensures next { step_next result self.new ≡ symbol_step self.old burst symbol (place_step burst.place symbol) }
        ensures fits { StepFits result self.new }
        ensures taken { self.new.taken ≡ self.old.taken }
    {
        let lead = burst.place.lead();
        let groups = burst.place.nibbles();
        let BurstSoFar {
            place,
            symbols,
            closed,
            after_gap,
        } = burst;
        match place.take(symbol) {
            Ok(place) => self.symbol_taken(
                symbol,
                lead,
                groups,
                BurstSoFar {
                    place,
                    symbols: symbols + 1,
                    closed,
                    after_gap,
                },
            ),
            Err(PlaceFault::TooLong) => Step::Refuses(Why::BurstLong),
            Err(PlaceFault::NotHere) => Step::Refuses(Why::Place),
        }
    }

    /// A symbol that may stand here, with which the symbols are these. The piece that is begun had this lead and so
    /// many groups before it.
    fn symbol_taken(&mut self, symbol: Symbol, lead: u16, groups: u16, burst: BurstSoFar) -> Step
        requires fits { FitsSymbol self.old symbol groups burst }
        requires symbol { IsSymbol symbol }
        ensures next { step_next result self.new ≡ symbol_taken self.old lead groups symbol burst }
        ensures fits { StepFits result self.new }
        ensures taken { self.new.taken ≡ self.old.taken }
    {
        match symbol {
            Symbol::Nibble(nibble) => self.nibble_taken(nibble, groups, burst),
            Symbol::R => self.piece_ends(Closer::R, lead, groups, burst),
            Symbol::K => self.piece_ends(Closer::K, lead, groups, burst),
            Symbol::S => self.piece_ends(Closer::S, lead, groups, burst),
            Symbol::J | Symbol::T | Symbol::H | Symbol::N => self.goes(Stage::InBurst(burst)),
        }
    }

    fn nibble_taken(&mut self, nibble: u8, groups: u16, burst: BurstSoFar) -> Step
        requires fits { FitsSymbol self.old (Nibble nibble) groups burst }
        requires range { nibble < 16 }
        ensures next { step_next result self.new ≡ symbol_taken self.old 0 groups (Nibble nibble) burst }
        ensures fits { StepFits result self.new }
        ensures taken { self.new.taken ≡ self.old.taken }
    {
        let burst = self.passed(Symbol::Nibble(nibble), groups, burst);
        self.goes(Stage::InBurst(burst))
    }

    /// A closer ends a piece of this lead and so many groups. Its nibbles stay with the reader, which lends its frame.
    fn piece_ends(&mut self, closer: Closer, lead: u16, groups: u16, burst: BurstSoFar) -> Step
        requires fits { FitsSymbol self.old (closer_symbol closer) groups burst }
        ensures next { step_next result self.new ≡ piece_ends self.old lead groups (closer_symbol closer) burst }
        ensures fits { StepFits result self.new }
        ensures taken { self.new.taken ≡ self.old.taken }
    {
        let kind = self.reader.kind(closer);
        let piece = HeldPiece {
            lead,
            groups,
            closer,
            kind,
        };
        let start = self.counts.ticks + SYMBOL_TICKS * burst.closed;
        self.counts = self.counts.with_piece(kind == Kind::Good);
        let BurstSoFar {
            place,
            symbols,
            after_gap,
            ..
        } = burst;
        let stage = Stage::InBurst(BurstSoFar {
            place,
            symbols,
            closed: symbols,
            after_gap,
        });
        Step::Yields(HeldItem::Piece { start, piece }, stage)
    }
}
