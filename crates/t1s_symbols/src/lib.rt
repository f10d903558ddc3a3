//! The symbols of the line, their 5B code groups, and what a node hears in a tick.
//!
//! The layer above uses `group_of` and `symbol_of`: both read one table of 23 pairs, `group_table` in
//! `specs/GroupTable.antt`. `quarter_reading` reads symbols from quarters, one after another, by what stands in
//! `specs/Quarters.antt`. The ranges of nibbles and parts (`IsSymbol`, `IsQuarter`, `IsHeard`) stand in
//! `specs/Ranges.antt`, and when two symbols are the same in `specs/Symbols.antt`. That no two symbols have one group,
//! and that each call undoes the other, are laws, in the module `laws`.
#![tactic(auto)]

ghost use Rattle.std.specs.Prelude.{◌≡◌, ◌↔◌, IsSome, IfSome};
ghost use Rattle.t1s_symbols.specs.GroupTable.{group, symbol, IsPair};
ghost use Rattle.t1s_symbols.specs.Quarters.{continues, continues_last, quarter_reading};
ghost use Rattle.t1s_symbols.specs.Ranges.{IsSymbol};

pub mod laws;

/// A symbol of the line: a nibble of data (below 16), or one of seven control symbols.
#[derive(Clone, Copy, PartialEq, Eq, Debug)]
pub enum Symbol {
    /// A nibble of data, scrambled or not.
    Nibble(u8),
    /// SYNC and COMMIT.
    J,
    /// ESDERR: closes a bad piece.
    K,
    /// ESD: ends the data of a piece.
    T,
    /// ESDOK: closes a good piece.
    R,
    /// SSD: twice before the data of a piece.
    H,
    /// BEACON.
    N,
    /// ESDJAB: closes a piece that was cut for jabber. It is read and never sent.
    S,
}

/// One of the four ticks that a symbol takes: `part` is below 4.
#[derive(Clone, Copy, PartialEq, Eq, Debug)]
pub struct Quarter {
    pub sym: Symbol,
    pub part: u8,
}

/// The part of the quarter that completes its symbol.
pub const LAST_PART: u8 = 3;

/// What a quarter is in the reading of a burst.
#[derive(Clone, Copy, PartialEq, Eq, Debug)]
pub enum QuarterReading {
    /// It doesn't continue the quarter before it: nothing can be read from here on.
    Broken,
    /// It continues a symbol that isn't complete yet.
    Partial,
    /// It completes its symbol.
    Complete,
}

/// What a node hears in one tick.
#[derive(Clone, Copy, PartialEq, Eq, Debug)]
pub enum Heard {
    /// No other node's signal.
    Nothing,
    /// One other node's quarter.
    One(Quarter),
    /// Two or more signals at once, or noise: nothing can be read.
    Many,
}

/// What a receiver takes a burst for, by the first symbol of it that is read.
#[derive(Clone, Copy, PartialEq, Eq, Debug)]
pub enum Class {
    /// Nothing is decided.
    None,
    /// The first symbol is N.
    Beacon,
    /// The first symbol is J.
    Run,
    /// The first symbol is another one, or reading ended while nothing was decided.
    Other,
}

/// The table of symbols and groups, read in one of two ways: `group of` a symbol is its group, and
/// `symbol of` a group its symbol, if there is one.
macro_rules! groups {
    ($way:ident of $given:expr) => {
        groups!(
            @$way $given;
            Nibble(0x0) = 0x1E,
            Nibble(0x1) = 0x09,
            Nibble(0x2) = 0x14,
            Nibble(0x3) = 0x15,
            Nibble(0x4) = 0x0A,
            Nibble(0x5) = 0x0B,
            Nibble(0x6) = 0x0E,
            Nibble(0x7) = 0x0F,
            Nibble(0x8) = 0x12,
            Nibble(0x9) = 0x13,
            Nibble(0xA) = 0x16,
            Nibble(0xB) = 0x17,
            Nibble(0xC) = 0x1A,
            Nibble(0xD) = 0x1B,
            Nibble(0xE) = 0x1C,
            Nibble(0xF) = 0x1D,
            J = 0x18,
            K = 0x11,
            T = 0x0D,
            R = 0x07,
            H = 0x04,
            N = 0x08,
            S = 0x19
        )
    };
    (@group $given:expr; $($symbol:ident $(($nibble:literal))? = $group:literal),*) => {
        match $given {
            $(Symbol::$symbol $(($nibble))? => $group,)*
            Symbol::Nibble(_) => unreachable!(),
        }
    };
    (@symbol $given:expr; $($symbol:ident $(($nibble:literal))? = $group:literal),*) => {
        match $given {
            $($group => Some(Symbol::$symbol $(($nibble))?),)*
            _ => None,
        }
    };
}

/// The 5B group of a symbol. The whole table, nibbles and control symbols alike, is a closed list of this
/// project's own: that IEEE 802.3 clause 147 gives a group the use named here isn't claimed.
#[tactic(auto, unfolding(crate::specs::GroupTable::group), using(crate::proofs::Pairs::pair_of_group))]
pub fn group_of(s: Symbol) -> u8
    requires { IsSymbol s }
    ensures pair { IsPair s result }
    ensures group { result ≡ group s }
{
    groups!(group of s)
}

/// The symbol of a 5B group. It is None for silence (0x1F), for the eight groups that stand for
/// nothing, and for every number above 0x1F.
// Kept apart from its callers, it is compiled to a look-up and not to a jump.
#[inline(never)]
#[tactic(auto, unfolding(crate::specs::GroupTable::symbol), using(crate::proofs::Pairs::pair_of_symbol))]
pub fn symbol_of(group: u8) -> Option<Symbol>
    ensures symbol { result ≡ symbol group }
    ensures pair { IfSome result (λ s. IsPair s group) }
    ensures nibble { IfSome result IsSymbol }
{
    groups!(symbol of group)
}

impl Quarter {
    /// Whether this quarter continues the one before: it is the next part of the same symbol, or part 0 of any symbol
    /// after a part 3.
    pub fn continues(self, before: Quarter) -> bool
        ensures { result ≡ continues before self }
    {
        let next_part = u16::from(self.part) == u16::from(before.part) + 1;
        (next_part && before.sym == self.sym) || (before.part == LAST_PART && self.part == 0)
    }

    /// Whether this quarter may follow the last one of its burst. The first one of a burst is a part 0.
    pub fn continues_last(self, last: Option<Quarter>) -> bool
        ensures { result ≡ continues_last last self }
    {
        match last {
            None => self.part == 0,
            Some(before) => self.continues(before),
        }
    }

    /// What this quarter is in the reading of a burst, by the last quarter before it, if there was one.
    pub fn reading(self, last: Option<Quarter>) -> QuarterReading
        ensures { result ≡ quarter_reading last self }
    {
        if !self.continues_last(last) {
            QuarterReading::Broken
        } else if self.part == LAST_PART {
            QuarterReading::Complete
        } else {
            QuarterReading::Partial
        }
    }
}

#[cfg(test)]
mod tests {
    use super::*;

    #[test]
    fn each_of_the_32_groups_has_its_symbol_or_none(rt: HostRuntime) {
        let symbols = [
            None,
            None,
            None,
            None,
            Some(Symbol::H),
            None,
            None,
            Some(Symbol::R),
            Some(Symbol::N),
            Some(Symbol::Nibble(0x1)),
            Some(Symbol::Nibble(0x4)),
            Some(Symbol::Nibble(0x5)),
            None,
            Some(Symbol::T),
            Some(Symbol::Nibble(0x6)),
            Some(Symbol::Nibble(0x7)),
            None,
            Some(Symbol::K),
            Some(Symbol::Nibble(0x8)),
            Some(Symbol::Nibble(0x9)),
            Some(Symbol::Nibble(0x2)),
            Some(Symbol::Nibble(0x3)),
            Some(Symbol::Nibble(0xA)),
            Some(Symbol::Nibble(0xB)),
            Some(Symbol::J),
            Some(Symbol::S),
            Some(Symbol::Nibble(0xC)),
            Some(Symbol::Nibble(0xD)),
            Some(Symbol::Nibble(0xE)),
            Some(Symbol::Nibble(0xF)),
            Some(Symbol::Nibble(0x0)),
            None,
        ];
        for group in 0..=255u8 {
            let symbol = symbol_of(group);
            let want = if group < 32 {
                symbols[group as usize]
            } else {
                None
            };
            assert_eq!(rt; symbol, want, "at {group}");
            if let Some(symbol) = symbol {
                assert_eq!(rt; group_of(symbol), group);
            }
        }
    }

    #[test]
    fn a_quarter_continues_its_symbol_or_begins_the_next_one(rt: HostRuntime) {
        let one = Symbol::Nibble(1);
        let two = Symbol::Nibble(2);
        let rows = [
            (None, (one, 0), QuarterReading::Partial),
            (None, (one, 1), QuarterReading::Broken),
            (Some((one, 0)), (one, 1), QuarterReading::Partial),
            (Some((one, 0)), (two, 1), QuarterReading::Broken),
            (Some((one, 0)), (one, 0), QuarterReading::Broken),
            (Some((one, 1)), (one, 3), QuarterReading::Broken),
            (Some((one, 2)), (one, 3), QuarterReading::Complete),
            (Some((one, 2)), (Symbol::J, 3), QuarterReading::Broken),
            (Some((one, 2)), (one, 0), QuarterReading::Broken),
            (Some((one, 3)), (one, 0), QuarterReading::Partial),
            (Some((one, 3)), (Symbol::T, 0), QuarterReading::Partial),
            (Some((one, 3)), (one, 1), QuarterReading::Broken),
        ];
        for (last, (sym, part), want) in rows {
            let last = last.map(|(sym, part)| Quarter { sym, part });
            assert_eq!(rt; Quarter { sym, part }.reading(last), want);
        }
    }
}
