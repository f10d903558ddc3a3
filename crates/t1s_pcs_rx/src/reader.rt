//! The reading of bursts, a quarter at a time.
ghost use Rattle.std.specs.Prelude.{◌≡◌, length, IfSome, IsTrue};
ghost use Rattle.t1s_symbols.specs.Ranges.{IsHeard, IsQuarter};
ghost use Rattle.t1s_pcs_rx.specs.Receiver.{Receiver, receive_start, is_inside};
ghost use Rattle.t1s_pcs_rx.specs.ReceiveTable.{class_after, class_at_end, class_in, class_of, closed_by, closing_at, closing_by, closing_from, closing_in, counted, ended, entered, heard_by, after_judgement, quarter_heard, receive_step};
ghost use Rattle.t1s_pcs_rx.specs.Ranges.{room_at};
ghost use Rattle.t1s_pcs_rx.specs.declared.reader.Burst.TheVariants.{Ended};
ghost use Rattle.t1s_grammar.specs.PlaceTable.{place_step};

use crate::piece::Closer;
use crate::piece_reader::PieceReader;
use std::marker::Model;
use std::mem;
use t1s_grammar::Place;
use t1s_symbols::{Class, Heard, Quarter, QuarterReading, Symbol};

/// Where a receiver is in what it hears.
#[derive(Drop)]
pub enum Burst {
    /// Nothing was heard in the last tick.
    Outside,
    /// Inside a burst that is read: the last quarter, if there was one, whether no symbol of the burst is
    /// complete yet, and the place in the grammar.
    Reading {
        last: Option<Quarter>,
        fresh: bool,
        place: Place,
    },
    /// Inside a burst whose reading has ended.
    Ended,
}

/// The end of a piece: how many J and nibbles it has, and the symbol that closes it.
#[derive(Clone, Copy)]
pub struct PieceEnd {
    pub lead: u16,
    pub groups: u16,
    pub closer: Closer,
}

/// A receiver without the view that it lends.
#[derive(Drop)]
pub struct Reader {
    class: Class,
    burst: Burst,
    pieces: PieceReader,
}

impl Model for Reader {
    ghost use Rattle.t1s_pcs_rx.specs.Receiver.{Receiver};

    ghost Value = { Receiver };

    ghost use Rattle.t1s_pcs_rx.specs.Ranges.{IsReceiver};

    ghost view = { λ r. record {
      class = r.class;
      burst = r.burst;
      history = r.pieces.history;
      nibbles = r.pieces.nibbles;
    } };

    ghost invariant = { λ r. IsReceiver (record {
      class = r.class;
      burst = r.burst;
      history = r.pieces.history;
      nibbles = r.pieces.nibbles;
    }) };
}

impl Reader {
    /// A receiver at the start.
    pub fn new() -> Reader
        ensures { result ≡ receive_start }
    {
        Reader {
            class: Class::None,
            burst: Burst::Outside,
            pieces: PieceReader::new(),
        }
    }

    /// What the burst is taken for.
    pub fn class(&self) -> Class
        ensures { result ≡ self.now.class }
    {
        self.class
    }

    /// Inside a burst.
    pub fn inside(&self) -> bool
        ensures { result ≡ is_inside self.now.burst }
    {
        !matches!(self.burst, Burst::Outside)
    }

    /// The pieces, as they are read.
    pub fn pieces(&self) -> &PieceReader
        ensures { result.now ≡ record { history = self.now.history; nibbles = self.now.nibbles } }
    {
        &self.pieces
    }

    /// One tick: the end of a piece, where the tick closes one. `own` tells that the node drives in it.
    #[tactic(auto, unfolding(crate::specs::ReceiveTable::receive_step, crate::specs::ReceiveTable::closing_in))]
    pub fn step(&mut self, heard: Heard, own: bool) -> Option<PieceEnd>
        requires { IsHeard heard }
        ensures after { self.new ≡ receive_step self.old heard own }
        ensures closing { result ≡ closing_in self.old heard own }
        ensures heard { IfSome result (λ _. self.new.nibbles ≡ self.old.nibbles) }
    {
        self.class = class_in(self.class, own);
        self.hear(counted(heard, own), own)
    }

    /// What is heard, once own drive is counted in.
    fn hear(&mut self, heard: Heard, own: bool) -> Option<PieceEnd>
        requires { IsHeard heard }
        ensures after { self.new ≡ heard_by self.old heard own }
        ensures closing { result ≡ closing_by self.old heard }
        ensures heard { IfSome result (λ _. self.new.nibbles ≡ self.old.nibbles) }
    {
        match heard {
            Heard::Nothing => {
                self.burst = Burst::Outside;
                None
            }
            Heard::One(quarter) => {
                self.enter();
                self.read(quarter, own)
            }
            Heard::Many => {
                self.enter();
                self.end(own);
                None
            }
        }
    }

    /// A receiver that hears something is inside: at the beginning of a burst where it was not.
    fn enter(&mut self)
        ensures { self.new ≡ entered self.old }
    {
        if let Burst::Outside = self.burst {
            self.class = Class::None;
            self.burst = Burst::Reading {
                last: None,
                fresh: true,
                place: Place::start(),
            };
        }
    }

    /// The reading of the burst ends here, where it has not ended before.
    fn end(&mut self, own: bool)
        ensures { self.new ≡ ended self.old own }
    {
        if let Burst::Reading { .. } = self.burst {
            self.class = class_at_end(self.class, own);
            self.burst = Burst::Ended;
        }
    }

    /// One quarter is heard.
    fn read(&mut self, quarter: Quarter, own: bool) -> Option<PieceEnd>
        requires { IsQuarter quarter }
        ensures after { self.new ≡ quarter_heard self.old quarter own }
        ensures closing { result ≡ closing_from quarter self.old.burst }
        ensures heard { IfSome result (λ _. self.new.nibbles ≡ self.old.nibbles) }
    {
        match mem::replace(&mut self.burst, Burst::Ended) {
            Burst::Reading { last, fresh, place } => match quarter.reading(last) {
                QuarterReading::Broken => {
                    self.class = class_at_end(self.class, own);
                    None
                }
                QuarterReading::Partial => {
                    self.burst = Burst::Reading {
                        last: Some(quarter),
                        fresh,
                        place,
                    };
                    None
                }
                QuarterReading::Complete => {
                    self.class = class_after(self.class, fresh, quarter.sym);
                    self.judge(place, quarter)
                }
            },
            burst => {
                self.burst = burst;
                None
            }
        }
    }

    /// A complete symbol is judged at its place. Here the reading has ended, and it goes on where the symbol is
    /// taken.
    fn judge(&mut self, place: Place, quarter: Quarter) -> Option<PieceEnd>
        requires quarter { IsQuarter quarter }
        requires heard { IsTrue (room_at place (length self.old.nibbles)) }
        requires ended { self.old.burst ≡ Ended }
        ensures after { self.new ≡ after_judgement self.old quarter self.old.class place (place_step place quarter.sym) }
        ensures closing { result ≡ closing_at place quarter.sym (place_step place quarter.sym) }
        ensures heard { IfSome result (λ _. self.new.nibbles ≡ self.old.nibbles) }
    {
        let lead = place.lead();
        let groups = place.nibbles();
        match place.take(quarter.sym) {
            Err(_) => None,
            Ok(next) => {
                self.pieces.take(groups, quarter.sym);
                self.burst = Burst::Reading {
                    last: Some(quarter),
                    fresh: false,
                    place: next,
                };
                closing(lead, groups, quarter.sym)
            }
        }
    }
}

/// What counts as heard: a node that drives can read nothing.
fn counted(heard: Heard, own: bool) -> Heard
    requires { IsHeard heard }
    ensures counted { result ≡ counted heard own }
    ensures ranges { IsHeard result }
{
    match heard {
        Heard::Nothing => Heard::Nothing,
        Heard::One(quarter) => {
            if own {
                Heard::Many
            } else {
                Heard::One(quarter)
            }
        }
        Heard::Many => Heard::Many,
    }
}

/// The class that the first symbol of a burst sets.
fn class_of(sym: Symbol) -> Class
    ensures { result ≡ class_of sym }
{
    match sym {
        Symbol::N => Class::Beacon,
        Symbol::J => Class::Run,
        _ => Class::Other,
    }
}

/// The class after a complete symbol: the first one of a burst sets it.
fn class_after(class: Class, fresh: bool, sym: Symbol) -> Class
    ensures { result ≡ class_after class fresh sym }
{
    if fresh { class_of(sym) } else { class }
}

/// The class in a tick: a node that drives has none.
fn class_in(class: Class, own: bool) -> Class
    ensures { result ≡ class_in class own }
{
    if own { Class::None } else { class }
}

/// The class where the reading of a burst ends.
fn class_at_end(class: Class, own: bool) -> Class
    ensures { result ≡ class_at_end class own }
{
    match class {
        Class::None if !own => Class::Other,
        class => class,
    }
}

/// The end of a piece, where a symbol that was taken is a closer.
fn closing(lead: u16, groups: u16, sym: Symbol) -> Option<PieceEnd>
    ensures { result ≡ closed_by lead groups sym }
{
    let closer = match sym {
        Symbol::R => Closer::R,
        Symbol::K => Closer::K,
        Symbol::S => Closer::S,
        _ => return None,
    };
    Some(PieceEnd {
        lead,
        groups,
        closer,
    })
}
