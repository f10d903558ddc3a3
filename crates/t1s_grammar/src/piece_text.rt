//! A piece as text of the line: one group an octet.
ghost use Rattle.std.specs.Prelude.{◌≡◌, ◌↔◌, ◌+◌, ◌<◌, ◌≤◌, List, [], ◌∷◌, ◌++◌, length, map, replicate, OnOk, OnErr};
ghost use Rattle.arrayvec.specs.ArrayVec.{array_vec_len};
ghost use Rattle.t1s_symbols.specs.GroupTable.{group};
ghost use Rattle.t1s_symbols.specs.Ranges.{IsSymbol};
ghost use Rattle.t1s_symbols.specs.declared.Symbol.TheVariants.{Nibble, J, H, T};
ghost use Rattle.t1s_scramble.specs.Scrambled.{scrambled_nibble, scrambled_nibbles, scrambler_after};
ghost use Rattle.t1s_grammar.specs.Burst.{piece_symbols};
ghost use Rattle.t1s_grammar.specs.Sent.{carried_nibbles, groups, sent_closer, sent_piece};

use crate::place::{LEAST_LEAD, MOST_LEAD};
use arrayvec::ArrayVec;
use std::marker::Model;
use t1s_frame::Frame;
use t1s_scramble::Scrambler;
use t1s_symbols::{Symbol, group_of};
use thiserror::Error;

/// The room of a text. The longest piece has 7156 symbols.
const ROOM: usize = 8192;

/// How many nibbles of the preamble are not sent: the last two J and both H stand for them.
const NOT_SENT: u16 = 4;

/// Why there is no such piece.
#[derive(Clone, Copy, Debug, PartialEq, Eq, Error)]
pub enum PutFault {
    /// Fewer than 2 J.
    #[error("fewer than 2 J before a piece")]
    LeadTooShort = 1,
    /// More than 4096 J.
    #[error("more than 4096 J before a piece")]
    LeadTooLong = 2,
}

/// The groups of a piece, one an octet, in fixed room for 8192 of them.
#[derive(Debug, Drop)]
pub struct PieceText {
    held: ArrayVec<u8, ROOM>,
}

impl Model for PieceText {
    ghost use Rattle.std.specs.Prelude.{ℕ, List};

    ghost Value = { List ℕ };

    ghost view = { λ t. t.held.items };
}

impl PieceText {
    /// An empty text.
    pub fn new() -> PieceText
        ensures { result ≡ [] }
    {
        PieceText {
            held: ArrayVec::new(),
        }
    }

    /// Its octets, 8192 at most.
    pub fn as_slice(&self) -> &[u8]
        ensures value { result.now ≡ self.now }
        ensures fits { length self.now ≤ 8192 }
    {
        self.held.as_slice()
    }
}

/// Replaces the content of `out` by the groups of one piece that stands for the frame `f`: `lead` symbols J, two H,
/// the nibbles of the frame from the fifth on, scrambled by `scr`, T, and R where it is `good` or else K.
///
/// It is refused with a lead below 2 (`LeadTooShort`) or above 4096 (`LeadTooLong`), and `out` and `scr` are then
/// as before.
pub fn put_piece(
    out: &mut PieceText,
    lead: u16,
    scr: &mut Scrambler,
    f: &Frame,
    good: bool,
) -> Result<(), PutFault>
    ensures short { (result ≡ Err PutFault.LeadTooShort) ↔ (lead < 2) }
    ensures long { (result ≡ Err PutFault.LeadTooLong) ↔ (4096 < lead) }
    ensures text { OnOk result (out.new ≡ groups (piece_symbols (sent_piece lead scr.old f.now good))) }
    ensures history { OnOk result (scr.new ≡ scrambler_after scr.old (carried_nibbles f.now)) }
    ensures refused { OnErr result ((out.new ≡ out.old) × (scr.new ≡ scr.old)) }
{
    if lead < LEAST_LEAD {
        return Err(PutFault::LeadTooShort);
    }
    if lead > MOST_LEAD {
        return Err(PutFault::LeadTooLong);
    }
    out.held.clear();
    put_lead(&mut out.held, lead);
    put_nibbles(&mut out.held, scr, f);
    put_closer(&mut out.held, good);
    Ok(())
}

/// Puts the group of a symbol, for which there must be room, after those that are held.
fn put(held: &mut ArrayVec<u8, ROOM>, s: Symbol)
    requires symbol { IsSymbol s }
    requires room { array_vec_len held.old < ROOM }
    ensures { held.new.items ≡ held.old.items ++ group s ∷ [] }
{
    held.push(group_of(s));
}

/// Puts the lead of a piece and its two H.
fn put_lead(held: &mut ArrayVec<u8, ROOM>, lead: u16)
    requires { array_vec_len held.old + lead + 2 ≤ ROOM }
    ensures { held.new.items ≡ held.old.items ++ groups (replicate lead J ++ H ∷ H ∷ []) }
{
    for _ in 0..lead {
        put(held, Symbol::J);
    }
    put(held, Symbol::H);
    put(held, Symbol::H);
}

/// Puts the nibbles of a frame from the fifth on, scrambled.
fn put_nibbles(held: &mut ArrayVec<u8, ROOM>, scr: &mut Scrambler, f: &Frame)
    requires { array_vec_len held.old + 3056 ≤ ROOM }
    ensures text { held.new.items
        ≡ held.old.items ++ groups (map Nibble (scrambled_nibbles scr.old (carried_nibbles f.now))) }
    ensures history { scr.new ≡ scrambler_after scr.old (carried_nibbles f.now) }
    ensures room { array_vec_len held.new ≤ array_vec_len held.old + 3056 }
{
    for i in NOT_SENT..f.nibble_count() {
        match f.nibble_at(i) {
            Some(nibble) => put_nibble(held, scr, nibble),
            None => unreachable!(),
        }
    }
}

/// Puts a nibble, scrambled.
fn put_nibble(held: &mut ArrayVec<u8, ROOM>, scr: &mut Scrambler, nibble: u8)
    requires range { nibble < 16 }
    requires room { array_vec_len held.old < ROOM }
    ensures text { held.new.items ≡ held.old.items ++ group (Nibble (scrambled_nibble scr.old nibble)) ∷ [] }
    ensures history { scr.new ≡ scrambler_after scr.old (nibble ∷ []) }
{
    put(held, Symbol::Nibble(scr.scramble(nibble)));
}

/// Puts the end of a piece: T, and R where it is good or else K.
fn put_closer(held: &mut ArrayVec<u8, ROOM>, good: bool)
    requires { array_vec_len held.old + 2 ≤ ROOM }
    ensures { held.new.items ≡ held.old.items ++ groups (T ∷ sent_closer good ∷ []) }
{
    put(held, Symbol::T);
    put(held, closer(good));
}

/// R closes a good piece, and K a bad one.
fn closer(good: bool) -> Symbol
    ensures closer { result ≡ sent_closer good }
    ensures range { IsSymbol result }
{
    if good { Symbol::R } else { Symbol::K }
}
