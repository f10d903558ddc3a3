// The IDs of a node.
ghost use Rattle.std.specs.Prelude.{◌≡◌, [], ◌∷◌, ◌++◌, ◌&&◌, not, nat_lt, length, slice_get, is_ok, OnOk, IfErr};
ghost use Rattle.t1s_base.specs.NodeIds.{IsIds, has_id};

use std::marker::Model;

/// The IDs, by how many there are.
#[derive(Clone, Copy)]
enum Held {
    One(u8),
    Two(u8, u8),
    Three(u8, u8, u8),
    Four(u8, u8, u8, u8),
}

/// The IDs of a node: one to four, no two of them the same. Contracts see the list of them, the first one first.
#[derive(Clone, Copy)]
pub struct Ids {
    held: Held,
}

impl Model for Ids {
    ghost use Rattle.std.specs.Prelude.{List, ℕ};

    ghost Value = { List ℕ };

    ghost use Rattle.t1s_base.specs.NodeIds.{IsIds, ids_of, held_of, held_of_ids};

    ghost view = { λ ids. ids_of ids.held };

    ghost invariant = { λ ids. IsIds (ids_of ids.held) };

    ghost inverse = { λ ids. record { held = held_of ids } };

    ghost inverse_ok = { λ ids h i. record { held = held_of_ids ids.held i } };
}

impl Ids {
    /// This ID alone.
    pub fn one(id: u8) -> Ids
        ensures ids { result ≡ id ∷ [] }
        ensures range { IsIds result }
    {
        Ids {
            held: Held::One(id),
        }
    }

    /// Appends the ID. Where four are held, or this one is, the list stays as it was, and the ID is handed back.
    pub fn add(&mut self, id: u8) -> Result<(), u8>
        ensures answer { is_ok result ≡ (nat_lt (length self.old) 4 && not (has_id self.old id)) }
        ensures ok { OnOk result (self.new ≡ self.old ++ id ∷ []) }
        ensures err { IfErr result (λ back. (back ≡ id) × (self.new ≡ self.old)) }
        ensures range { IsIds self.new }
    {
        if self.has(id) {
            return Err(id);
        }
        self.held = match self.held {
            Held::One(a) => Held::Two(a, id),
            Held::Two(a, b) => Held::Three(a, b, id),
            Held::Three(a, b, c) => Held::Four(a, b, c, id),
            Held::Four(_, _, _, _) => return Err(id),
        };
        Ok(())
    }

    /// Whether the ID is in the list.
    pub fn has(&self, id: u8) -> bool
        ensures answer { result ≡ has_id self.now id }
        ensures range { IsIds self.now }
    {
        match self.held {
            Held::One(a) => a == id,
            Held::Two(a, b) => a == id || b == id,
            Held::Three(a, b, c) => a == id || b == id || c == id,
            Held::Four(a, b, c, d) => a == id || b == id || c == id || d == id,
        }
    }

    /// The ID at place `i`, counted from 0, or None where the list has no such place.
    pub fn get(&self, i: u8) -> Option<u8>
        ensures place { result ≡ slice_get self.now i }
        ensures range { IsIds self.now }
    {
        match (i, self.held) {
            (0, Held::One(a) | Held::Two(a, _) | Held::Three(a, _, _) | Held::Four(a, _, _, _)) =>
                Some(a),
            (1, Held::Two(_, b) | Held::Three(_, b, _) | Held::Four(_, b, _, _)) => Some(b),
            (2, Held::Three(_, _, c) | Held::Four(_, _, c, _)) => Some(c),
            (3, Held::Four(_, _, _, d)) => Some(d),
            _ => None,
        }
    }

    /// The same list.
    pub fn copy(&self) -> Ids
        ensures { result ≡ self.now }
    {
        *self
    }
}
