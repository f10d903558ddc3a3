// The lines of a text and the fields of a line.
ghost use Rattle.std.specs.Prelude.{◌≡◌, ◌+◌, ◌≤◌, ◌<◌, ◌==◌, ℕ, List, [], ◌∷◌, length, position, MatchOption, IfSome, Option, Some, None};
ghost use Rattle.std.specs.List.{slice_split};
ghost use Rattle.std.specs.Option.{option_map_or};
ghost use Rattle.t1s_script.specs.Lines.{lines_of, fields_of};

use std::marker::Model;

const LINE_FEED: u8 = b'\n';

const SPACE: u8 = b' ';

/// The first place of the octet.
fn place_of(text: &[u8], octet: u8) -> Option<usize>
    ensures { result ≡ position (λ x. x == octet) text.now }
{
    text.iter().position(|x| *x == octet)
}

/// What stands before the first such octet, and what stands after it if there is one.
fn cut(text: &[u8], octet: u8) -> (&[u8], Option<&[u8]>)
    ensures parts { slice_split (λ x. x == octet) text.now
        ≡ result.0.now ∷ option_map_or (λ rest. slice_split (λ x. x == octet) rest.now) result.1 [] }
    ensures lengths { MatchOption result.1 (result.0.now ≡ text.now)
        (λ rest. length result.0.now + 1 + length rest.now ≡ length text.now) }
{
    match place_of(text, octet) {
        Some(place) => (&text[..place], Some(&text[place + 1..])),
        None => (text, None),
    }
}

/// The lines of a text that are not taken yet.
#[derive(Drop)]
pub struct Lines<'a> {
    rest: &'a [u8],
    /// How many lines were taken.
    taken: u32,
    ghost counted: { taken + length rest.now ≤ 1048576 },
}

impl<'a> Lines<'a> {
    /// All lines of the text.
    pub fn of(text: &'a [u8]) -> Lines<'a>
        requires { length text.now ≤ 1048576 }
        ensures rest { result.rest.now ≡ text.now }
        ensures taken { result.taken ≡ 0 }
    {
        Lines {
            rest: text,
            taken: 0,
        }
    }

    /// How many lines were taken.
    pub fn taken(&self) -> u32
        ensures value { result ≡ self.now.taken }
        ensures few { result ≤ 1048576 }
    {
        self.taken
    }

    /// Takes the next line.
    pub fn next(&mut self) -> Option<&'a [u8]>
        ensures line { MatchOption result (lines_of self.old.rest.now ≡ [])
            (λ line. lines_of self.old.rest.now ≡ line.now ∷ lines_of self.new.rest.now) }
        ensures taken { MatchOption result (self.new.taken ≡ self.old.taken) (λ _. self.new.taken ≡ self.old.taken + 1) }
        ensures shorter { IfSome result (λ _. length self.new.rest.now < length self.old.rest.now) }
    {
        if self.rest.is_empty() {
            return None;
        }
        let (line, rest) = cut(self.rest, LINE_FEED);
        self.taken += 1;
        self.rest = rest.unwrap_or(&[]);
        Some(line)
    }
}

/// The fields of a line that are not taken yet.
#[derive(Drop)]
pub struct Fields<'a> {
    rest: Option<&'a [u8]>,
}

impl<'a> Model for Fields<'a> {
    ghost use Rattle.std.specs.Prelude.{List, ℕ, []};
    ghost use Rattle.std.specs.Option.{option_map_or};
    ghost use Rattle.t1s_script.specs.Lines.{fields_of};

    ghost Value = { List (List ℕ) };

    ghost view = { λ f. option_map_or (λ text. fields_of text.now) f.rest [] };
}

impl<'a> Fields<'a> {
    /// All fields of the line.
    pub fn of(line: &'a [u8]) -> Fields<'a>
        ensures { result ≡ fields_of line.now }
    {
        Fields { rest: Some(line) }
    }

    /// Takes the next field.
    pub fn next(&mut self) -> Option<&'a [u8]>
        ensures none { result ≡ None → self.old ≡ [] }
        ensures some { IfSome result (λ field. self.old ≡ field.now ∷ self.new) }
    {
        let (field, rest) = cut(self.rest?, SPACE);
        self.rest = rest;
        Some(field)
    }
}
