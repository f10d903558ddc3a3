// The fields of a line.
ghost use Rattle.std.specs.Prelude.{◌≡◌, ◌==◌, List, [], ◌∷◌, position, IfSome, None};
ghost use Rattle.std.specs.List.{slice_split};
ghost use Rattle.std.specs.Option.{option_map_or};
ghost use Rattle.t1s_drawing.specs.Lines.{fields_of};

use std::marker::Model;

const SPACE: u8 = b' ';

/// The first place of a space.
fn place_of_space(text: &[u8]) -> Option<usize>
    ensures { result ≡ position (λ x. x == 32) text.now }
{
    text.iter().position(|x| *x == SPACE)
}

/// What stands before the first space, and what stands after it if there is one.
fn cut(text: &[u8]) -> (&[u8], Option<&[u8]>)
    ensures { slice_split (λ x. x == 32) text.now
        ≡ result.0.now ∷ option_map_or (λ rest. slice_split (λ x. x == 32) rest.now) result.1 [] }
{
    match place_of_space(text) {
        Some(place) => (&text[..place], Some(&text[place + 1..])),
        None => (text, None),
    }
}

/// The fields of a line that are not taken yet.
#[derive(Drop)]
pub(crate) struct Fields<'a> {
    rest: Option<&'a [u8]>,
}

impl<'a> Model for Fields<'a> {
    ghost use Rattle.std.specs.Prelude.{List, ℕ, []};
    ghost use Rattle.std.specs.Option.{option_map_or};
    ghost use Rattle.t1s_drawing.specs.Lines.{fields_of};

    ghost Value = { List (List ℕ) };

    ghost view = { λ f. option_map_or (λ text. fields_of text.now) f.rest [] };
}

impl<'a> Fields<'a> {
    /// All fields of the line.
    pub(crate) fn of(line: &'a [u8]) -> Fields<'a>
        ensures { result ≡ fields_of line.now }
    {
        Fields { rest: Some(line) }
    }

    /// Takes the next field.
    pub(crate) fn next(&mut self) -> Option<&'a [u8]>
        ensures none { result ≡ None → self.old ≡ [] }
        ensures some { IfSome result (λ field. self.old ≡ field.now ∷ self.new) }
    {
        let (field, rest) = cut(self.rest?);
        self.rest = rest;
        Some(field)
    }
}
