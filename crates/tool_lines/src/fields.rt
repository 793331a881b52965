// The fields of a line, one after the other: what stands between its tabs.
ghost use Rattle.std.specs.Prelude.{ℕ, ◌≡◌, List, drop};
ghost use Rattle.std.specs.Iterator.{YieldsFirstRef, item_count};
ghost use Rattle.tool_lines.specs.Line.{fields};
ghost use Rattle.tool_lines.specs.Fields.{fields_from, first_field, noneb};
ghost use Rattle.tool_lines.specs.Digits.{number_of};

use crate::{number, position};
use std::marker::Model;

const TAB: u8 = 9;

// What is left of the line, if a field is.
#[derive(Drop)]
pub struct Fields<'a> {
    rest: Option<&'a [u8]>,
}

impl<'a> Model for Fields<'a> {
    ghost Value = { List (List ℕ) };

    ghost view = { λ fields. fields_from fields.rest };
}

impl<'a> Fields<'a> {
    pub fn of(line: &'a [u8]) -> Self
        ensures { result ≡ fields line.now }
    {
        Fields { rest: Some(line) }
    }

    pub fn is_empty(&self) -> bool
        ensures { result ≡ noneb self.now }
    {
        self.rest.is_none()
    }

    // The number that the next field's digits make up, if there is a field and it is one.
    #[tactic(auto, using(crate::specs::DigitsLaws::no_number))]
    pub fn number(&mut self) -> Option<u32>
        ensures value { result ≡ number_of (first_field self.old) }
        ensures others { self.new ≡ drop 1 self.old }
    {
        number::read(self.next()?)
    }
}

impl<'a> Iterator for Fields<'a> {
    type Item = &'a [u8];

    ghost next_gives = { YieldsFirstRef (λ fields. fields) };

    ghost remaining = { item_count (λ fields. fields) };

    #[tactic(auto, using(crate::specs::FieldsLaws::next_field, crate::specs::FieldsLaws::last_field))]
    fn next(&mut self) -> Option<&'a [u8]> {
        let line = self.rest?;
        match position(line, TAB) {
            Some(end) => {
                self.rest = Some(&line[end + 1..]);
                Some(&line[..end])
            }
            None => {
                self.rest = None;
                Some(line)
            }
        }
    }
}
