//! The lines of an order file.

ghost use Rattle.std.specs.Prelude.{◌≡◌, ◌<◌, ◌==◌, ◌∷◌, [], IfSome, length, None, position};
ghost use Rattle.std.specs.Option.{option_map_or};
ghost use Rattle.std.specs.Str.Lines.{lines, strip_carriage_return};
ghost use Rattle.tk_input.specs.Order.{filled, numbered, words};

use crate::place::place_of;
use std::marker::Model;

/// The lines of a text that are still to be read and are not empty, each with its number. Lines count from 1, with the
/// empty ones. A carriage return in front of a line feed is no part of a line.
#[derive(Debug, Drop)]
pub struct Lines<'a> {
    rest: &'a [u8],
    number: u32,
}

impl<'a> Model for Lines<'a> {
    ghost use Rattle.std.specs.Prelude.{ℕ, List};

    ghost Value = { List (ℕ × List ℕ) };

    ghost use Rattle.tk_input.specs.Order.{left_after};

    ghost view = { λ l. left_after l.number l.rest.now };
}

/// The first word of a line, and what follows it behind a space.
pub fn split_word(text: &[u8]) -> (&[u8], Option<&[u8]>)
    ensures { words text.now ≡ result.0.now ∷ option_map_or (λ rest. words rest.now) result.1 [] }
{
    match place_of(text, b' ') {
        Some(place) => (&text[..place], Some(&text[place + 1..])),
        None => (text, None),
    }
}

fn strip_return(line: &[u8]) -> &[u8]
    ensures { result.now ≡ strip_carriage_return line.now }
{
    match line {
        [front @ .., b'\r'] => front,
        whole => whole,
    }
}

fn split_line(text: &[u8]) -> (&[u8], &[u8])
    requires { 0 < length text.now }
    ensures lines { lines text.now ≡ result.0.now ∷ lines result.1.now }
    ensures rest { length result.1.now < length text.now }
{
    match place_of(text, b'\n') {
        Some(place) => (strip_return(&text[..place]), &text[place + 1..]),
        None => (text, &text[text.len()..]),
    }
}

impl<'a> Lines<'a> {
    /// All lines of a text are still to be read.
    pub fn new(text: &'a [u8]) -> Lines<'a>
        ensures { result ≡ filled (numbered 1 (lines text.now)) }
    {
        Lines {
            rest: text,
            number: 0,
        }
    }

    /// The next line that is not empty, with its number.
    pub fn next(&mut self) -> Option<(u32, &'a [u8])>
        ensures some { IfSome result (λ line. self.old ≡ (line.0, line.1.now) ∷ self.new) }
        ensures none { result ≡ None → self.old ≡ [] }
        ensures ended { result ≡ None → self.new ≡ [] }
    {
        while !self.rest.is_empty() {
            let (line, rest) = split_line(self.rest);
            self.rest = rest;
            self.number = self.number.saturating_add(1);
            if !line.is_empty() {
                return Some((self.number, line));
            }
        }
        None
    }
}
