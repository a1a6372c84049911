//! Plain texts, in which csv treats nothing apart but commas and line feeds, so that they are cut without it.

ghost use Rattle.std.specs.Prelude.{◌≡◌, ◌<◌, length, option_map};
ghost use Rattle.tk_input.specs.Log.{both_fields};
ghost use Rattle.tk_input.specs.Plain.{cut_fields, cut_records, is_plain as is_plain_of, with_line};

use crate::place::place_of;
use memchr::memchr3;

/// The first byte of a byte order mark.
const ORDER_MARK: u8 = 0xef;

/// Whether a text has no quote, no carriage return and no byte order mark.
pub fn is_plain(text: &[u8]) -> bool
    ensures { result ≡ is_plain_of text.now }
{
    memchr3(b'"', b'\r', ORDER_MARK, text).is_none()
}

/// The first line of a text, and what stands behind its line feed.
pub fn split_line(text: &[u8]) -> (&[u8], &[u8])
    requires { 0 < length text.now }
    ensures records { cut_records text.now ≡ with_line result.0.now (cut_records result.1.now) }
    ensures rest { length result.1.now < length text.now }
{
    match place_of(text, b'\n') {
        Some(place) => (&text[..place], &text[place + 1..]),
        None => (text, &text[text.len()..]),
    }
}

/// The fields of a line that has two.
pub fn both_in(line: &[u8]) -> Option<(&[u8], &[u8])>
    ensures { option_map (λ p. (p.0.now, p.1.now)) result ≡ both_fields (cut_fields line.now) }
{
    let place = place_of(line, b',')?;
    let text = &line[place + 1..];
    if place_of(text, b',').is_some() {
        return None;
    }
    Some((&line[..place], text))
}
