//! What stands at the front of the bytes that were read of a stream: a line, one that is too long, or not yet a whole one.

ghost use Rattle.std.specs.Prelude.{◌≡◌, ◌==◌, position, length};
ghost use Rattle.std.specs.Str.Lines.{strip_carriage_return};
ghost use Rattle.tk_stream.specs.Front.{IsFront};

/// The most bytes that are held: those of a line that is not too long, a carriage return and a line feed.
pub const MOST_HELD: usize = 65_538;

/// What stands at the front.
pub enum Front<'a> {
    /// A line, and how many bytes it takes with its end.
    Line(&'a [u8], usize),
    /// A line that is too long, whose end is not here.
    TooLong,
    /// No whole line.
    Part,
    /// Nothing, at the end.
    Nothing,
}

/// The place of the first line feed.
pub fn feed_in(bytes: &[u8]) -> Option<usize>
    ensures { result ≡ position (λ b. b == 10) bytes.now }
{
    bytes.iter().position(|b| *b == b'\n')
}

fn strip_return(line: &[u8]) -> &[u8]
    ensures { result.now ≡ strip_carriage_return line.now }
{
    match line {
        [front @ .., b'\r'] => front,
        whole => whole,
    }
}

/// What stands at the front of the bytes that are held, of which there are no more where the stream has ended.
pub fn front_of(held: &[u8], ended: bool) -> Front<'_>
    ensures { IsFront result held.now ended }
{
    match feed_in(held) {
        Some(place) => Front::Line(strip_return(&held[..place]), place + 1),
        None if held.len() >= MOST_HELD => Front::TooLong,
        None if !ended => Front::Part,
        None if held.is_empty() => Front::Nothing,
        None => Front::Line(held, held.len()),
    }
}
