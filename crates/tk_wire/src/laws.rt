//! What holds of every wire and every buffer.

ghost use Rattle.std.specs.Prelude.{◌≤◌, ◌<◌, ◌^◌, ◌++◌, ℕ, List, take, drop};
ghost use Rattle.tk_wire.specs.Meanings.{Traffic, Arrives, Departs, HasRisen, raised_by};
ghost use Rattle.tk_wire.specs.PipeWire.{drained, filled};
ghost use Rattle.tk_wire.specs.Joint.{Joins, BeginsWith};
ghost use Rattle.tk_wire.specs.Laws.{AllParsesAreFrontsOfOne, BytesAreOfOneGreeting, GreetingsHaveOneSize, EachStreamHasOneParse, FrameExtendsTheEncoding, FrameExtendsTheParse, PieceLeavesTheEncoding, PieceLeavesTheParse};

/// What is pulled is appended to what came and to what is left, so the frames that were read stay a front.
pub fn a_piece_leaves_the_parse()
    ensures { PieceLeavesTheParse }
{}

/// A frame that was read and removed goes to the end of the parse.
pub fn a_frame_extends_the_parse()
    ensures { FrameExtendsTheParse }
{}

/// In whatever pieces bytes came, they are the same frames and then the same rest.
pub fn each_stream_has_one_parse()
    ensures { EachStreamHasOneParse }
{}

/// Who has read fewer frames of the same bytes has read the first of them.
pub fn all_parses_are_fronts_of_one()
    ensures { AllParsesAreFrontsOfOne }
{}

/// A frame that was added goes to the end of what is given and left.
pub fn a_frame_extends_the_encoding()
    ensures { FrameExtendsTheEncoding }
{}

/// A piece that was given changes nothing of what given and left are together.
pub fn a_piece_leaves_the_encoding()
    ensures { PieceLeavesTheEncoding }
{}

/// Bytes that go from wire to wire through a pipe keep their order, in whatever pieces they go.
pub fn pieces_keep_their_order()
    ensures given { (from to next : Traffic) (between bytes : List ℕ)
        → Joins from to between → Departs bytes from next → Joins next to between }
    ensures drained { (from to : Traffic) (between : List ℕ) (n : ℕ)
        → Joins from to between → Joins (drained n from) to (between ++ take n from.held) }
    ensures filled { (from to : Traffic) (between : List ℕ) (n : ℕ)
        → Joins from to between → Joins from (filled (take n between) to) (drop n between) }
    ensures taken { (from to next : Traffic) (between bytes : List ℕ)
        → Joins from to between → Arrives bytes to next → Joins from next between }
    ensures front { (from to : Traffic) (between : List ℕ)
        → Joins from to between → BeginsWith to.came from.went }
{}

/// A count rises with what it counts, unless it stands at the greatest u64, and no count falls.
pub fn counts_rise()
    ensures rises { (n count : ℕ) → 0 < n → HasRisen count (raised_by n count) }
    ensures stays { (n count : ℕ) → count < 2 ^ 64 → count ≤ raised_by n count }
{}

/// Bytes are those of one greeting at most, so a greeting that was put is read as it was.
pub fn bytes_are_of_one_greeting()
    ensures { BytesAreOfOneGreeting }
{}

/// A greeting has 113 bytes.
pub fn greetings_have_one_size()
    ensures { GreetingsHaveOneSize }
{}
