//! What holds of the journal with which a hub begins, and of the lines that it writes turn after turn.

ghost use Rattle.std.specs.Prelude.{◌≡◌, ℕ, [], List};
ghost use Rattle.tk_journal.specs.Legal.{Opening, inputs_of, opened};
ghost use Rattle.tk_journal.specs.declared.noted.Noted.{Noted};
ghost use Rattle.tk_hub.specs.Writing.{TextAddsUp, TextIsWhole, TextStays};
ghost use Rattle.tk_hub.specs.declared.lines.Lines.{Lines};

/// The journal of a new coordinator has no input yet.
pub fn an_opening_has_no_input()
    ensures { (opening : Opening) → inputs_of (opened opening) ≡ [] }
{}

/// What is written of a journal stays so as it grows.
pub fn written_lines_stay()
    ensures { (names : List (List ℕ)) (old new : List Noted) (lines : Lines) → TextStays names old new lines }
{}

/// The lines that are written turn after turn are those of the whole journal.
pub fn written_lines_add_up()
    ensures { (names : List (List ℕ)) (journal : List Noted) (from to : Lines) → TextAddsUp names journal from to }
{}

/// Where all entries are passed, the lines of all publications are written.
pub fn all_lines_are_written()
    ensures { (names : List (List ℕ)) (journal : List Noted) (lines : Lines) → TextIsWhole names journal lines }
{}
