ghost use Rattle.std.specs.Prelude.{◌≡◌, map, string_bytes};
ghost use Rattle.tk_words.specs.Words.{verb_called, verb_named as verb_named_by, verb_of as verb_of_words};

/// The command that the first word names.
#[derive(Clone, Copy, Debug, PartialEq, Eq)]
pub enum Verb {
    Replay,
    Generate,
    Live,
    Window,
    Multi,
    Sessions,
    Trace,
    Check,
    Show,
    Coordinate,
    Monitor,
    Help,
    Version,
}

/// The command of this name.
pub fn verb_named(word: &str) -> Option<Verb>
    ensures { result ≡ verb_named_by word.now }
{
    if word == "replay" {
        Some(Verb::Replay)
    } else if word == "gen" {
        Some(Verb::Generate)
    } else if word == "live" {
        Some(Verb::Live)
    } else if word == "window" {
        Some(Verb::Window)
    } else if word == "multi" {
        Some(Verb::Multi)
    } else if word == "sessions" {
        Some(Verb::Sessions)
    } else if word == "trace" {
        Some(Verb::Trace)
    } else if word == "check" {
        Some(Verb::Check)
    } else if word == "show" {
        Some(Verb::Show)
    } else if word == "coordinate" {
        Some(Verb::Coordinate)
    } else if word == "monitor" {
        Some(Verb::Monitor)
    } else if word == "help" {
        Some(Verb::Help)
    } else if word == "version" {
        Some(Verb::Version)
    } else {
        None
    }
}

/// The command that the first word names, which may be another name of help or of version.
fn verb_in(word: &str) -> Option<Verb>
    ensures { result ≡ verb_called word.now }
{
    if word == "--help" || word == "-h" {
        Some(Verb::Help)
    } else if word == "--version" || word == "-V" {
        Some(Verb::Version)
    } else {
        verb_named(word)
    }
}

/// The command of some words.
pub fn verb_of(words: &[String]) -> Option<Verb>
    ensures { result ≡ verb_of_words (map string_bytes words.now) }
{
    match words {
        [] => None,
        [word, ..] => verb_in(word.as_str()),
    }
}
