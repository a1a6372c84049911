ghost use Rattle.std.specs.Prelude.{◌≡◌, ◌≢◌, ◌≤◌, true, Some, None, IfOk, IfSome, IsErrOf, map, codes, string_bytes, option_map};
ghost use Rattle.clap.specs.Words.{all_of, app_of, first_of, found_of, is_simple_and_free, kind_of, rows_of};
ghost use Rattle.tk_words.specs.Clap.{found_in};
ghost use Rattle.tk_words.specs.Forms.{file_in, listen_in};
ghost use Rattle.tk_base.specs.Digits.{digits_in, short_in};
ghost use Rattle.tk_words.specs.Words.{required, seconds_of, silence_of, times_of};

use crate::fault::WordsFault;
use crate::forms::{
    file, listened, long_number, seconds as seconds_written, short_number, times as times_written,
};
use clap::error::ErrorKind;
use clap::{ArgMatches, Command, Error};

/// How many seconds a link may be silent where nothing else is said.
const USUAL_SILENCE: u64 = 20;

fn fault_of(error: Error) -> WordsFault
    ensures { result ≡ WordsFault.Usage → kind_of error ≢ ErrorKind.OutOfMemory }
{
    match error.kind() {
        ErrorKind::OutOfMemory => WordsFault::NoMemory,
        _ => WordsFault::Usage,
    }
}

/// What clap finds in the words of a command, the first of them included.
pub fn parse<'a>(command: Command<'a>, words: &'a [String]) -> Result<ArgMatches<'a>, WordsFault>
    requires { is_simple_and_free (app_of command) ≡ true }
    ensures ok { IfOk result (λ m. found_in (app_of command.entry) (map string_bytes words.entry.now)
        ≡ Some (rows_of (found_of m))) }
    ensures usage { IsErrOf result WordsFault.Usage → found_in (app_of command.entry) (map string_bytes words.entry.now) ≡ None }
{
    match command.try_get_matches_from(words) {
        Ok(matches) => Ok(matches),
        Err(error) => Err(fault_of(error)),
    }
}

/// The value of an option.
pub fn value<'a>(matches: &ArgMatches<'a>, name: &str) -> Option<&'a str>
    ensures { option_map (λ s. s.now) result ≡ first_of name.now (rows_of (found_of matches.now)) }
{
    matches.get_str(name)
}

/// The further words, under their name.
pub fn further<'m, 'a>(matches: &'m ArgMatches<'a>, name: &str) -> Option<&'m [&'a str]>
    ensures { option_map (λ words. map (λ s. s.now) words.now) result ≡ all_of name.now (rows_of (found_of matches.now)) }
{
    matches.get_strs(name)
}

/// The value of a required option, a number of at most 18 digits.
pub fn short(matches: &ArgMatches<'_>, name: &str) -> Option<u64>
    ensures { result ≡ required short_in name.now (rows_of (found_of matches.now)) }
{
    short_number(value(matches, name)?)
}

/// The value of a required option, a number of at most 38 digits.
pub fn long(matches: &ArgMatches<'_>, name: &str) -> Option<u128>
    ensures { result ≡ required digits_in name.now (rows_of (found_of matches.now)) }
{
    long_number(value(matches, name)?)
}

/// The value of a required option, a file.
pub fn named_file<'a>(matches: &ArgMatches<'a>, name: &str) -> Option<&'a str>
    ensures { option_map (λ s. s.now) result ≡ required file_in name.now (rows_of (found_of matches.now)) }
{
    file(value(matches, name)?)
}

/// The value of an option, a number of times, where it is written.
pub fn times(matches: &ArgMatches<'_>, name: &str) -> Option<Option<u64>>
    ensures value { result ≡ times_of name.now (rows_of (found_of matches.now)) }
    ensures range { IfSome result (λ written. IfSome written (λ n. 1 ≤ n)) }
{
    match value(matches, name) {
        None => Some(None),
        Some(text) => Some(Some(times_written(text)?)),
    }
}

/// The value of an option, a time in seconds, where it is written.
pub fn seconds(matches: &ArgMatches<'_>, name: &str) -> Option<Option<u64>>
    ensures value { result ≡ seconds_of name.now (rows_of (found_of matches.now)) }
    ensures range { IfSome result (λ written. IfSome written (λ n. (1 ≤ n) × (n ≤ 3600))) }
{
    match value(matches, name) {
        None => Some(None),
        Some(text) => Some(Some(seconds_written(text)?)),
    }
}

/// The optional silence, 20 seconds where there is none.
pub fn silence(matches: &ArgMatches<'_>) -> Option<u64>
    ensures value { result ≡ silence_of (rows_of (found_of matches.now)) }
    ensures range { IfSome result (λ n. (1 ≤ n) × (n ≤ 3600)) }
{
    match value(matches, "silence") {
        None => Some(USUAL_SILENCE),
        Some(text) => seconds_written(text),
    }
}

/// The address at which one listens.
pub fn listen_address<'a>(matches: &ArgMatches<'a>) -> Option<&'a str>
    ensures { option_map (λ s. s.now) result ≡ required listen_in (codes "listen") (rows_of (found_of matches.now)) }
{
    listened(value(matches, "listen")?)
}
