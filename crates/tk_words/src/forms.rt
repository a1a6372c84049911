ghost use Rattle.std.specs.Prelude.{◌≡◌, ◌⊎◌, ◌≤◌, IfSome, length, map, nat_lt, option_map, true};
ghost use Rattle.std.specs.List.{list_all};
ghost use Rattle.tk_words.specs.Forms.{are_sources as are_such_sources, connect_in, file_in, from_one_to, inputs_in, listen_in, log_in, milliseconds_in, monitor_in, piece_in, port_in, port_of as port_of_address, seconds_in, times_in, version_in, width_in, yes_in};
ghost use Rattle.tk_base.specs.Digits.{digits_in, short_in};

use tk_base::{Mon, digits_of, short_of};

const MAX_MONITOR: u128 = 64;

const MAX_PIECE: u64 = 65_536;

const MAX_SECONDS: u64 = 3_600;

const MAX_MILLISECONDS: u64 = 60_000;

const MAX_WIDTH: u64 = 1_000_000;

const PORT_DIGITS: usize = 5;

const MAX_PORT: u128 = 65_535;

const MAX_SOURCES: usize = 8;

/// The source that is the standard input.
const INPUT: &str = "-";

/// A number of 1 to 38 decimal digits.
pub fn long_number(text: &str) -> Option<u128>
    ensures { result ≡ digits_in text.now }
{
    digits_of(text.as_bytes())
}

/// A number of 1 to 18 decimal digits.
pub fn short_number(text: &str) -> Option<u64>
    ensures { result ≡ short_in text.now }
{
    short_of(text.as_bytes())
}

/// The number of a monitor: 1 to 64, without a leading zero.
pub fn monitor(text: &[u8]) -> Option<Mon>
    ensures value { option_map (λ m. m.0) result ≡ monitor_in text.now }
    ensures range { IfSome result (λ m. (1 ≤ m.0) × (m.0 ≤ 64)) }
{
    match text {
        [] | [b'0', ..] => None,
        [_, rest @ ..] => {
            if rest.len() > 1 {
                return None;
            }
            let number = digits_of(text)?;
            if 0 < number && number <= MAX_MONITOR {
                Some(Mon(number as u32))
            } else {
                None
            }
        }
    }
}

/// A number from 1 to a limit.
fn from_one(text: &str, most: u64) -> Option<u64>
    ensures value { result ≡ from_one_to most (short_in text.now) }
    ensures range { IfSome result (λ n. (1 ≤ n) × (n ≤ most)) }
{
    let number = short_number(text)?;
    if 0 < number && number <= most {
        Some(number)
    } else {
        None
    }
}

/// The length of a piece: 1 to 65,536.
pub fn piece_length(text: &str) -> Option<u64>
    ensures value { result ≡ piece_in text.now }
    ensures range { IfSome result (λ n. (1 ≤ n) × (n ≤ 65536)) }
{
    from_one(text, MAX_PIECE)
}

/// A time in seconds: 1 to 3,600.
pub fn seconds(text: &str) -> Option<u64>
    ensures value { result ≡ seconds_in text.now }
    ensures range { IfSome result (λ n. (1 ≤ n) × (n ≤ 3600)) }
{
    from_one(text, MAX_SECONDS)
}

/// A time in milliseconds: 1 to 60,000.
pub fn milliseconds(text: &str) -> Option<u64>
    ensures value { result ≡ milliseconds_in text.now }
    ensures range { IfSome result (λ n. (1 ≤ n) × (n ≤ 60000)) }
{
    from_one(text, MAX_MILLISECONDS)
}

/// The width of a window in ticks: 1 to 1,000,000.
pub fn window_width(text: &str) -> Option<u64>
    ensures value { result ≡ width_in text.now }
    ensures range { IfSome result (λ n. (1 ≤ n) × (n ≤ 1000000)) }
{
    from_one(text, MAX_WIDTH)
}

/// How many times: 1 or more.
pub fn times(text: &str) -> Option<u64>
    ensures value { result ≡ times_in text.now }
    ensures range { IfSome result (λ n. 1 ≤ n) }
{
    let number = short_number(text)?;
    if 0 < number { Some(number) } else { None }
}

/// The version of frames: 1 or 2.
pub fn version(text: &str) -> Option<u8>
    ensures value { result ≡ version_in text.now }
    ensures range { IfSome result (λ v. (v ≡ 1) ⊎ (v ≡ 2)) }
{
    if text == "1" {
        Some(1)
    } else if text == "2" {
        Some(2)
    } else {
        None
    }
}

/// The word yes, the only one that is understood.
pub fn yes(text: &str) -> Option<bool>
    ensures { result ≡ yes_in text.now }
{
    if text == "yes" { Some(true) } else { None }
}

/// The word of a file, which has at least one byte.
pub fn file(word: &str) -> Option<&str>
    ensures { option_map (λ s. s.now) result ≡ file_in word.now }
{
    if word.is_empty() { None } else { Some(word) }
}

/// The monitor and the file of a word MON=FILE, where the file may hold further equals signs.
pub fn log_word(word: &str) -> Option<(Mon, &str)>
    ensures value { option_map (λ log. (log.0.0, log.1.now)) result ≡ log_in word.now }
    ensures monitor { IfSome result (λ log. (1 ≤ log.0.0) × (log.0.0 ≤ 64)) }
{
    let (before, after) = word.split_once('=')?;
    let mon = monitor(before.as_bytes())?;
    Some((mon, file(after)?))
}

/// The port that 1 to 5 digits write.
fn port(text: &str) -> Option<u128>
    ensures { result ≡ port_in text.now }
{
    if text.len() > PORT_DIGITS {
        return None;
    }
    let port = digits_of(text.as_bytes())?;
    if port <= MAX_PORT { Some(port) } else { None }
}

/// The port behind the last colon of an address, in front of which stands one byte or more.
fn port_of(address: &str) -> Option<u128>
    ensures { result ≡ port_of_address address.now }
{
    let (host, text) = address.rsplit_once(':')?;
    if host.is_empty() {
        return None;
    }
    port(text)
}

/// An address at which one listens, where port 0 stands for one that the system chooses.
pub fn listened(address: &str) -> Option<&str>
    ensures { option_map (λ s. s.now) result ≡ listen_in address.now }
{
    port_of(address)?;
    Some(address)
}

/// An address to which one connects.
pub fn connected(address: &str) -> Option<&str>
    ensures { option_map (λ s. s.now) result ≡ connect_in address.now }
{
    if port_of(address)? == 0 {
        return None;
    }
    Some(address)
}

/// Whether each of some words has a byte or more.
fn are_named(words: &[&str]) -> bool
    ensures { result ≡ list_all (λ word. nat_lt 0 (length word.now)) words.now }
{
    words.iter().all(|word| !word.is_empty())
}

/// How many of some words are the standard input.
fn inputs(words: &[&str]) -> usize
    ensures { result ≡ inputs_in (map (λ s. s.now) words.now) }
{
    words.iter().filter(|word| **word == INPUT).count()
}

/// Whether these are the sources of a monitor: 1 to 8 files, of which the standard input is one at most once.
pub fn are_sources(words: &[&str]) -> bool
    ensures value { result ≡ are_such_sources (map (λ s. s.now) words.now) }
    ensures count { result ≡ true → (1 ≤ length words.now) × (length words.now ≤ 8) }
{
    if words.is_empty() {
        return false;
    }
    if words.len() > MAX_SOURCES {
        return false;
    }
    if !are_named(words) {
        return false;
    }
    inputs(words) <= 1
}
