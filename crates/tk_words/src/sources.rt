ghost use Rattle.std.specs.Prelude.{◌≡◌, Some, None, IfOk, IsErrOf, map, codes, option_map};
ghost use Rattle.clap.specs.Words.{found_of, rows_of};
ghost use Rattle.tk_words.specs.Asked.{AreOfMonitors, asked_logs, asked_sources, text_in};
ghost use Rattle.tk_words.specs.Forms.{logs_in};
ghost use Rattle.tk_base.specs.Digits.{short_in};
ghost use Rattle.tk_words.specs.Words as spec;
ghost use Rattle.tk_words.specs.Words.{logs_of, optional, order_of};

use crate::fault::WordsFault;
use crate::forms::{file, log_word, short_number};
use crate::parsing::{further, long, named_file, short, value};
use clap::ArgMatches;
use std::alloc::Global;
use tk_base::Mon;

/// Where a run finds its input: the numbers of its settings, its files, and the window over them.
#[derive(Drop)]
pub struct Sources<'a> {
    pub k: u64,
    pub epsilon: u128,
    pub own_weight: u64,
    pub objects: &'a str,
    pub order: Option<&'a str>,
    /// The width of the window, in ticks, where the logs have such.
    pub width: Option<u64>,
    /// The logs in the order of the words; those of one monitor become its feeders.
    pub logs: Vec<(Mon, &'a str)>,
}

/// The optional own weight, 1 where there is none.
pub fn own_weight(matches: &ArgMatches<'_>) -> Option<u64>
    ensures { result ≡ optional short_in (codes "own-weight") 1 (rows_of (found_of matches.now)) }
{
    match value(matches, "own-weight") {
        None => Some(1),
        Some(text) => short_number(text),
    }
}

fn logs_from<'a>(alloc: Global, words: &[&'a str]) -> Result<Vec<(Mon, &'a str)>, WordsFault>
    ensures ok { IfOk result (λ logs. logs_in (map (λ s. s.now) words.now) ≡ Some (asked_logs logs.items)) }
    ensures usage { IsErrOf result WordsFault.Usage → logs_in (map (λ s. s.now) words.now) ≡ None }
    ensures monitors { IfOk result (λ logs. AreOfMonitors logs.items) }
{
    let mut logs = Vec::new(alloc);
    for word in words {
        let Some(log) = log_word(word) else {
            return Err(WordsFault::Usage);
        };
        logs.push(log)?;
    }
    Ok(logs)
}

/// The logs that are named, each of a monitor.
pub fn logs<'a>(alloc: Global, matches: &ArgMatches<'a>) -> Result<Vec<(Mon, &'a str)>, WordsFault>
    ensures ok { IfOk result (λ logs. logs_of (rows_of (found_of matches.now)) ≡ Some (asked_logs logs.items)) }
    ensures usage { IsErrOf result WordsFault.Usage → logs_of (rows_of (found_of matches.now)) ≡ None }
    ensures monitors { IfOk result (λ logs. AreOfMonitors logs.items) }
{
    match further(matches, "log") {
        None => Err(WordsFault::Usage),
        Some(words) => logs_from(alloc, words),
    }
}

/// The optional order file.
pub fn order<'a>(matches: &ArgMatches<'a>) -> Option<Option<&'a str>>
    ensures { option_map (option_map (λ s. s.now)) result ≡ order_of (rows_of (found_of matches.now)) }
{
    match value(matches, "order") {
        None => Some(None),
        Some(text) => Some(Some(file(text)?)),
    }
}

/// The settings, the objects and the logs, with this order and this window.
pub fn sources_with<'a>(
    alloc: Global,
    matches: &ArgMatches<'a>,
    order: Option<&'a str>,
    width: Option<u64>,
) -> Result<Sources<'a>, WordsFault>
    ensures ok { IfOk result (λ r. spec.sources_with (text_in order.entry) width (rows_of (found_of matches.now))
        ≡ Some (asked_sources r)) }
    ensures usage { IsErrOf result WordsFault.Usage
        → spec.sources_with (text_in order.entry) width (rows_of (found_of matches.now)) ≡ None }
    ensures monitors { IfOk result (λ r. AreOfMonitors r.logs.items) }
{
    let Some(k) = short(matches, "k") else {
        return Err(WordsFault::Usage);
    };
    let Some(epsilon) = long(matches, "epsilon") else {
        return Err(WordsFault::Usage);
    };
    let Some(own_weight) = own_weight(matches) else {
        return Err(WordsFault::Usage);
    };
    let Some(objects) = named_file(matches, "objects") else {
        return Err(WordsFault::Usage);
    };
    let logs = logs(alloc, matches)?;
    Ok(Sources {
        k,
        epsilon,
        own_weight,
        objects,
        order,
        width,
        logs,
    })
}
