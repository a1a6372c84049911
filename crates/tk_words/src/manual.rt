//! What `help` and `version` write.
//!
//! Each text has lines of at most 80 bytes. No proof looks into one: they have names of their own, and the definition of what
//! a command writes is by these.

ghost use Rattle.std.specs.Prelude.{◌≡◌};
ghost use Rattle.tk_words.specs.Manual.{manual_text, version_text};

use crate::verb::Verb;

/// Each command, and what it is for.
const OVERVIEW: &[u8] = b"\
topk replay --k N --epsilon N --objects FILE [OPTIONS] MON=FILE ..\n\
\x20   runs over change logs and prints each published set, then a ledger\n\
topk window --width N [THE WORDS OF replay]\n\
\x20   the same over the sums of the last N ticks\n\
topk multi --objects FILE --queries FILE [--order FILE] MON=FILE ..\n\
\x20   several queries over the same logs\n\
topk sessions --k N --epsilon N --objects FILE [OPTIONS] MON=FILE ..\n\
\x20   a run whose coordinator may restart\n\
topk trace [THE WORDS OF replay]\n\
\x20   runs, and writes the run itself in bytes\n\
topk check FILE         tells whether a file is such a trace, with its sets\n\
topk show FILE          prints what happened in the run that it tells\n\
topk live --k N --epsilon N --objects FILE [OPTIONS] MON=FILE ..\n\
\x20   runs in threads of its own, over sockets of this machine\n\
topk gen --seed N --monitors N --objects N --updates N --k N --epsilon N\n\
\x20   runs over logs that are made from a seed\n\
topk coordinate --monitors M --k K --epsilon E --objects FILE --run N\n\
\x20               --listen ADDRESS:PORT [OPTIONS]\n\
\x20   the coordinator of monitors on other hosts\n\
topk monitor --number J --objects FILE --run N --connect HOST:PORT [OPTIONS]\n\
\x20            SOURCE ..\n\
\x20   one of these monitors\n\
topk help [COMMAND]     these lines, or the options of a command\n\
topk version            the version\n";

/// The options of `replay`, and an example.
const REPLAY: &[u8] = b"\
topk replay --k N --epsilon N --objects FILE [--own-weight N] [--order FILE]\n\
\x20           [--piece N] [--frames V] MON=FILE ..\n\
\n\
Runs over change logs in one fixed order. It prints each published set with the\n\
log prefixes of which it speaks, and then a ledger of messages.\n\
\n\
\x20 --k N           how many members a set has: 1 to 1024, at most the objects\n\
\x20 --epsilon N     how far a member may be below an outsider: 0 to 2^100\n\
\x20 --objects FILE  the names of the objects, one a line: 1 to 65536\n\
\x20 --own-weight N  the coordinator's share of leeway: 0 to 1000; 1 if left out\n\
\x20 --order FILE    events that happen first; the rest of the logs follows\n\
\x20 --piece N       how many bytes move at a time: 1 to 65536; 4096 if left out\n\
\x20 --frames V      the form of messages: 1 or 2; 1 if left out\n\
\x20 MON=FILE        a log of monitor MON, 1 to 64: lines as a,5 and a,-5; up to 8\n\
\n\
topk replay --k 1 --epsilon 0 --objects objects.csv 1=one.csv 2=two.csv\n";

/// The options of `window`, and an example.
const WINDOW: &[u8] = b"\
topk window --width N --k N --epsilon N --objects FILE [--own-weight N]\n\
\x20           [--order FILE] [--piece N] [--frames V] MON=FILE ..\n\
\n\
Runs over the sums of the last N ticks. A record of the single field tick ends\n\
a tick of a log.\n\
\n\
\x20 --width N       how many ticks the window has: 1 to 1000000\n\
\x20 --k N           how many members a set has: 1 to 1024, at most the objects\n\
\x20 --epsilon N     how far a member may be below an outsider: 0 to 2^100\n\
\x20 --objects FILE  the names of the objects, one a line: 1 to 65536\n\
\x20 --own-weight N  the coordinator's share of leeway: 0 to 1000; 1 if left out\n\
\x20 --order FILE    events that happen first; the rest of the logs follows\n\
\x20 --piece N       how many bytes move at a time: 1 to 65536; 4096 if left out\n\
\x20 --frames V      the form of messages: 1 or 2; 1 if left out\n\
\x20 MON=FILE        a log of monitor MON, 1 to 64: lines as a,5 and a,-5; up to 8\n\
\n\
topk window --width 3 --k 2 --epsilon 1 --objects objects.csv 1=east.csv\n";

/// The options of `multi`, and an example.
const MULTI: &[u8] = b"\
topk multi --objects FILE --queries FILE [--order FILE] MON=FILE ..\n\
\n\
Runs several queries over the same logs, each as if it were alone.\n\
\n\
\x20 --objects FILE  the names of the objects, one a line: 1 to 65536\n\
\x20 --queries FILE  1 to 16 records: a name, a k, an epsilon and a prefix; a query\n\
\x20                 watches the objects whose names begin with its prefix\n\
\x20 --order FILE    events that happen first; the rest of the logs follows\n\
\x20 MON=FILE        a log of monitor MON, 1 to 64: lines as a,5 and a,-5; up to 8\n\
\n\
topk multi --objects objects.csv --queries queries.csv 1=one.csv 2=two.csv\n";

/// The options of `sessions`, and an example.
const SESSIONS: &[u8] = b"\
topk sessions --k N --epsilon N --objects FILE [--own-weight N] [--order FILE]\n\
\x20             MON=FILE ..\n\
\n\
Runs with a coordinator that restarts at each line restart of the order, at\n\
most 15 of them. The monitors keep their places.\n\
\n\
\x20 --k N           how many members a set has: 1 to 1024, at most the objects\n\
\x20 --epsilon N     how far a member may be below an outsider: 0 to 2^100\n\
\x20 --objects FILE  the names of the objects, one a line: 1 to 65536\n\
\x20 --own-weight N  the coordinator's share of leeway: 0 to 1000; 1 if left out\n\
\x20 --order FILE    events that happen first; the rest of the logs follows\n\
\x20 MON=FILE        a log of monitor MON, 1 to 64: lines as a,5 and a,-5; up to 8\n\
\n\
topk sessions --k 1 --epsilon 0 --objects objects.csv --order order.txt 1=a.csv\n";

/// The options of `trace`, and an example.
const TRACE: &[u8] = b"\
topk trace --k N --epsilon N --objects FILE [--own-weight N] [--order FILE]\n\
\x20          [--piece N] [--frames V] MON=FILE ..\n\
\n\
Runs as replay, and writes the run itself in bytes, for topk check.\n\
\n\
\x20 --k N           how many members a set has: 1 to 1024, at most the objects\n\
\x20 --epsilon N     how far a member may be below an outsider: 0 to 2^100\n\
\x20 --objects FILE  the names of the objects, one a line: 1 to 65536\n\
\x20 --own-weight N  the coordinator's share of leeway: 0 to 1000; 1 if left out\n\
\x20 --order FILE    events that happen first; the rest of the logs follows\n\
\x20 --piece N       how many bytes move at a time: 1 to 65536; 4096 if left out\n\
\x20 --frames V      the form of messages: 1 or 2; 1 if left out\n\
\x20 MON=FILE        a log of monitor MON, 1 to 64: lines as a,5 and a,-5; up to 8\n\
\n\
topk trace --k 1 --epsilon 0 --objects objects.csv 1=one.csv >run.trace\n";

/// The options of `check`, and an example.
const CHECK: &[u8] = b"\
topk check FILE\n\
\n\
Drives fresh nodes over the run that a file tells, whoever made it. If all of\n\
it is legal and came to its end, it prints the published sets and yes.\n\
\n\
\x20 FILE            a trace, as topk trace writes it\n\
\n\
topk check run.trace\n";

/// The options of `show`, and an example.
const SHOW: &[u8] = b"\
topk show FILE\n\
\n\
Prints what happened in the run that a trace tells, whoever made it: each event\n\
in a legal order, with what the node took and what it sent.\n\
\n\
\x20 FILE            a trace, as topk trace writes it\n\
\n\
topk show run.trace\n";

/// The options of `live`, and an example.
const LIVE: &[u8] = b"\
topk live --k N --epsilon N --objects FILE [--own-weight N] [--frames V]\n\
\x20         MON=FILE ..\n\
\n\
Runs each monitor and each log in a thread of its own, over sockets of this\n\
machine. Which sets come on the way may differ from run to run.\n\
\n\
\x20 --k N           how many members a set has: 1 to 1024, at most the objects\n\
\x20 --epsilon N     how far a member may be below an outsider: 0 to 2^100\n\
\x20 --objects FILE  the names of the objects, one a line: 1 to 65536\n\
\x20 --own-weight N  the coordinator's share of leeway: 0 to 1000; 1 if left out\n\
\x20 --frames V      the form of messages: 1 or 2; 1 if left out\n\
\x20 MON=FILE        a log of monitor MON, 1 to 64: lines as a,5 and a,-5; up to 8\n\
\n\
topk live --k 1 --epsilon 0 --objects objects.csv 1=one.csv 2=two.csv\n";

/// The options of `gen`, and an example.
const GENERATE: &[u8] = b"\
topk gen --seed N --monitors N --objects N --updates N --k N --epsilon N\n\
\n\
Makes logs from a seed, runs over them, and prints a summary.\n\
\n\
\x20 --seed N        the seed: any number of up to 18 digits\n\
\x20 --monitors N    how many monitors: 1 to 64\n\
\x20 --objects N     how many objects: 1 to 65536\n\
\x20 --updates N     how many changes: 0 to 1000000\n\
\x20 --k N           how many members a set has: 1 to 1024, at most the objects\n\
\x20 --epsilon N     how far a member may be below an outsider: 0 to 2^100\n\
\n\
topk gen --seed 7 --monitors 8 --objects 256 --updates 20000 --k 10 --epsilon 50\n";

/// The options of `coordinate`, and an example.
const COORDINATE: &[u8] = b"\
topk coordinate --monitors M --k K --epsilon E --objects FILE --run N\n\
\x20               --listen ADDRESS:PORT [--own-weight W] [--silence S]\n\
\x20               [--sessions C] [--missing T]\n\
\n\
Listens for its monitors, which run on other hosts, and prints each new set.\n\
\n\
\x20 --monitors M    how many monitors there are: 1 to 64\n\
\x20 --k K           how many members a set has: 1 to 1024, at most the objects\n\
\x20 --epsilon E     how far a member may be below an outsider: 0 to 2^100\n\
\x20 --objects FILE  the names of the objects, one a line: 1 to 65536\n\
\x20 --run N         the number of the run, the same at each monitor\n\
\x20 --listen A:P    where it listens; with port 0 the system chooses one\n\
\x20 --own-weight W  its share of leeway: 0 to 1000; 1 if left out\n\
\x20 --silence S     how many seconds a link may be silent: 1 to 3600; 20 if left\n\
\x20                 out\n\
\x20 --sessions C    after how many sessions it ends: 1 or more; only behind a\n\
\x20                 final set if left out\n\
\x20 --missing T     for how many seconds it waits for a monitor: 1 to 3600; then it\n\
\x20                 goes on without it; for ever if left out\n\
\n\
topk coordinate --monitors 2 --k 1 --epsilon 0 --objects objects.csv --run 5\n\
\x20               --listen 0.0.0.0:7070\n";

/// The options of `monitor`, and an example.
const MONITOR: &[u8] = b"\
topk monitor --number J --objects FILE --run N --connect HOST:PORT\n\
\x20            [--frames V] [--pause T] [--silence S] [--tries C]\n\
\x20            [--skip-bad yes] [--width D] [--tick S] SOURCE ..\n\
\n\
Counts the objects of its sources, and reports to its coordinator.\n\
\n\
\x20 --number J      which monitor this is: 1 to 64, each number once in a run\n\
\x20 --objects FILE  the names of the objects, the same as the coordinator's\n\
\x20 --run N         the number of the run, the same as the coordinator's\n\
\x20 --connect H:P   where the coordinator listens\n\
\x20 --frames V      the form of messages: 1 or 2; 1 if left out\n\
\x20 --pause T       how many milliseconds it waits before it connects again: 1 to\n\
\x20                 60000; 500 if left out\n\
\x20 --silence S     how many seconds a link may be silent: 1 to 3600; 20 if left\n\
\x20                 out\n\
\x20 --tries C       after how many tries in a row that nobody answered it ends:\n\
\x20                 1 or more; never if left out\n\
\x20 --skip-bad yes  a bad line of a source is passed over and counted\n\
\x20 --width D       it counts the last D ticks alone: 1 to 1000000; all if left out\n\
\x20 --tick S        a tick takes S seconds, 1 to 3600; if left out, a line tick\n\
\x20                 ends one\n\
\x20 SOURCE          a stream, 1 to 8 of them, read line by line until it ends:\n\
\x20                 lines as a,5 and a,-5; - is the standard input, once at most\n\
\n\
topk monitor --number 1 --objects objects.csv --run 5 --connect host:7070 a.csv\n";

/// The options of `help`, and an example.
const HELP: &[u8] = b"\
topk help [COMMAND]\n\
\n\
Prints each command in short, or the options of one. So do topk --help and\n\
topk -h.\n\
\n\
\x20 COMMAND         replay, window, multi, sessions, trace, check, show, live,\n\
\x20                 gen, coordinate, monitor, help or version\n\
\n\
topk help monitor\n";

/// The options of `version`, and an example.
const VERSION: &[u8] = b"\
topk version\n\
\n\
Prints the version of the program. So do topk --version and topk -V.\n\
\n\
topk version\n";

/// The program and its version.
const NUMBER: &[u8] = b"\
topk 1.0\n";

/// The text of `help`: of one command, where it is named.
pub fn manual_of(command: Option<Verb>) -> &'static [u8]
    ensures { result.now ≡ manual_text command }
{
    match command {
        None => OVERVIEW,
        Some(Verb::Replay) => REPLAY,
        Some(Verb::Generate) => GENERATE,
        Some(Verb::Live) => LIVE,
        Some(Verb::Window) => WINDOW,
        Some(Verb::Multi) => MULTI,
        Some(Verb::Sessions) => SESSIONS,
        Some(Verb::Trace) => TRACE,
        Some(Verb::Check) => CHECK,
        Some(Verb::Show) => SHOW,
        Some(Verb::Coordinate) => COORDINATE,
        Some(Verb::Monitor) => MONITOR,
        Some(Verb::Help) => HELP,
        Some(Verb::Version) => VERSION,
    }
}

/// The text of `version`.
pub fn version_line() -> &'static [u8]
    ensures { result.now ≡ version_text }
{
    NUMBER
}
