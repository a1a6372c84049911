// Which refusal a frame meets, as a function of what the coordinator shows.
ghost use Rattle.std.specs.Prelude.{◌≡◌, false, IfSome, IfNone};
ghost use Rattle.tk_frames.specs.declared.frame.Frame.TheVariants.{Report};
ghost use Rattle.tk_journal.specs.Refusal.{is_awaited as is_awaited_of, refusal_of_awaited, refusal_of_cut, refusal_of_kind, refusal_over};
ghost use Rattle.tk_coord.specs.Checks.{IsKnown, known_in};
ghost use Rattle.tk_coord.specs.Refusals.{Asks, is_report_in, refusal_of_settled, shown_from, shown_in, waits_in, waits_by};

use crate::answer::{Answer, Progress};
use crate::checks::{Known, is_cut, report_refusal, values_refusal};
use crate::peer::Peer;
use crate::round::Round;
use tk_base::{ObjSet, Pairs, Places};
use tk_frames::Frame;
use tk_journal::CoordRefusal;

/// A round that waits for a monitor, and the objects that it asks for.
#[derive(Clone, Copy)]
pub struct Awaited<'a> {
    pub round: u64,
    pub asked: &'a ObjSet,
}

/// What the tests of a frame look at, of one monitor.
#[derive(Clone, Copy)]
pub struct Shown<'a> {
    /// How many Assigns were sent to it.
    pub at: u64,
    /// Whether its current answer is a Report.
    pub reported: bool,
    /// What its last fresh Settled says.
    pub progress: &'a Option<Progress>,
    /// The round that waits for it, with the objects that it asks for.
    pub waits: Option<Awaited<'a>>,
    /// Whether Stop was sent.
    pub stopped: bool,
}

/// Whether a monitor's current answer is a Report.
fn is_reported(peer: &Peer) -> bool
    ensures { result ≡ is_report_in peer.now.answer }
{
    matches!(peer.answer, Some(Answer::Report))
}

/// The round, where it waits for the monitor of a peer.
fn awaited_by<'a>(peer: &Peer, round: &'a Round) -> Option<Awaited<'a>>
    ensures { waits_in result ≡ waits_by peer.now round.now }
{
    if !peer.waits {
        return None;
    }
    Some(Awaited {
        round: round.number,
        asked: &round.asked,
    })
}

/// What the peer of a monitor and the last round show.
pub fn shown_of<'a>(peer: &'a Peer, round: &'a Round, stopped: bool) -> Shown<'a>
    ensures { shown_in result ≡ shown_from peer.now round.now stopped }
{
    Shown {
        at: peer.assigns,
        reported: is_reported(peer),
        progress: &peer.progress,
        waits: awaited_by(peer, round),
        stopped,
    }
}

/// The first test that the frame does not pass, in the order of the tests, if there is one.
pub fn refusal_of(shown: Shown, known: Known, frame: &Frame) -> Option<CoordRefusal>
    requires { IsKnown (known_in known) }
    ensures { result ≡ refusal_over (shown_in shown.entry) (known_in known.entry) frame.now }
{
    if shown.stopped {
        return Some(CoordRefusal::AfterStop);
    }
    match frame {
        Frame::Report {
            seq,
            border,
            failed,
            values,
        } => of_report(shown, known, *seq, *border, failed, values),
        Frame::Values {
            round,
            seq,
            border,
            values,
        } => of_values(shown, known, *round, *seq, *border, values),
        Frame::Settled { seq, last, places } => of_settled(shown, known, *seq, *last, places),
        _ => Some(CoordRefusal::NotForCoordinator(frame.kind())),
    }
}

fn of_report(
    shown: Shown,
    known: Known,
    seq: u64,
    border: i128,
    failed: &ObjSet,
    values: &Pairs,
) -> Option<CoordRefusal>
    requires { IsKnown (known_in known) }
    ensures { result ≡ refusal_of_kind (shown_in shown.entry) (known_in known.entry) (Report seq border failed.now values.now) }
{
    let at = shown.at;
    if seq > at {
        return Some(CoordRefusal::AheadOfSequence { at, got: seq });
    }
    if seq < at {
        return None;
    }
    if shown.reported {
        return Some(CoordRefusal::AfterReport { seq });
    }
    report_refusal(known, border, failed, values)
}

fn of_settled(
    shown: Shown,
    known: Known,
    seq: u64,
    last: bool,
    places: &Places,
) -> Option<CoordRefusal>
    ensures { result ≡ refusal_of_settled (shown_in shown.entry) seq last places.now }
{
    let at = shown.at;
    if seq > at {
        return Some(CoordRefusal::AheadOfSequence { at, got: seq });
    }
    if seq < at {
        return None;
    }
    if shown.reported {
        return Some(CoordRefusal::AfterReport { seq });
    }
    cut_refusal(shown.progress, last, places)
}

/// The places of a Settled are at or past those of the one before it.
fn cut_refusal(before: &Option<Progress>, last: bool, places: &Places) -> Option<CoordRefusal>
    ensures { result ≡ refusal_of_cut before.now last places.now }
{
    if is_cut(before, last, places) {
        return None;
    }
    Some(CoordRefusal::BadCut)
}

/// The objects that the round asks for, where it is the one that waits.
fn asked_in<'a>(waits: Option<Awaited<'a>>, round: u64) -> Option<&'a ObjSet>
    ensures some { IfSome result (λ asked. Asks waits.entry round asked.now) }
    ensures none { IfNone result (is_awaited_of (waits_in waits.entry) round ≡ false) }
{
    match waits {
        Some(awaited) if awaited.round == round => Some(awaited.asked),
        _ => None,
    }
}

fn of_values(
    shown: Shown,
    known: Known,
    round: u64,
    seq: u64,
    border: i128,
    values: &Pairs,
) -> Option<CoordRefusal>
    requires { IsKnown (known_in known) }
    ensures { result ≡ refusal_of_awaited (shown_in shown.entry) (known_in known.entry) round seq border values.now }
{
    let at = shown.at;
    if seq > at {
        return Some(CoordRefusal::AheadOfSequence { at, got: seq });
    }
    let Some(asked) = asked_in(shown.waits, round) else {
        return Some(CoordRefusal::NotAsked { round });
    };
    if seq < at {
        return Some(CoordRefusal::BehindSequence { at, got: seq });
    }
    values_refusal(known, asked, border, values)
}
