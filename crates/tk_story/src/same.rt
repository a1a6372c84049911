//! Whether two entries of a journal, or of a trail, are the same.

ghost use Rattle.std.specs.Prelude.{◌≡◌, ◌↔◌, IsTrue, Some, slice_get};
ghost use Rattle.tk_journal.specs.declared.noted.Noted.TheVariants as n;
ghost use Rattle.tk_trail.specs.declared.entry.Entry.TheVariants as e;

use tk_base::{Feeder, Mon};
use tk_frames::Frame;
use tk_journal::{Noted, Publication};
use tk_trail::Entry;

/// Whether two frames are the same.
pub fn is_same_frame(a: &Frame, b: &Frame) -> bool
    ensures { IsTrue result ↔ (a.now ≡ b.now) }
{
    a == b
}

fn is_same_publication(a: &Publication, b: &Publication) -> bool
    ensures { IsTrue result ↔ (a.now ≡ b.now) }
{
    a.number == b.number
        && a.last == b.last
        && a.k == b.k
        && a.epsilon == b.epsilon
        && a.members == b.members
        && a.cut == b.cut
}

fn is_raise(entry: &Entry, f: Feeder) -> bool
    ensures { IsTrue result ↔ (entry.now ≡ e.Raised f) }
{
    match entry {
        Entry::Raised(g) => g.0 == f.0,
        Entry::Took(_) => false,
        Entry::Sent(_) => false,
    }
}

fn is_taking(entry: &Entry, frame: &Frame) -> bool
    ensures { IsTrue result ↔ (entry.now ≡ e.Took frame.now) }
{
    match entry {
        Entry::Raised(_) => false,
        Entry::Took(other) => is_same_frame(other.get(), frame),
        Entry::Sent(_) => false,
    }
}

fn is_sending(entry: &Entry, frame: &Frame) -> bool
    ensures { IsTrue result ↔ (entry.now ≡ e.Sent frame.now) }
{
    match entry {
        Entry::Raised(_) => false,
        Entry::Took(_) => false,
        Entry::Sent(other) => is_same_frame(other.get(), frame),
    }
}

/// Whether two entries of trails are the same.
pub fn is_same_entry(a: &Entry, b: &Entry) -> bool
    ensures { IsTrue result ↔ (a.now ≡ b.now) }
{
    match b {
        Entry::Raised(f) => is_raise(a, *f),
        Entry::Took(frame) => is_taking(a, frame.get()),
        Entry::Sent(frame) => is_sending(a, frame.get()),
    }
}

fn is_got(noted: &Noted, mon: Mon, frame: &Frame) -> bool
    ensures { IsTrue result ↔ (noted.now ≡ n.Got mon frame.now) }
{
    match noted {
        Noted::Got(from, other) => from.0 == mon.0 && is_same_frame(other.get(), frame),
        Noted::Sent(_, _) => false,
        Noted::Published(_) => false,
        Noted::Tuned(_, _) => false,
    }
}

fn is_sent(noted: &Noted, mon: Mon, frame: &Frame) -> bool
    ensures { IsTrue result ↔ (noted.now ≡ n.Sent mon frame.now) }
{
    match noted {
        Noted::Got(_, _) => false,
        Noted::Sent(to, other) => to.0 == mon.0 && is_same_frame(other.get(), frame),
        Noted::Published(_) => false,
        Noted::Tuned(_, _) => false,
    }
}

fn is_published(noted: &Noted, publication: &Publication) -> bool
    ensures { IsTrue result ↔ (noted.now ≡ n.Published publication.now) }
{
    match noted {
        Noted::Got(_, _) => false,
        Noted::Sent(_, _) => false,
        Noted::Published(other) => is_same_publication(other.get(), publication),
        Noted::Tuned(_, _) => false,
    }
}

fn is_tuned(noted: &Noted, k: u32, epsilon: i128) -> bool
    ensures { IsTrue result ↔ (noted.now ≡ n.Tuned k epsilon) }
{
    match noted {
        Noted::Got(_, _) => false,
        Noted::Sent(_, _) => false,
        Noted::Published(_) => false,
        Noted::Tuned(l, other) => *l == k && other.get() == epsilon,
    }
}

/// Whether two entries of journals are the same.
pub fn is_same_noted(a: &Noted, b: &Noted) -> bool
    ensures { IsTrue result ↔ (a.now ≡ b.now) }
{
    match b {
        Noted::Got(mon, frame) => is_got(a, *mon, frame.get()),
        Noted::Sent(mon, frame) => is_sent(a, *mon, frame.get()),
        Noted::Published(publication) => is_published(a, publication.get()),
        Noted::Tuned(k, epsilon) => is_tuned(a, *k, epsilon.get()),
    }
}
