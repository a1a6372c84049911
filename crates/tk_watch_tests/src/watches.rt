//! Watches in memory over the objects a and b, of run 5.

ghost use Rattle.std.specs.Prelude.{◌≡◌, ◌≤◌, IfSome, length};
ghost use Rattle.tk_watch.specs.Fresh.{IsUncounted};
ghost use Rattle.tk_watch.specs.Watch.{named_of};

use std::alloc::Global;
use tk_base::{Mon, Settings};
use tk_input::Catalog;
use tk_net::{DialedLink, MemLink};
use tk_watch::Watch;

/// A watch in memory.
pub(crate) type Sample = Watch<DialedLink<MemLink>>;

/// The objects a and b.
pub(crate) fn names(alloc: Global) -> Option<Catalog>
    ensures { IfSome result (λ names. length names ≡ 2) }
{
    let names = Catalog::read(alloc, b"a\nb\n").ok()?;
    if names.len() != 2 {
        drop(names);
        return None;
    }
    Some(names)
}

/// Monitor 1 over so many streams, which was told nothing.
pub(crate) fn new_watch(alloc: Global, streams: u32) -> Option<Sample>
    requires { (1 ≤ streams) × (streams ≤ 8) }
    ensures objects { IfSome result (λ w. (named_of w).objects ≡ 2) }
    ensures streams { IfSome result (λ w. (named_of w).streams ≡ streams) }
    ensures uncounted { IfSome result (λ w. IsUncounted w) }
{
    let settings = Settings::new(1, 0, 1, 2, 1).ok()?;
    Watch::new(alloc, &settings, Mon(1), streams, 5, 1).ok()
}
