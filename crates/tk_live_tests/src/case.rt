//! Live runs over the objects a and b.
ghost use Rattle.std.specs.Prelude.{◌≡◌, ◌≤◌, IfSome};
ghost use Rattle.tk_load.specs.Whole.{AreAgreed};

use std::alloc::Global;
use tk_base::{Mon, Settings};
use tk_input::{Catalog, Logs, Part};
use tk_load::Input;

/// The two logs of a run.
#[derive(Clone, Copy)]
pub enum Case {
    /// At the first monitor a rises by 5, at the second b by 3.
    TwoMonitors,
    /// At one monitor a rises by 5; its second feeder has no change.
    OneMonitor,
    /// One monitor with two feeders.
    TwoFeeders,
    /// At one monitor b rises by 3, so that it reports; its second feeder has no change.
    OneReport,
    /// At the first monitor b rises by 3, so that the second, which has no change, is asked for its values.
    OneRound,
}

/// The log of a first monitor, and that of a second one or of a second feeder of the first.
fn logs_of(alloc: Global, names: &Catalog, second: Mon, texts: (&[u8], &[u8])) -> Option<Logs>
    requires { (1 ≤ second.0) × (second.0 ≤ 64) }
{
    let one = Part::read(alloc, texts.0, names).ok()?;
    let Ok(two) = Part::read(alloc, texts.1, names) else {
        drop(one);
        return None;
    };
    let Ok(mut parts) = Vec::with_capacity(alloc, 2) else {
        drop(one);
        drop(two);
        return None;
    };
    parts.push_reserved((Mon(1), one));
    parts.push_reserved((second, two));
    Logs::new(alloc, parts, names.len() as u32).ok()
}

/// An input with k 1 and epsilon 0 over these logs.
fn input_of(alloc: Global, second: Mon, texts: (&[u8], &[u8])) -> Option<Input>
    requires { (1 ≤ second.0) × (second.0 ≤ 64) }
    ensures { IfSome result (λ input. AreAgreed input.names input.settings input.logs) }
{
    let settings = Settings::new(1, 0, 1, 2, u64::from(second.0)).ok()?;
    let names = Catalog::read(alloc, b"a\nb\n").ok()?;
    let Some(logs) = logs_of(alloc, &names, second, texts) else {
        drop(names);
        return None;
    };
    let (objects, monitors) = (settings.objects(), settings.monitors());
    if names.len() as u32 != objects || logs.objects() != objects || logs.monitors() != monitors {
        drop(names);
        drop(logs);
        return None;
    }
    Some(Input {
        names,
        settings,
        logs,
        ends: None,
        order: None,
    })
}

impl Case {
    /// The input of a run with k 1 and epsilon 0 over these logs, without an order.
    pub fn input(self, alloc: Global) -> Option<Input>
        ensures { IfSome result (λ input. AreAgreed input.names input.settings input.logs) }
    {
        match self {
            Case::TwoMonitors => input_of(alloc, Mon(2), (b"a,5\n", b"b,3\n")),
            Case::OneMonitor => input_of(alloc, Mon(1), (b"a,5\n", b"")),
            Case::TwoFeeders => input_of(alloc, Mon(1), (b"a,1\n", b"a,2\nb,1\n")),
            Case::OneReport => input_of(alloc, Mon(1), (b"b,3\n", b"")),
            Case::OneRound => input_of(alloc, Mon(2), (b"b,3\n", b"")),
        }
    }
}
