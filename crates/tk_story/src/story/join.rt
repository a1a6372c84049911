//! How the ends of a run become its story, where no link differs.

ghost use Rattle.std.specs.Prelude.{◌≡◌, ◌≤◌, [], length, map, IfOk, IfErr, IsErr, OnOk, vec_capacity};
ghost use Rattle.tk_story.specs.Comparing.{AreTrailsLegal};
ghost use Rattle.tk_story.specs.Ends.{AreOfOneRun, AreOrdered, HaveNothingOdd, TellsDifference, joined, kept_by};

use crate::ends::Ends;
use crate::ends::comparing::check;
use crate::ends::coord_end::CoordEnd;
use crate::ends::join_fault::JoinFault;
use crate::ends::mon_end::MonEnd;
use crate::story::Story;
use tk_base::{Cut, Settings};
use tk_input::{Event, Logs};
use tk_monitor::Monitor;

/// The monitors alone, in room that was taken for them.
fn into_monitors(ends: Vec<MonEnd>, room: Vec<Monitor>) -> Vec<Monitor>
    requires empty { room.items ≡ [] }
    requires room { length ends.items ≤ vec_capacity room }
    ensures { map (λ m. m.trail) result.items ≡ map (λ end. end.monitor.trail) ends.items }
{
    let mut monitors = room;
    for end in ends {
        let MonEnd { monitor, odd } = end;
        drop(odd);
        monitors.push_reserved(monitor);
    }
    monitors
}

/// The story of ends that agree, in room for its monitors.
fn make(
    ends: Ends,
    room: Vec<Monitor>,
    logs: Logs,
    settings: Settings,
    from: Cut,
    events: Vec<Event>,
) -> Story
    requires run { AreOfOneRun ends.coordinator ends.monitors.items logs settings from }
    requires ordered { AreOrdered (kept_by ends.coordinator ends.monitors.items) }
    requires legal { AreTrailsLegal ends.monitors.items }
    requires empty { room.items ≡ [] }
    requires room { length ends.monitors.items ≤ vec_capacity room }
    ensures nothing_odd { HaveNothingOdd (kept_by ends.coordinator ends.monitors.items) }
    ensures story { result.story ≡ joined (kept_by ends.coordinator ends.monitors.items) logs from }
    ensures events { result.events ≡ events.items }
{
    // These are read for their clauses: the limits of settings and logs, and that the journal is legal.
    let _ = settings.monitors();
    let _ = logs.monitors();
    let _ = ends.coordinator.coordinator.journal();
    let Ends {
        coordinator,
        monitors,
    } = ends;
    let CoordEnd { coordinator, .. } = coordinator;
    let monitors = into_monitors(monitors, room);
    Story::of(coordinator, monitors, logs, settings, from, events)
}

impl Story {
    /// The story of the ends of a run, in which all agree. Where they do not, the ends come back with the first
    /// difference: that of the least monitor, of its link up before the one down, at the first place. Costs the frames
    /// received, each compared where it stands, and a look at each entry of the journal for each monitor.
    pub fn join(
        coordinator: CoordEnd,
        monitors: Vec<MonEnd>,
        logs: Logs,
        settings: Settings,
        from: Cut,
        events: Vec<Event>,
    ) -> Result<Story, (JoinFault, Ends)>
        requires { AreOfOneRun coordinator monitors.items logs settings from }
        // It comes where all links are ordered, so that nothing is odd, and is the story of exactly these ends.
        ensures ordered { OnOk result (AreOrdered (kept_by coordinator monitors.items)) }
        ensures nothing_odd { OnOk result (HaveNothingOdd (kept_by coordinator monitors.items)) }
        ensures story { IfOk result (λ s. s.story ≡ joined (kept_by coordinator monitors.items) logs from) }
        ensures events { IfOk result (λ s. s.events ≡ events.items) }
        // Else the first difference is told, unless there is no memory, and the ends come back.
        ensures differs { IfErr result (λ e. TellsDifference (kept_by coordinator monitors.items) e.0) }
        ensures err { IfErr result (λ e. e.1 ≡ record { coordinator = coordinator; monitors = monitors }) }
    {
        let ends = Ends {
            coordinator,
            monitors,
        };
        if let Err(fault) = check(&ends) {
            return Err((fault, ends));
        }
        let Ok(room) = Vec::with_capacity(*ends.monitors.allocator(), ends.monitors.len()) else {
            return Err((JoinFault::NoMemory, ends));
        };
        Ok(make(ends, room, logs, settings, from, events))
    }
}
