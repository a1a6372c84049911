// Settlings are short, and where they end. Each function is there for its clause alone.
ghost use Rattle.std.specs.Prelude.{ℕ, ◌*◌, ◌≤◌, ◌≡◌, true, Some};
ghost use Rattle.tk_journal.specs.Laws.{IsMonitor};
ghost use Rattle.tk_journal.specs.Readings.{is_calm};
ghost use Rattle.tk_journal.specs.Turns.{rounds};
ghost use Rattle.tk_drain.specs.Moves.{energy_of_all};
ghost use Rattle.tk_input.specs.declared.event.Event.{Event};
ghost use Rattle.tk_world.specs.Events.{CanOnlyChange, next_of};
ghost use Rattle.tk_story.specs.Story.{IsStory, StoryView};
ghost use Rattle.tk_drain.specs.Reads.{readings};
ghost use Rattle.tk_drain.specs.Settling.{CostsEnergy, SettlesTo, energy_of, is_settling, monitor_of};
ghost use Rattle.tk_drain.specs.Laws.{FewEventsOfEach, SettlingAtTheEndsIsOver, SettlingIsShort, SettlingOpensFewRounds, StoppedMonitorsTookStop};

/// A story's energy is at most 87 for each monitor.
pub fn energy_is_bounded()
    ensures all { (s : StoryView) → IsStory s → energy_of_all s.settings.monitors (readings s) ≤ 87 * s.settings.monitors }
    ensures each { (s : StoryView) → IsStory s → (mon : ℕ) → IsMonitor s.settings mon
        → energy_of s.settings.monitors (readings s) mon ≤ 87 }
{}

/// No check that sends, taken frame or turn raises a monitor's energy, each lowers that of its monitor, and it opens no more
/// rounds than it takes from those left.
pub fn each_event_settles()
    ensures { (s t : StoryView) (e : Event) → IsStory s → is_settling e ≡ true → next_of s e ≡ Some t
        → CostsEnergy s t (monitor_of e) }
{}

/// However checks, taken frames and turns follow upon another, there are at most 87 of them for each monitor.
pub fn a_settling_is_short()
    ensures { SettlingIsShort }
{}

/// At most 87 of them are of any one monitor.
pub fn few_events_of_each()
    ensures { FewEventsOfEach }
{}

/// At most 11 rounds open in it or were open at its beginning.
pub fn a_settling_opens_few_rounds()
    ensures { SettlingOpensFewRounds }
{}

/// From every story checks, taken frames and turns lead to one in which none of them can happen.
pub fn every_story_settles()
    ensures { (s : StoryView) → IsStory s → SettlesTo s }
{}

/// There no round is open and each current answer is a Settled; and where the journal is stopped each monitor took Stop.
pub fn where_nothing_moves_all_is_calm()
    ensures calm { (s : StoryView) → IsStory s → CanOnlyChange s → is_calm s.settings s.journal ≡ true }
    ensures stopped { StoppedMonitorsTookStop }
{}

/// Where all parts are at their ends, any settling that comes to its end leaves a story that is over: the last publication is at
/// the full cut and holds there, and each monitor took Stop.
pub fn a_settling_at_the_ends_is_over()
    ensures { SettlingAtTheEndsIsOver }
{}
