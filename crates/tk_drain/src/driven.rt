// What the drive of an order leads to. Each function is there for its clause alone.
ghost use Rattle.std.specs.Prelude.{List};
ghost use Rattle.tk_input.specs.declared.event.Event.{Event};
ghost use Rattle.tk_story.specs.Kept.{KeptStory};
ghost use Rattle.tk_drain.specs.Drive.{Drives, IsFinishing, IsReached};
ghost use Rattle.tk_drain.specs.Laws.{ReachedFromTheBeginningRuns};

/// Where a world is finished, or driven by an order, some events have led there, each enabled where it stood.
pub fn a_drive_is_reached()
    ensures finished { (begun end : KeptStory) → IsFinishing begun end → IsReached begun end }
    ensures driven { (order : List Event) (begun end : KeptStory) → Drives order begun end → IsReached begun end }
{}

/// What is reached from a beginning runs the events that are kept with it.
pub fn what_is_reached_runs()
    ensures { ReachedFromTheBeginningRuns }
{}
