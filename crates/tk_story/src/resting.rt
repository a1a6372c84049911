// Stories in which nothing moves. Each function is there for its clause alone.
ghost use Rattle.tk_story.specs.Story.{IsStory, StoryView};
ghost use Rattle.tk_story.specs.Moments.{IsQuiet, IsStill};
ghost use Rattle.tk_story.specs.RestingLaws.{StillAtTheEndsIsOver, StillAtTheEndsIsStopped};

/// Where no frame is under way and nothing is due, the story is quiet.
pub fn still_is_quiet()
    ensures { (s : StoryView) → IsStory s → IsStill s → IsQuiet s }
{}

/// Where besides all parts are at their ends, the journal is stopped.
pub fn still_at_the_ends_is_stopped()
    ensures { StillAtTheEndsIsStopped }
{}

/// So the run is over: the last publication is at the full cut and holds there, and each monitor took Stop.
pub fn still_at_the_ends_is_over()
    ensures { StillAtTheEndsIsOver }
{}
