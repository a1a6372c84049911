// Laws of stories and their events. Each function is there for its clause alone.
ghost use Rattle.std.specs.Prelude.{◌≡◌, List, Some};
ghost use Rattle.tk_input.specs.declared.event.Event.{Event};
ghost use Rattle.tk_world.specs.Events.{CanOnlyChange, after, begin, next_of};
ghost use Rattle.tk_story.specs.Story.{IsStory, StoryView};
ghost use Rattle.tk_story.specs.Moments.{AreMembersValid, IsStill};
ghost use Rattle.tk_world.specs.Order.{events_of};
ghost use Rattle.tk_world.specs.Runs.{RunsBy};
ghost use Rattle.tk_world.specs.Laws.{BeginningIsAStory, EachStateIsAMoment, EventsTellOneStory, ReachedStoryRuns, RunLeadsToItsStory};

/// The opening alone is a story.
pub fn a_beginning_is_a_story()
    ensures { BeginningIsAStory }
{}

/// What happens next in a story leaves a story.
pub fn each_event_leaves_a_story()
    ensures { (s t : StoryView) (e : Event) → IsStory s → next_of s e ≡ Some t → IsStory t }
{}

/// So does any list of events.
pub fn a_run_leaves_a_story()
    ensures { (s t : StoryView) (events : List Event) → IsStory s → after (Some s) events ≡ Some t → IsStory t }
{}

/// Each state of a run is a moment of the story that the run leads to.
pub fn each_state_is_a_moment()
    ensures { EachStateIsAMoment }
{}

/// Where nothing but a raise or a retune can happen, the story is still, and its members hold at the ends of its trails.
pub fn where_nothing_moves_the_members_are_valid()
    ensures still { (s : StoryView) → IsStory s → CanOnlyChange s → IsStill s }
    ensures holds { (s : StoryView) → IsStory s → CanOnlyChange s → AreMembersValid s }
{}

/// A story runs by some events, in the reader's form, where they lead to it from its beginning; so two stories that
/// begin alike and run by the same events are one.
pub fn one_story()
    ensures runs { RunLeadsToItsStory }
    ensures reads { ReachedStoryRuns }
    ensures alone { EventsTellOneStory }
{}

/// Each story is reached: the events of its order lead there from its beginning, by the reader's form and by `after`.
pub fn each_story_has_its_events()
    ensures runs { (s : StoryView) → IsStory s → RunsBy s (events_of s) }
    ensures reached { (s : StoryView) → IsStory s → after (Some (begin s.settings s.logs s.from)) (events_of s) ≡ Some s }
{}
