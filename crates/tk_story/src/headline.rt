// What holds of every run, finished or not. Each function is there for its clause alone.
ghost use Rattle.tk_story.specs.Moments.{IsOver};
ghost use Rattle.tk_story.specs.Story.{IsStory, StoryView};
ghost use Rattle.tk_story.specs.Headline.{IsSound, IsSoundSoFar};
ghost use Rattle.tk_story.specs.Headline.{ReachesItsEnd};

use crate::validity::{a_moment_is_a_story, published_is_valid, quiet_is_valid};
use tk_journal::{
    a_start_is_set_up, publications_are_numbered, publications_never_go_back, stop_ends_the_journal,
};

/// A legal story that came to its end, whatever events made it: its journal, or each node's part too.
pub fn a_finished_run_is_sound()
    ensures finished { (s : StoryView) → IsStory s → ReachesItsEnd s → IsSound s }
    ensures over { (s : StoryView) → IsStory s → IsOver s → IsSound s }
{
    a_moment_is_a_story();
    quiet_is_valid();
    published_is_valid();
    a_start_is_set_up();
    stop_ends_the_journal();
    publications_are_numbered();
    publications_never_go_back();
}

/// A legal story, wherever it stands.
pub fn a_story_is_sound_so_far()
    ensures { (s : StoryView) → IsStory s → IsSoundSoFar s }
{
    a_moment_is_a_story();
    quiet_is_valid();
    published_is_valid();
    publications_are_numbered();
    publications_never_go_back();
}
