// Laws of sessions and their chains. Each function is there for its clause alone.
ghost use Rattle.tk_input.specs.Logs.{IsCut};
ghost use Rattle.tk_story.specs.Moments.{cut_of};
ghost use Rattle.tk_story.specs.Story.{IsStory, StoryView};
ghost use Rattle.tk_session.specs.Chain.{NoPlaceFalls};
ghost use Rattle.tk_session.specs.Laws.{BeginningIsASession, ChainKeepsItsStretches, EachSessionIsLegal, NoPlaceFallsBetween, OneStoryForEachStretch, SessionGoesOn};

use tk_drain::{a_drive_is_reached, what_is_reached_runs};
use tk_trail::{places_stay_within_the_parts, readings_never_fall};
use tk_world::{a_beginning_is_a_story, a_run_leaves_a_story, one_story};

/// A story ends at a cut of its logs, from which another can begin.
pub fn a_story_ends_at_a_cut()
    ensures { (s : StoryView) → IsStory s → IsCut s.logs.logs (cut_of s) }
{
    places_stay_within_the_parts();
}

/// The opening alone is a session.
pub fn a_beginning_is_a_session()
    ensures { BeginningIsASession }
{
    what_is_reached_runs();
}

/// What some events lead to from a session is one, from the same places.
pub fn a_session_goes_on()
    ensures { SessionGoesOn }
{
    one_story();
    a_run_leaves_a_story();
    what_is_reached_runs();
}

/// Each session of a chain is a legal story, so that the laws of stories hold of it.
pub fn each_session_is_legal()
    ensures { EachSessionIsLegal }
{}

/// No place falls within a story, nor from the end of a session to the beginning of a later one.
pub fn no_place_falls()
    ensures within { (s : StoryView) → IsStory s → NoPlaceFalls s.from (cut_of s) }
    ensures between { NoPlaceFallsBetween }
{
    readings_never_fall();
}

/// There is one story for each stretch.
pub fn one_story_for_each_stretch()
    ensures { OneStoryForEachStretch }
{}

/// What an order leads to from the beginning, once it is finished, is the chain of the order.
pub fn a_chain_keeps_its_stretches()
    ensures { ChainKeepsItsStretches }
{
    a_drive_is_reached();
    a_beginning_is_a_session();
    a_beginning_is_a_story();
    a_story_ends_at_a_cut();
    a_session_goes_on();
}
