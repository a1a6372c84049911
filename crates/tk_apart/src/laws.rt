//! What holds of processes apart.

ghost use Rattle.tk_apart.specs.Carried.{CarriedIsAFront};
ghost use Rattle.tk_apart.specs.Connected.{EndsThatTellAreConnected};
ghost use Rattle.tk_apart.specs.SoFar.{ConnectedIsAStory, CutIsBehindTheStart, PublishedAcrossHostsIsValid, PublishedIsValidOverTheTrueLogs};

use tk_wire::Wire;

/// What was heard at one end of an ordered stream of bytes is a front of what was said at the other.
pub fn carried_is_a_front()
    ensures { CarriedIsAFront }
{}

/// Two ends that tell their bytes are connected, where what came at each is a front of what the other was given.
pub fn ends_that_tell_are_connected<V: Wire, W: Wire>()
    ensures { EndsThatTellAreConnected V W }
{}

/// Legal histories of processes whose connections are ordered are a story, whether or not any of them has ended; so each
/// set that was published is valid at its cut, and no place of a cut is in front of where its monitor started.
pub fn a_story_is_sound_so_far()
    ensures story { ConnectedIsAStory }
    ensures valid { PublishedAcrossHostsIsValid }
    ensures behind { CutIsBehindTheStart }
{}

/// Where each monitor started behind a base that stands for its true log, each set that was published is valid over the
/// true logs, at the cut that stands for its own.
pub fn published_is_valid_over_the_true_logs()
    ensures { PublishedIsValidOverTheTrueLogs }
{}
