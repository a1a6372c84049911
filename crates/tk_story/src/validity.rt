// Which sets of members are valid. Each function is there for its clause alone.
ghost use Rattle.tk_story.specs.Story.{IsStory, StoryView};
ghost use Rattle.tk_story.specs.Moments.{AreMembersValid, IsQuiet, IsMoment};
ghost use Rattle.tk_story.specs.ValidityLaws.{EmptyLinksLeaveNoRoundOpen, LastIsAtTheFullCut, PublishedIsValid};

/// The members of a quiet story hold at the ends of its trails.
pub fn quiet_is_valid()
    ensures { (s : StoryView) → IsStory s → IsQuiet s → AreMembersValid s }
{}

/// Where all links are empty, no round is open.
pub fn empty_links_leave_no_round_open()
    ensures { EmptyLinksLeaveNoRoundOpen }
{}

/// A published set holds at its cut, with its own k and epsilon.
pub fn published_is_valid()
    ensures { PublishedIsValid }
{}

/// The last publication is at the ends of all logs.
pub fn the_last_one_is_at_the_full_cut()
    ensures { LastIsAtTheFullCut }
{}

/// A moment of a story is a story.
pub fn a_moment_is_a_story()
    ensures { (t s : StoryView) → IsStory s → IsMoment t s → IsStory t }
{}
