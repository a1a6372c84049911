//! What a live run answers: its status, with a story or with ends that make none.

ghost use Rattle.std.specs.Prelude.{◌≡◌, None, Some};

use tk_load::Status;
use tk_story::{Ends, Story};

/// How a live run ended, and what is left of it: its story where the ends agree, and else the ends, if any worker was started.
#[derive(Drop)]
pub struct LiveOutcome {
    pub status: Status,
    pub story: Option<Story>,
    pub ends: Option<Ends>,
}

impl LiveOutcome {
    /// No worker was started.
    pub(crate) fn unstarted(status: Status) -> LiveOutcome
        ensures { result ≡ record { status = status; story = None; ends = None } }
    {
        LiveOutcome {
            status,
            story: None,
            ends: None,
        }
    }

    /// The ends are kept.
    pub(crate) fn kept(status: Status, ends: Ends) -> LiveOutcome
        ensures { result ≡ record { status = status; story = None; ends = Some ends } }
    {
        LiveOutcome {
            status,
            story: None,
            ends: Some(ends),
        }
    }

    /// There is a story.
    pub(crate) fn told(status: Status, story: Story) -> LiveOutcome
        ensures { result ≡ record { status = status; story = Some story; ends = None } }
    {
        LiveOutcome {
            status,
            story: Some(story),
            ends: None,
        }
    }

    /// How the run ended, without what it left.
    pub fn into_status(self) -> Status
        ensures { result ≡ self.status }
    {
        let LiveOutcome {
            status,
            story,
            ends,
        } = self;
        drop(story);
        drop(ends);
        status
    }
}
