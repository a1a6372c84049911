//! What a command but `live` answers: its status, with the story or stories of what is done.

ghost use Rattle.std.specs.Prelude.{◌≡◌, [], None, Some};
ghost use Rattle.tk_run.specs.Outcome.{IsWithout};
ghost use Rattle.tk_load.specs.declared.status.Status.TheVariants.{Done};

use std::alloc::Global;
use tk_load::Status;
use tk_story::Story;

/// How a run ended. Where it is done it has its story, or for a command of several stories all of them in order.
#[derive(Drop)]
pub struct Outcome {
    pub status: Status,
    pub story: Option<Story>,
    pub stories: Vec<Story>,
}

impl Outcome {
    /// A run that ended without a story.
    pub(crate) fn ended(alloc: Global, status: Status) -> Outcome
        ensures status { result.status ≡ status }
        ensures none { IsWithout result }
    {
        Outcome {
            status,
            story: None,
            stories: Vec::new(alloc),
        }
    }

    /// A run that ended without what it told. That is dropped here, since each place that drops a story by itself is dear to
    /// prove.
    pub(crate) fn without<T: Drop>(alloc: Global, told: T, status: Status) -> Outcome
        ensures status { result.status ≡ status }
        ensures none { IsWithout result }
    {
        drop(told);
        Outcome::ended(alloc, status)
    }

    /// A run that is done, with its one story.
    pub(crate) fn done(alloc: Global, story: Story) -> Outcome
        ensures status { result.status ≡ Done }
        ensures story { result.story ≡ Some story }
        ensures alone { result.stories.items ≡ [] }
    {
        Outcome {
            status: Status::Done,
            story: Some(story),
            stories: Vec::new(alloc),
        }
    }

    /// A run that is done, with its stories.
    pub(crate) fn several(stories: Vec<Story>) -> Outcome
        ensures status { result.status ≡ Done }
        ensures story { result.story ≡ None }
        ensures stories { result.stories.items ≡ stories.items }
    {
        Outcome {
            status: Status::Done,
            story: None,
            stories,
        }
    }
}
