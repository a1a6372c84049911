//! The run of one input to its story, as `replay`, `window`, `gen` and `trace` ask for it.

ghost use Rattle.std.specs.Prelude.{◌≡◌, IfOk, length};
ghost use Rattle.tk_load.specs.Whole.{AreAgreed};
ghost use Rattle.tk_run.specs.Ends.{IsStoryOf};
ghost use Rattle.tk_story.specs.Headline.{IsSound};
ghost use Rattle.tk_words.specs.Asked.{IsCarriage};

use std::alloc::Global;
use tk_base::NoMemory;
use tk_bytes::byte_story;
use tk_drain::{a_drive_is_reached, what_is_reached_runs};
use tk_input::Catalog;
use tk_load::Input;
use tk_story::{Story, a_finished_run_is_sound};
use tk_window::TickEnds;
use tk_words::Carriage;

/// The story of an input, and what its text needs beside it.
#[derive(Drop)]
pub struct Played {
    pub story: Story,
    pub names: Catalog,
    pub ends: Option<TickEnds>,
}

/// The story of an input, whichever way its frames go: the events of its order, then the drive to the ends of the logs.
pub fn story_of(alloc: Global, input: Input, carriage: Carriage) -> Result<Played, NoMemory>
    requires carriage { IsCarriage carriage }
    requires agreed { AreAgreed input.names input.settings input.logs }
    ensures names { IfOk result (λ p. length p.names ≡ p.story.story.settings.objects) }
    ensures same { IfOk result (λ p. p.names ≡ input.names) }
    ensures ends { IfOk result (λ p. p.ends ≡ input.ends) }
    ensures sound { IfOk result (λ p. IsSound p.story.story) }
    ensures story { IfOk result (λ p. IsStoryOf input p.story) }
{
    let Input {
        names,
        settings,
        logs,
        ends,
        order,
    } = input;
    let Carriage { piece, frames } = carriage;
    a_finished_run_is_sound();
    a_drive_is_reached();
    what_is_reached_runs();
    let Ok(story) = byte_story(alloc, settings, logs, &order, piece as usize, frames) else {
        drop(names);
        drop(ends);
        drop(order);
        return Err(NoMemory);
    };
    Ok(Played { story, names, ends })
}
