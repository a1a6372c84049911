// What is found of a record. Each function is there for its clause alone.
ghost use Rattle.std.specs.Prelude.{◌≡◌, true};
ghost use Rattle.tk_base.specs.History.{last_of};
ghost use Rattle.tk_journal.specs.Publishing.{publications};
ghost use Rattle.tk_story.specs.Story.{IsStory, StoryView};
ghost use Rattle.tk_verify.specs.Recorded.{Finds, is_final};
ghost use Rattle.tk_verify.specs.declared.finding.Finding.{Finding};

/// Of one record there is one finding at most, want of memory left out.
pub fn one_finding()
    ensures { (s : StoryView) (a b : Finding) → Finds s a → Finds s b → a ≡ b }
{}

/// Of a story whose last publication is the final one nothing is found.
pub fn nothing_is_found_of_a_finished_story()
    ensures { (s : StoryView) (a : Finding) → Finds s a → IsStory s → is_final (last_of (publications s.journal)) ≡ true → ⊥ }
{}
