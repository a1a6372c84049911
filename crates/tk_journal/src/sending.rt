// What a legal journal sends can be taken, and is answered. Each function is there for its clause alone.
ghost use Rattle.std.specs.Prelude.{List, []};
ghost use Rattle.tk_base.specs.History.{EachFrom};
ghost use Rattle.tk_journal.specs.Laws.{IsSetUp};
ghost use Rattle.tk_journal.specs.Legal.{IsLegal, Opening};
ghost use Rattle.tk_journal.specs.declared.noted.Noted.{Noted};
ghost use Rattle.tk_journal.specs.Sending.{IsSaidWell};
ghost use Rattle.tk_journal.specs.SendingLaws.{AwaitedMonitorWasLastAsked, EachCollectIsAnswered, GatheredAreFresh};

/// What is sent can be taken, and where a set is published all that a publication promises stands.
pub fn every_entry_is_said_well()
    ensures { (o : Opening) (j : List Noted) → IsSetUp o → IsLegal o j → EachFrom (IsSaidWell o.settings) [] j }
{}

/// While a round waits for a monitor, the last frame sent to it is that round's Collect.
pub fn an_awaited_monitor_was_last_asked()
    ensures { AwaitedMonitorWasLastAsked }
{}

/// To a monitor went as many Collects as came Values of it, and one more while it is waited for.
pub fn each_collect_is_answered()
    ensures { EachCollectIsAnswered }
{}

/// What is gathered in an open round came as Values of that round, over the last Assign.
pub fn gathered_are_fresh()
    ensures { GatheredAreFresh }
{}
