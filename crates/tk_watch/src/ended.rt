//! The end of a stream, and the one call that comes upon it.

ghost use Rattle.std.specs.Prelude.{IfErr, IfOk, IfSome, length};
ghost use Rattle.tk_stream.specs.Line.{IsItemOf};
ghost use Rattle.tk_stream.specs.Records.{FailsItem, FindsItem};
ghost use Rattle.tk_watch.specs.Feeding.{Reads};

use tk_base::Feeder;
use tk_input::Catalog;
use tk_stream::{Item, Records, Source, StreamFault};

/// That a stream has ended. `read_next` makes one where it finds no record any more, and nothing else does.
#[derive(Clone, Copy, Debug, PartialEq, Eq)]
pub struct Ended {
    pub stream: Feeder,
    made: (),
}

/// What a stream gave.
#[derive(Clone, Copy, Debug, PartialEq, Eq)]
pub enum Given {
    Item(Item),
    /// It has ended.
    Nothing(Ended),
}

/// The next record, or the next tick where ticks are known.
fn next_of<S: Source + Drop>(
    records: &mut Records<S>,
    names: &Catalog,
    ticks: bool,
) -> Result<Option<Item>, StreamFault>
    ensures ok { IfOk result (λ came. FindsItem ticks names.now came records.old records.new) }
    ensures err { IfErr result (λ fault. FailsItem ticks names.now fault records.old records.new) }
    ensures object { IfOk result (λ came. IfSome came (IsItemOf ticks (length names.now))) }
{
    if ticks {
        return records.next_item(names);
    }
    match records.next(names) {
        Ok(Some(change)) => Ok(Some(Item::Record(change))),
        Ok(None) => Ok(None),
        Err(fault) => Err(fault),
    }
}

/// The next record of a stream, or the next tick where ticks are known, or that it has ended. It may wait for ever.
pub fn read_next<S: Source + Drop>(
    records: &mut Records<S>,
    stream: Feeder,
    names: &Catalog,
    ticks: bool,
) -> Result<Given, StreamFault>
    ensures ok { IfOk result (λ given. Reads ticks names.now stream given records.old records.new) }
    ensures err { IfErr result (λ fault. FailsItem ticks names.now fault records.old records.new) }
{
    match next_of(records, names, ticks) {
        Ok(Some(item)) => Ok(Given::Item(item)),
        Ok(None) => Ok(Given::Nothing(Ended { stream, made: () })),
        Err(fault) => Err(fault),
    }
}
