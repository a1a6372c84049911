// What holds of the windows of streams. Each function is there for its clause alone.
ghost use Rattle.tk_watch.specs.Laws.{WindowsHoldTheLastTicks};

/// Whatever a stream gave, its window holds of each object the sum over the last ended ticks, as many as it has, and the tick that
/// runs. So what all windows hold is what their last ticks counted, which is what the values are.
pub fn windows_hold_the_last_ticks()
    ensures { WindowsHoldTheLastTicks }
{}
