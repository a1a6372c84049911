ghost use Rattle.std.specs.Prelude.{◌≡◌, ◌≤◌, [], false, true, IfErr, IfOk, OnOk, length};
ghost use Rattle.tk_host.specs.Going.{IsGoing, Serves, Steps, faults_left, left};
ghost use Rattle.tk_host.specs.Holding.{Begins, FailsHost, Holds, Hosts, Opens, Parts, faults_behind, faults_on};
ghost use Rattle.tk_host.specs.Text.{session_text};

use crate::coordinated::Coordinated;
use crate::hosting::attend;
use crate::knock::Knock;
use crate::lines::{ended_line, listening_line, session_line};
use crate::lingering::linger;
use crate::over::Over;
use crate::putting::put_line;
use crate::reach::Reach;
use crate::session::Session;
use std::alloc::Global;
use std::sync::Wait;
use std::time::Clock;
use tk_base::Settings;
use tk_input::{Catalog, Sink};
use tk_wire::{Host, Wire};

/// How many waits are a second.
const WAITS: u64 = 20;

/// What the sessions of a process are over, the number of its run, after how many seconds a stand-in takes the seat of a
/// monitor, if ever, and for how many links are kept once it is done.
#[derive(Clone, Copy)]
pub struct Plan<'p> {
    pub names: &'p Catalog,
    pub settings: Settings,
    pub run: u64,
    pub missing: Option<u64>,
    pub silence: u64,
}

/// Opens the door at an address, and tells where that is.
pub fn open<H: Host, O: Sink>(
    alloc: Global,
    host: &mut H,
    at: &str,
    out: &mut O,
) -> Result<(), Coordinated>
    requires { (H.state host.old).listens ≡ false }
    ensures opens { Opens result (O.written out.old) (O.written out.new) }
    ensures listens { OnOk result ((H.state host.new).listens ≡ true) }
    ensures same { OnOk result ((H.state host.new).faults ≡ (H.state host.old).faults) }
    ensures faults { IfErr result (λ end. FailsHost end (H.state host.old) (H.state host.new)) }
    ensures counted { O.fault_count out.new ≡ faults_on result (O.fault_count out.old) }
{
    host.listen(at)?;
    put_line(listening_line(alloc, host.address())?, out)?;
    Ok(())
}

/// Ends a session that was left so, and answers how the next begins. Once the final set is told its links are kept a while.
fn leave<H: Host, W: Wire + Drop, O: Sink>(
    alloc: Global,
    host: &mut H,
    plan: &Plan<'_>,
    number: u64,
    session: Session<W>,
    over: Over,
    out: &mut O,
) -> Result<Option<Knock<W>>, Coordinated>
    requires { (H.state host.old).listens ≡ true }
    ensures parts { Parts over result number (O.written out.old) (O.written out.new) }
    ensures same { OnOk result (H.state host.new ≡ H.state host.old) }
    ensures failed { over ≡ Over.HostFailed → H.state host.new ≡ H.state host.old }
    ensures counted { O.fault_count out.new ≡ faults_behind over result (O.fault_count out.old) }
{
    match over {
        Over::Finished => {
            linger(host, session.into_hub(), plan.silence.saturating_mul(WAITS));
            Err(Coordinated::Done)
        }
        Over::Ended(cause) => {
            let again = session.into_again();
            put_line(ended_line(alloc, number, cause)?, out)?;
            Ok(again)
        }
        Over::HostFailed => Err(Coordinated::LinkFault),
        Over::WriteFailed => Err(Coordinated::WriteFault),
    }
}

/// Begins a session by its line, and runs it until it is left.
fn begin<R: Wait + Clock, H: Host, C: Reach<Link = H::Link> + Drop, O: Sink>(
    rt: &R,
    alloc: Global,
    host: &mut H,
    session: &mut Session<C>,
    line: Vec<u8>,
    first: Option<Knock<C>>,
    names: &Catalog,
    out: &mut O,
) -> Over
    requires listens { (H.state host.old).listens ≡ true }
    requires going { IsGoing session.old }
    requires nobody { session.old.roster ≡ [] }
    requires untold { session.old.told ≡ 0 }
    requires named { session.old.hub.coordinator.settings.objects ≤ length names.now }
    ensures steps { Steps (left result) session.old session.new }
    ensures begins { Begins result names.now line.items session.new (O.written out.old) (O.written out.new) }
    ensures serves { Serves (left result) (H.state host.old) (H.state host.new) }
    ensures counted { O.fault_count out.new ≡ faults_left result (O.fault_count out.old) }
{
    match put_line(line, out) {
        Ok(()) => attend(rt, alloc, host, session, first, names, out),
        Err(_) => {
            drop(first);
            Over::WriteFailed
        }
    }
}

/// The line with which a session begins, and the session, in which nobody is yet.
fn prepare<W: Wire + Drop>(
    alloc: Global,
    plan: &Plan<'_>,
    number: u64,
) -> Result<(Vec<u8>, Session<W>), Coordinated>
    ensures line { IfOk result (λ made. made.0.items ≡ session_text number) }
    ensures settings { IfOk result (λ made. made.1.hub.coordinator.settings ≡ plan.now.settings) }
    ensures missing { IfOk result (λ made. made.1.missing ≡ plan.now.missing) }
    ensures roster { IfOk result (λ made. made.1.roster ≡ []) }
    ensures told { IfOk result (λ made. made.1.told ≡ 0) }
    ensures going { IfOk result (λ made. IsGoing made.1) }
    ensures err { IfErr result (λ end. end ≡ Coordinated.NoMemory) }
{
    let line = session_line(alloc, number)?;
    let session = Session::new(alloc, plan.settings, plan.run, plan.missing)?;
    Ok((line, session))
}

/// Holds one session over a door that listens, which may begin with a connection. Answers how the next begins.
pub fn hold<R: Wait + Clock, H: Host, C: Reach<Link = H::Link> + Drop, O: Sink>(
    rt: &R,
    alloc: Global,
    host: &mut H,
    plan: &Plan<'_>,
    number: u64,
    first: Option<Knock<C>>,
    out: &mut O,
) -> Result<Option<Knock<C>>, Coordinated>
    requires listens { (H.state host.old).listens ≡ true }
    requires named { plan.now.settings.objects ≤ length plan.now.names.now }
    ensures holds { Holds result plan.now.names.now plan.now.settings plan.now.missing number (O.written out.old) (O.written out.new) }
    ensures hosts { Hosts result (H.state host.old) (H.state host.new) }
    ensures counted { O.fault_count out.new ≡ faults_on result (O.fault_count out.old) }
{
    match prepare(alloc, plan, number) {
        Ok((line, mut session)) => {
            let over = begin(rt, alloc, host, &mut session, line, first, plan.names, out);
            leave(alloc, host, plan, number, session, over, out)
        }
        Err(end) => {
            drop(first);
            Err(end)
        }
    }
}
