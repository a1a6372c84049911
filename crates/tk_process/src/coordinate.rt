//! The command `coordinate`.

ghost use Rattle.std.specs.Prelude.{◌≡◌};
ghost use Rattle.tk_load.specs.Reads.{AreKept};
ghost use Rattle.tk_load.specs.Surroundings.{faults_told, met_by};
ghost use Rattle.tk_process.specs.Coordinating.{EndsCoordinator, status_of, status_of_net};
ghost use Rattle.tk_words.specs.Asked.{asked_coordinate};

use crate::makers::Hosts;
use std::alloc::Global;
use std::sync::Wait;
use std::time::Clock;
use tk_commands::load_coordinator;
use tk_host::{Coordinated, coordinate};
use tk_input::{Files, Sink};
use tk_load::Status;
use tk_wire::NetFault;
use tk_words::Coordinate;

/// What the process of a coordinator ended with.
fn status_by(ended: Coordinated) -> Status
    ensures { result ≡ status_of ended }
{
    match ended {
        Coordinated::Done => Status::Done,
        Coordinated::WriteFault => Status::WriteFault,
        Coordinated::NoMemory => Status::NoMemory,
        Coordinated::LinkFault => Status::LinkFault,
    }
}

/// What it ends with where there is no host.
fn status_by_net(fault: NetFault) -> Status
    ensures { result ≡ status_of_net fault }
{
    match fault {
        NetFault::Failed => Status::LinkFault,
        NetFault::NoMemory => Status::NoMemory,
    }
}

/// Runs a coordinator over the objects and the settings that the words name.
pub fn serve_coordinator<R: Wait + Clock, F: Files, M: Hosts, O: Sink>(
    rt: &R,
    alloc: Global,
    words: &Coordinate<'_>,
    files: &mut F,
    hosts: &mut M,
    out: &mut O,
) -> Status
    ensures ends { EndsCoordinator (asked_coordinate words.now)
        (met_by F.Files O.Sink files.old files.new out.old out.new) result }
    ensures kept { AreKept F.Files files.old files.new }
    ensures counted { O.fault_count out.new ≡ faults_told result (O.fault_count out.old) }
{
    let input = match load_coordinator(alloc, words, files) {
        Ok(input) => input,
        Err(status) => return status,
    };
    let monitors = input.settings.monitors();
    let mut host = match hosts.host(input.run, monitors, words.silence) {
        Ok(host) => host,
        Err(fault) => return status_by_net(fault),
    };
    let ended = coordinate(
        rt,
        alloc,
        &mut host,
        &input.names,
        &input.settings,
        input.run,
        words.listen,
        words.sessions,
        words.missing,
        words.silence,
        out,
    );
    status_by(ended)
}
