//! Streams by their names, in memory and of the system.

use std::alloc::Global;
use tk_stream::{MapStreams, OpenFault, Source, Streams, TrueStreams};

/// Streams of one name, which hold one record.
fn one_stream(alloc: Global) -> Option<MapStreams> {
    let name = String::from_str(alloc, "here").ok()?;
    let bytes = Vec::from_slice(alloc, b"a,5\n").ok()?;
    let mut streams = Vec::new(alloc);
    streams.push((name, bytes)).ok()?;
    Some(MapStreams::new(alloc, streams, 2, Vec::new(alloc)))
}

/// What opening a stream comes to: how many bytes its first read gives, or why there is none.
fn first_read<T: Streams>(streams: &mut T, name: &str) -> Result<Option<usize>, OpenFault> {
    let mut room = [0; 16];
    let mut source = streams.open(name)?;
    let count = source.read(&mut room).ok();
    Ok(count)
}

#[test]
fn a_stream_in_memory_is_opened_by_its_name(rt: HostRuntime) {
    let Some(mut streams) = one_stream(rt.alloc()) else {
        return;
    };
    let found = first_read(&mut streams, "here");
    let again = first_read(&mut streams, "here");
    let missing = first_read(&mut streams, "there");
    drop(streams);
    assert!(rt; found == Ok(Some(2)) && again == found && missing == Err(OpenFault::Failed));
}

#[test]
fn a_stream_of_the_system_is_opened_by_its_name(rt: HostRuntime) {
    let mut streams = TrueStreams::new(&rt);
    let empty = first_read(&mut streams, "/dev/null");
    let missing = first_read(&mut streams, "/dev/null/none");
    assert!(rt; empty == Ok(Some(0)) && missing == Err(OpenFault::Failed));
}
