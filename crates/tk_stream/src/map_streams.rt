//! Streams given in memory by their names.

ghost use Rattle.std.specs.Prelude.{◌≡◌, ◌≤◌, ℕ, List, true, IfOk, IfErr, IsErrOf, bytes_eq, None, option_map, position, Some, string_bytes};
ghost use Rattle.tk_input.specs.MapFiles.{content_of, files_of};
ghost use Rattle.tk_stream.specs.MapStreams.{bytes_of, opened};

use crate::map_source::MapSource;
use crate::streams::{OpenFault, Streams};
use std::alloc::Global;
use std::marker::Model;

/// Streams in memory, whose sources tell their bytes.
#[derive(Debug, Drop)]
pub struct MapStreams {
    alloc: Global,
    streams: Vec<(String, Vec<u8>)>,
    piece: usize,
    fails: Vec<u64>,
}

impl Model for MapStreams {
    ghost use Rattle.std.specs.Prelude.{◌≤◌};
    ghost use Rattle.tk_input.specs.MapFiles.{files_of};
    ghost use Rattle.tk_stream.specs.MapStreams.{MapStreamsView};

    ghost Value = { MapStreamsView };

    ghost view = { λ m. record { streams = files_of m.streams.items; piece = m.piece; fails = m.fails.items } };

    ghost invariant = { λ m. 1 ≤ m.piece };
}

impl MapStreams {
    /// Each read of a source gives at most a piece. Of each source read i, from 1, fails where i is among `fails`.
    /// Of two streams of one name the first is opened.
    pub fn new(
        alloc: Global,
        streams: Vec<(String, Vec<u8>)>,
        piece: usize,
        fails: Vec<u64>,
    ) -> MapStreams
        requires { 1 ≤ piece }
        ensures { result ≡ record { streams = files_of streams.items; piece = piece; fails = fails.items } }
    {
        MapStreams {
            alloc,
            streams,
            piece,
            fails,
        }
    }
}

fn place_of(streams: &[(String, Vec<u8>)], name: &str) -> Option<usize>
    ensures { result ≡ position (λ f. bytes_eq (string_bytes f.0) name.now) streams.now }
{
    streams.iter().position(|stream| stream.0.as_str() == name)
}

fn stream_of<'a>(streams: &'a [(String, Vec<u8>)], name: &str) -> Option<&'a [u8]>
    ensures { option_map (λ s. s.now) result ≡ content_of (files_of streams.now) name.now }
{
    let place = place_of(streams, name)?;
    Some(streams[place].1.as_slice())
}

fn source_over(
    alloc: Global,
    bytes: &[u8],
    piece: usize,
    fails: &[u64],
) -> Result<MapSource, OpenFault>
    requires { 1 ≤ piece }
    ensures ok { IfOk result (λ s. s ≡ record { rest = bytes.now; piece = piece; fails = fails.now; reads = 0; faults = 0 }) }
    ensures err { IfErr result (λ e. e ≡ OpenFault.NoMemory) }
{
    let (Ok(bytes), Ok(fails)) = (Vec::from_slice(alloc, bytes), Vec::from_slice(alloc, fails))
    else {
        return Err(OpenFault::NoMemory);
    };
    Ok(MapSource::new(bytes, piece, fails))
}

impl Streams for MapStreams {
    type Source = MapSource;

    ghost content = { bytes_of };

    fn open(&mut self, name: &str) -> Result<MapSource, OpenFault>
        // What is opened, and when none is there.
        ensures ok { IfOk result (λ s. content_of self.old.streams name.now ≡ Some s.rest) }
        ensures source { IfOk result (λ s. s ≡ opened self.old s.rest) }
        ensures failed { IsErrOf result OpenFault.Failed → content_of self.old.streams name.now ≡ None }
        ensures streams { self.new ≡ self.old }
        // As every implementation of the trait.
        ensures content { IfOk result (λ s. true ≡ true → s.rest ≡ bytes_of self.old name.now) }
        ensures faults { IfOk result (λ s. s.faults ≡ 0) }
        ensures kept { (other : List ℕ) → bytes_of self.new other ≡ bytes_of self.old other }
    {
        match stream_of(&self.streams, name) {
            Some(bytes) => source_over(self.alloc, bytes, self.piece, &self.fails),
            None => Err(OpenFault::Failed),
        }
    }
}
