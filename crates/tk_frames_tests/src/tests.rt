//! Frames beside their bytes in both versions, bytes that are no frame or a part of one, and frames refused.

ghost use Rattle.tk_frames.specs.Spelling.{IsVersion};

use std::alloc::Global;
use std::test::Fail;
use tk_base::{Mon, Obj, ObjSet, Pairs, Places};
use tk_frames::{BadFrame, EncodeFault, Frame, Kind, Next, encode, next};

const STOP: [u8; 5] = [0, 0, 0, 1, 7];

const HELLO: [u8; 18] = [0, 0, 0, 14, 1, 0, 0, 0, 0, 0, 0, 0, 5, 1, 0, 0, 0, 2];

const SETTLED: [u8; 22] = [
    0, 0, 0, 18, 6, 0, 0, 0, 0, 0, 0, 0, 1, 0, 0, 0, 0, 1, 0, 0, 0, 0,
];

const COLLECTED: [u8; 25] = [
    0, 0, 0, 21, 3, 0, 0, 0, 0, 0, 0, 0, 1, 0, 0, 0, 2, 0, 0, 0, 1, 0, 0, 0, 2,
];

const ASSIGNED: [u8; 65] = [
    0, 0, 0, 61, 5, 0, 0, 0, 0, 0, 0, 0, 2, 0, 0, 0, 1, 0, 0, 0, 1, 0, 0, 0, 2, 0, 0, 0, 1, 0, 0,
    0, 0, 0, 0, 0, 0, 0, 0, 0, 0, 0, 0, 0, 0, 0, 0, 0, 2, 0xff, 0xff, 0xff, 0xff, 0xff, 0xff, 0xff,
    0xff, 0xff, 0xff, 0xff, 0xff, 0xff, 0xff, 0xff, 0xfc,
];

const REPORTED: [u8; 81] = [
    0, 0, 0, 77, 2, 0, 0, 0, 0, 0, 0, 0, 1, 0, 0, 0, 0, 0, 0, 0, 0, 0, 0, 0, 0, 0, 0, 0, 0, 0, 0,
    0, 1, 0, 0, 0, 2, 0, 0, 0, 2, 0, 0, 0, 1, 0, 0, 0, 0, 0, 0, 0, 0, 0, 0, 0, 0, 0, 0, 0, 0, 0, 0,
    0, 2, 0, 0, 0, 0, 0, 0, 0, 0, 0, 0, 0, 0, 0, 0, 0, 3,
];

const GREATEST: [u8; 81] = [
    0, 0, 0, 77, 4, 0xff, 0xff, 0xff, 0xff, 0xff, 0xff, 0xff, 0xff, 0, 0, 0, 0, 0, 0, 0, 128, 0x80,
    0, 0, 0, 0, 0, 0, 0, 0, 0, 0, 0, 0, 0, 0, 0, 0, 0, 0, 2, 0, 0, 0, 1, 0x7f, 0xff, 0xff, 0xff,
    0xff, 0xff, 0xff, 0xff, 0xff, 0xff, 0xff, 0xff, 0xff, 0xff, 0xff, 0xff, 0xff, 0xff, 0xff, 0xff,
    0xff, 0xff, 0xff, 0xff, 0xff, 0xff, 0xff, 0xff, 0xff, 0xff, 0xff, 0xff, 0xff, 0xff, 0xff, 0xff,
];

/// The frame of `GREATEST` in version 2.
const GREATEST_IN_2: [u8; 63] = [
    0, 0, 0, 0x3b, 4, 0xff, 0xff, 0xff, 0xff, 0xff, 0xff, 0xff, 0xff, 0xff, 1, 0x80, 1, 0xff, 0xff,
    0xff, 0xff, 0xff, 0xff, 0xff, 0xff, 0xff, 0xff, 0xff, 0xff, 0xff, 0xff, 0xff, 0xff, 0xff, 0xff,
    3, 2, 1, 0xfe, 0xff, 0xff, 0xff, 0xff, 0xff, 0xff, 0xff, 0xff, 0xff, 0xff, 0xff, 0xff, 0xff,
    0xff, 0xff, 0xff, 0xff, 3, 0xfe, 0xff, 0xff, 0xff, 0xf, 1,
];

fn set(alloc: Global, numbers: &[u32]) -> Option<ObjSet> {
    let mut list = Vec::new(alloc);
    for number in numbers {
        list.push(Obj(*number)).ok()?;
    }
    ObjSet::new(list).ok()
}

fn pairs(alloc: Global, items: &[(u32, i128)]) -> Option<Pairs> {
    let mut list = Vec::new(alloc);
    for (number, value) in items {
        list.push((Obj(*number), *value)).ok()?;
    }
    Pairs::new(list).ok()
}

fn hello(run: u64, version: u8, mon: u32) -> Frame {
    let mon = Mon(mon);
    Frame::Hello { run, version, mon }
}

fn report(alloc: Global, seq: u64) -> Option<Frame> {
    Some(Frame::Report {
        seq,
        border: 0,
        failed: set(alloc, &[2])?,
        values: pairs(alloc, &[(1, 0), (2, 3)])?,
    })
}

fn collect(alloc: Global, round: u64) -> Option<Frame> {
    let objects = set(alloc, &[1, 2])?;
    Some(Frame::Collect { round, objects })
}

fn values(alloc: Global, round: u64) -> Option<Frame> {
    Some(Frame::Values {
        round,
        seq: 128,
        border: i128::MIN,
        values: pairs(alloc, &[(1, i128::MAX), (u32::MAX, -1)])?,
    })
}

fn assign(alloc: Global, seq: u64) -> Option<Frame> {
    Some(Frame::Assign {
        seq,
        members: set(alloc, &[1])?,
        changes: pairs(alloc, &[(1, 0), (2, -4)])?,
    })
}

fn settled(alloc: Global, seq: u64) -> Option<Frame> {
    Some(Frame::Settled {
        seq,
        last: false,
        places: Places::new(vec![in alloc; 0].ok()?),
    })
}

/// The tables' frame of a kind, with this number for its run, its round or its seq.
fn frame(alloc: Global, kind: Kind, number: u64) -> Option<Frame> {
    match kind {
        Kind::Hello => Some(hello(number, 1, 2)),
        Kind::Report => report(alloc, number),
        Kind::Collect => collect(alloc, number),
        Kind::Values => values(alloc, number),
        Kind::Assign => assign(alloc, number),
        Kind::Settled => settled(alloc, number),
        Kind::Stop => Some(Frame::Stop),
    }
}

/// Whether this frame is read at the front of some bytes, from so many of them.
fn is_read(alloc: Global, bytes: &[u8], version: u8, frame: &Frame, size: usize) -> bool
    requires { IsVersion version }
{
    match next(alloc, bytes, version) {
        Ok(Next::Whole(read, taken)) => read == *frame && taken == size,
        _ => false,
    }
}

/// Whether the frame is written as these bytes behind others, and read again from them and from more than them.
fn is_spelled(alloc: Global, frame: &Frame, version: u8, bytes: &[u8]) -> Option<bool>
    requires { IsVersion version }
{
    let mut out = vec![in alloc; 9].ok()?;
    encode(frame, version, &mut out).ok()?;
    let is_written = out.first() == Some(&9) && &out[1..] == bytes;
    out.push(7).ok()?;
    let size = bytes.len();
    Some(
        is_written
            && is_read(alloc, bytes, version, frame, size)
            && is_read(alloc, &out[1..], version, frame, size),
    )
}

/// Whether a frame's copy is the same frame.
fn is_copied(frame: &Frame) -> bool {
    match frame.try_clone() {
        Ok(copy) => copy == *frame,
        Err(_) => false,
    }
}

/// Whether the frame of a kind and a number is spelled so, and counts so many bytes in version 1.
fn has_bytes(alloc: Global, row: (Kind, u64, &[u8]), version: u8) -> bool
    requires { IsVersion version }
{
    let (kind, number, bytes) = row;
    match frame(alloc, kind, number) {
        Some(frame) => {
            is_spelled(alloc, &frame, version, bytes) == Some(true)
                && is_copied(&frame)
                && (version == 2 || frame.size() == bytes.len() as u128)
        }
        None => false,
    }
}

#[test]
fn version_1_has_these_bytes(rt: HostRuntime) {
    let rows: [(Kind, u64, &[u8]); 7] = [
        (Kind::Stop, 0, &STOP),
        (Kind::Hello, 5, &HELLO),
        (Kind::Settled, 1, &SETTLED),
        (Kind::Collect, 1, &COLLECTED),
        (Kind::Assign, 2, &ASSIGNED),
        (Kind::Report, 1, &REPORTED),
        (Kind::Values, u64::MAX, &GREATEST),
    ];
    for row in rows {
        assert!(rt; has_bytes(rt.alloc(), row, 1), "{}", row.0);
    }
}

#[test]
fn version_2_has_these_bytes(rt: HostRuntime) {
    let rows: [(Kind, u64, &[u8]); 7] = [
        (Kind::Stop, 0, &STOP),
        (Kind::Hello, 5, &HELLO),
        (Kind::Settled, 1, &[0, 0, 0, 5, 6, 1, 0, 1, 0]),
        (Kind::Collect, 300, &[0, 0, 0, 6, 3, 0xac, 2, 2, 1, 1]),
        (Kind::Assign, 2, &[0, 0, 0, 9, 5, 2, 1, 1, 2, 1, 0, 1, 7]),
        (
            Kind::Report,
            1,
            &[0, 0, 0, 10, 2, 1, 0, 1, 2, 2, 1, 0, 1, 6],
        ),
        (Kind::Values, u64::MAX, &GREATEST_IN_2),
    ];
    for row in rows {
        assert!(rt; has_bytes(rt.alloc(), row, 2), "{}", row.0);
    }
}

/// Why some bytes are no frame, whatever follows them.
fn fault_of(alloc: Global, bytes: &[u8], version: u8) -> Option<BadFrame>
    requires { IsVersion version }
{
    match next(alloc, bytes, version) {
        Ok(Next::Bad(fault)) => Some(fault),
        _ => None,
    }
}

const fn bad_fields(kind: Kind) -> BadFrame {
    BadFrame::BadFields { kind }
}

#[test]
fn version_1_refuses(rt: HostRuntime) {
    let rows: [(&[u8], BadFrame); 9] = [
        (&[0, 0x20, 0, 1], BadFrame::BadLength { length: 2_097_153 }),
        (&[0, 0, 0, 0], BadFrame::BadLength { length: 0 }),
        (&[0, 0, 0, 1, 9], BadFrame::BadKind { kind: 9 }),
        (&[0, 0, 0, 1, 0], BadFrame::BadKind { kind: 0 }),
        (&[0, 0, 0, 2, 7, 0], bad_fields(Kind::Stop)),
        (
            &[
                0, 0, 0, 18, 6, 0, 0, 0, 0, 0, 0, 0, 1, 2, 0, 0, 0, 1, 0, 0, 0, 0,
            ],
            bad_fields(Kind::Settled),
        ),
        (
            &[
                0, 0, 0, 25, 5, 0, 0, 0, 0, 0, 0, 0, 1, 0, 0, 0, 2, 0, 0, 0, 2, 0, 0, 0, 1, 0, 0,
                0, 0,
            ],
            bad_fields(Kind::Assign),
        ),
        (
            &[
                0, 0, 0, 21, 5, 0, 0, 0, 0, 0, 0, 0, 1, 0, 0, 0, 1, 0, 0, 0, 0, 0, 0, 0, 0,
            ],
            bad_fields(Kind::Assign),
        ),
        // A count of 4,294,967,295 in a frame of 17 bytes.
        (
            &[
                0, 0, 0, 13, 3, 0, 0, 0, 0, 0, 0, 0, 1, 0xff, 0xff, 0xff, 0xff,
            ],
            bad_fields(Kind::Collect),
        ),
    ];
    for (bytes, fault) in rows {
        assert_eq!(rt; fault_of(rt.alloc(), bytes, 1), Some(fault), "at {bytes:?}");
    }
}

#[test]
fn version_2_refuses(rt: HostRuntime) {
    let rows: [(&[u8], Kind); 5] = [
        (&[0, 0, 0, 6, 6, 0x81, 0, 0, 1, 0], Kind::Settled),
        (&[0, 0, 0, 6, 5, 1, 2, 1, 0, 0], Kind::Assign),
        (&[0, 0, 0, 3, 3, 1, 1], Kind::Collect),
        // The second object would be 4,294,967,296.
        (
            &[0, 0, 0, 9, 3, 1, 2, 0xff, 0xff, 0xff, 0xff, 0xf, 1],
            Kind::Collect,
        ),
        // A last group that an object has no bits for.
        (
            &[0, 0, 0, 8, 3, 1, 1, 0xff, 0xff, 0xff, 0xff, 0x1f],
            Kind::Collect,
        ),
    ];
    for (bytes, kind) in rows {
        assert_eq!(rt;
            fault_of(rt.alloc(), bytes, 2),
            Some(bad_fields(kind)),
            "at {bytes:?}"
        );
    }
}

/// Whether some bytes are less than a frame in version 1.
fn is_part(alloc: Global, bytes: &[u8]) -> bool {
    match next(alloc, bytes, 1) {
        Ok(Next::Part) => true,
        _ => false,
    }
}

#[test]
fn a_cut_frame_is_a_part(rt: HostRuntime) {
    assert!(rt; is_part(rt.alloc(), &[0, 0x20, 0, 0]));
    for cut in 0..SETTLED.len() {
        assert!(rt; is_part(rt.alloc(), &SETTLED[..cut]), "at {cut}");
    }
}

/// The lengths of a frame's bytes and a Stop's behind them, and whether each is read where it begins.
fn in_turn(alloc: Global, first: &Frame) -> Option<(usize, bool, bool)> {
    let mut both = Vec::new(alloc);
    encode(first, 1, &mut both).ok()?;
    encode(&Frame::Stop, 1, &mut both).ok()?;
    let is_first = is_read(alloc, &both, 1, first, 22);
    let is_second = both.len() >= 22 && is_read(alloc, &both[22..], 1, &Frame::Stop, 5);
    Some((both.len(), is_first, is_second))
}

#[test]
fn the_first_of_two_frames_is_read(rt: HostRuntime) -> Result<(), Fail> {
    let settled = Frame::Settled {
        seq: 1,
        last: false,
        places: Places::new(vec![in rt.alloc(); 0]?),
    };
    assert_eq!(rt; in_turn(rt.alloc(), &settled), Some((27, true, true)));
    Ok(())
}

/// Why a frame is not written in version 1, where that leaves the bytes.
fn refusal_of(alloc: Global, frame: &Frame) -> Option<EncodeFault> {
    let mut out = vec![in alloc; 9].ok()?;
    let fault = encode(frame, 1, &mut out).err();
    if out.as_slice() == [9].as_slice() {
        fault
    } else {
        None
    }
}

/// A Collect of one object more than a frame has room for.
fn too_long(alloc: Global) -> Option<Frame> {
    let mut objects = Vec::new(alloc);
    for number in 1..524_286u32 {
        objects.push(Obj(number)).ok()?;
    }
    let objects = ObjSet::new(objects).ok()?;
    Some(Frame::Collect { round: 1, objects })
}

#[test]
fn a_refused_frame_leaves_the_bytes(rt: HostRuntime) {
    for (version, mon) in [(0, 2), (3, 2), (2, 0), (1, 65)] {
        let fault = refusal_of(rt.alloc(), &hello(5, version, mon));
        assert_eq!(rt; fault, Some(EncodeFault::BadHello));
    }
    let fault = match too_long(rt.alloc()) {
        Some(frame) => refusal_of(rt.alloc(), &frame),
        None => None,
    };
    assert_eq!(rt; fault, Some(EncodeFault::TooLong { length: 2_097_153 }));
    let bytes = [0, 0, 0, 14, 1, 0, 0, 0, 0, 0, 0, 0, 5, 2, 0, 0, 0, 64];
    assert_eq!(rt;
        is_spelled(rt.alloc(), &hello(5, 2, 64), 1, &bytes),
        Some(true)
    );
}
