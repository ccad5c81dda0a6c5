//! Writing whole texts and whole blocks.
use crate::ample::devices::{Stop, limited};
use dd_file::blocks::Blocks;
use dd_file::device::Sink;
use dd_file::writing::write_all;
use test_support::runtime::Runtime;

// Writes 42,000 bytes in parts, and returns whether an error was reported.
fn write_parts<W: Sink>(writer: &mut W) -> bool {
    let mut is_reported = false;
    for _ in 0..6_000 {
        is_reported |= write_all(writer, b"1234567").is_err();
    }
    is_reported
}

// Whether a writer gets this many bytes in three calls, and an error is reported if it stops before the end.
fn is_written(rt: &impl Runtime, room: usize, stop: Stop) -> bool {
    let device = limited(rt.alloc(), 80_000, room, stop);
    let mut blocks = Blocks::new(rt.alloc(), device).expect(rt, "a block");
    let was_reported = write_parts(&mut blocks);
    let is_reported = blocks.flush().is_err();
    let failed = blocks.failed();
    let device = blocks.into_inner().into_inner();
    (device.written.len() == room)
        & (device.calls == 3)
        & (device.later_calls == 0)
        & (was_reported == failed)
        & (is_reported == failed)
        & (failed == (room < 42_000))
}

#[test]
fn writes_a_block_at_a_time(rt: HostRuntime) {
    assert!(rt; is_written(&rt, 42_000, Stop::Fault));
}

#[test]
fn nothing_is_written_after_an_error(rt: HostRuntime) {
    assert!(rt; is_written(&rt, 20_000, Stop::Fault));
    assert!(rt; is_written(&rt, 20_000, Stop::AcceptsNone));
}

// Whether two buffered bytes reach the writer on a flush, and the writer is flushed too.
fn is_flushed(rt: &impl Runtime) -> bool {
    let device = limited(rt.alloc(), 20, 20, Stop::Fault);
    let mut blocks = Blocks::new(rt.alloc(), device).expect(rt, "a block");
    let was_reported = write_all(&mut blocks, b"12").is_err();
    let is_reported = blocks.flush_all().is_err();
    let device = blocks.into_inner().into_inner();
    !was_reported
        & !is_reported
        & (device.written.len() == 2)
        & (device.calls == 1)
        & (device.flushed == 2)
}

#[test]
fn buffered_bytes_are_flushed(rt: HostRuntime) {
    assert!(rt; is_flushed(&rt));
}
