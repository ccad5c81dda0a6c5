//! Runs of the rows of `crate::modes` over readers and writers that fail, at each byte in turn.
use crate::ample::devices::{Stop, byte_by_byte, limited};
use crate::modes::{Case, MODES, PLANNED, run_and_flush_command, run_command};
use conf_tool::{Status, ToolFault};
use dd_file::blocks::Blocks;
use dd_file::device::{FromRead, Sink, Source, ToWrite};
use std::alloc::Global;
use test_support::runtime::Runtime;

// The result of a run that fails, or that of its row.
fn expected(case: Case, fails: bool, fault: ToolFault) -> Result<Status, ToolFault> {
    if fails { Err(fault) } else { case.3 }
}

// Whether a run ends as expected, with a prefix of the output, if its reader gives a byte per call and fails after this
// many. The reader is called for each byte and once more.
fn reads_until(alloc: Global, case: Case, before: usize) -> bool {
    let (command, input, output, _) = case;
    let mut reader = byte_by_byte(input, before);
    let mut writer = ToWrite::new(Vec::new(alloc));
    let outcome = run_command(alloc, command, &mut reader, &mut writer);
    let fails = before <= input.len();
    let failed = reader.failed();
    let calls = reader.into_inner().calls;
    let written = writer.into_inner();
    let is_whole = written.len() == output.len();
    (outcome == expected(case, fails, ToolFault::Read))
        & (failed == fails)
        & (calls == before.min(input.len()).saturating_add(1))
        & output.starts_with(written.as_slice())
        & (fails | is_whole)
}

// Whether a run ends as expected if its writer accepts a byte per call and stops after this many, with a prefix of this
// many bytes. After an error the writer is not called again, not even for an empty write or a flush.
fn writes_until(alloc: Global, case: Case, limit: usize, stop: Stop) -> bool {
    let (command, input, output, _) = case;
    let mut writer = limited(alloc, 1, limit, stop);
    let outcome = run_command(alloc, command, &mut FromRead::new(input), &mut writer);
    let fails = limit < output.len();
    let failed = writer.failed();
    let device = writer.into_inner();
    let prefix = device.written.as_slice();
    (outcome == expected(case, fails, ToolFault::Write))
        & (failed == fails)
        & (prefix.len() == limit.min(output.len()))
        & output.starts_with(prefix)
        & (device.calls == prefix.len().saturating_add(usize::from(fails)))
        & (device.later_calls == 0)
}

// Whether a run over a block ends as expected if its writer stops after this many bytes: the output fits the block, and
// is written after the run.
fn flushes_until(rt: &impl Runtime, case: Case, limit: usize) -> bool {
    let (command, input, output, _) = case;
    let device = limited(rt.alloc(), 4096, limit, Stop::Fault);
    let mut blocks = Blocks::new(rt.alloc(), device).expect(rt, "a block");
    let outcome = run_and_flush_command(
        rt.alloc(),
        command,
        &mut FromRead::new(input),
        &mut blocks,
    );
    let device = blocks.into_inner().into_inner();
    let prefix = device.written.as_slice();
    (outcome == expected(case, limit < output.len(), ToolFault::Write))
        & (prefix.len() == limit.min(output.len()))
        & output.starts_with(prefix)
        & (device.later_calls == 0)
}

fn stops_reading(rt: &impl Runtime, case: Case) -> bool {
    let mut is_so = true;
    for before in 0..case.1.len() + 2 {
        is_so &= reads_until(rt.alloc(), case, before);
    }
    is_so
}

fn stops_writing(rt: &impl Runtime, case: Case) -> bool {
    let mut is_so = true;
    for limit in 0..case.2.len() + 1 {
        is_so &= writes_until(rt.alloc(), case, limit, Stop::Fault)
            & writes_until(rt.alloc(), case, limit, Stop::AcceptsNone)
            & flushes_until(rt, case, limit);
    }
    is_so
}

fn stop(rt: &impl Runtime, cases: &[Case]) {
    for (index, case) in cases.iter().enumerate() {
        assert!(rt; stops_reading(rt, *case), "row {index}");
        assert!(rt; stops_writing(rt, *case), "row {index}");
    }
}

#[test]
fn each_mode_fails_at_each_byte(rt: HostRuntime) {
    stop(&rt, &MODES);
}

#[test]
fn plan_fails_at_each_byte(rt: HostRuntime) {
    stop(&rt, &PLANNED);
}
