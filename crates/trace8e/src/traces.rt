//! A run, and a writer that gets the line of each of its steps.

ghost use Rattle.std.specs.Prelude.{◌≡◌, ◌+◌, ◌^◌, ◌<◌, ◌++◌, [], length, IfErr, IfOk, OnErr, OnOk};
ghost use Rattle.std.specs.Io.KnownBytes.{Appends};
ghost use Rattle.word12.specs.declared.sizes.TheConstants.{CORE};
ghost use Rattle.tape_source.specs.Tags.{is_flagged};
ghost use Rattle.pdp8e.specs.Papers.{papers_after};
ghost use Rattle.pdp8e.specs.Terminal.{next, after_step, move_at};
ghost use Rattle.trace8e.specs.Trace.{next_line};
ghost use Rattle.trace8e.specs.Tracing.{Traces};
ghost use Rattle.trace8e.specs.Papers.{GetTraced};
ghost use Rattle.trace8.specs.TracingSteps.{HandsOn};
ghost use Rattle.trace8e.specs.TracingSteps.{TracesInto};
ghost use Rattle.trace8.specs.declared.faults.TraceFault.TheVariants as fault;

use crate::lines::put_line;
use crate::moves::put_moved;
use crate::stores::Before;
use cpu8::Stepped;
use pdp8e::laws::step_has_parts;
use pdp8e::{Papers, Terminal};
use std::alloc::{AllocError, Global};
use terminal8::{Ended, Output, TerminalEnd, stop_of};
use trace8::TraceFault;

/// Makes steps of a terminal, at most n of them, and hands the line of each on to a writer, with these cells tagged. The k-th line is
/// that of the k-th step (this project's profile). It ends as a run does: at a HLT, or where the machine stands stopped. It also
/// ends where no key is left and the machine waits for one for ever, or after n steps.
///
/// Memory is taken once, before the first step, unless lines are longer than any that is known. The answer is `Writer` where the
/// writer failed. What the steps punch, and print on the line printer, is put on paper, and a line of each transfer, however the trace ends.
pub fn trace<O: Output>(
    alloc: Global,
    terminal: &mut Terminal<'_>,
    n: u64,
    tags: &[bool],
    papers: &mut Papers,
    writer: &mut O,
) -> Result<Ended, TraceFault>
    requires tags { length tags.now ≡ CORE }
    requires room { terminal.old.since + n < 2 ^ 64 }
    ensures traces { Traces (is_flagged tags.now) n terminal.old terminal.new
        (O.contents writer.old) (O.contents writer.new) result }
    ensures cause { IfErr result (λ e. e ≡ fault.Writer → O.has_failed writer.new) }
    ensures papers { GetTraced terminal.old terminal.new papers.old papers.new result }
{
    let mut lines = Vec::with_capacity(alloc, HANDED_ON_AT_ONCE + LONGEST_LINE)?;
    let ended = trace_steps(terminal, n, tags, papers, &mut lines, writer)?;
    write_out(writer, &lines)?;
    Ok(ended)
}

/// The same, but the last lines may still wait.
fn trace_steps<O: Output>(
    terminal: &mut Terminal<'_>,
    n: u64,
    tags: &[bool],
    papers: &mut Papers,
    lines: &mut Vec<u8>,
    writer: &mut O,
) -> Result<Ended, TraceFault>
    requires tags { length tags.now ≡ CORE }
    requires room { terminal.old.since + n < 2 ^ 64 }
    requires none { lines.old.items ≡ [] }
    ensures traces { TracesInto (is_flagged tags.now) n terminal.old terminal.new
        (O.contents writer.old) (O.contents writer.new) lines.new.items result }
    ensures cause { IfErr result (λ e. e ≡ fault.Writer → O.has_failed writer.new) }
    ensures papers { GetTraced terminal.old terminal.new papers.old papers.new result }
{
    if !terminal.machine().processor().is_running() {
        return Ok(Ended {
            steps: 0,
            why: TerminalEnd::Halt,
        });
    }
    for made in 0..n {
        if terminal.starves() {
            return Ok(Ended {
                steps: made,
                why: TerminalEnd::Keys,
            });
        }
        hand_on(lines, writer)?;
        let did = trace_step(terminal, tags, papers, lines)?;
        if let Some(why) = stop_of(did) {
            return Ok(Ended {
                steps: made + 1,
                why,
            });
        }
    }
    Ok(Ended {
        steps: n,
        why: TerminalEnd::Limit,
    })
}

/// Makes a step, and appends its line, after that of a transfer that ends in its beginning.
fn trace_step(
    terminal: &mut Terminal<'_>,
    tags: &[bool],
    papers: &mut Papers,
    lines: &mut Vec<u8>,
) -> Result<Stepped, AllocError>
    requires tags { length tags.now ≡ CORE }
    requires room { terminal.old.since + 1 < 2 ^ 64 }
    ensures terminal { terminal.new ≡ next terminal.old }
    ensures did { IfOk result (λ did. did ≡ (after_step terminal.old).1) }
    ensures line { OnOk result (lines.new.items ≡ lines.old.items
        ++ next_line (is_flagged tags.now) terminal.old) }
    ensures papers { papers.new ≡ papers_after (move_at terminal.old) terminal.new.machine papers.old }
{
    step_has_parts();
    let moved = terminal.begin_step();
    let before = Before::of(terminal.machine().processor());
    let did = terminal.finish_step();
    papers.put(&moved, terminal.machine());
    put_moved(lines, &moved)?;
    put_line(lines, tags, &before, &did, terminal.machine().processor())?;
    Ok(did)
}

/// Hands the lines on to a writer where there are many.
#[inline]
fn hand_on<O: Output>(lines: &mut Vec<u8>, writer: &mut O) -> Result<(), TraceFault>
    ensures ok { OnOk result (HandsOn lines.old.items lines.new.items
        (O.contents writer.old) (O.contents writer.new)) }
    ensures err { IfErr result (λ e. e ≡ fault.Writer) }
    ensures cause { OnErr result (O.has_failed writer.new) }
{
    if lines.len() <= HANDED_ON_AT_ONCE {
        return Ok(());
    }
    write_out(writer, lines)?;
    lines.clear();
    Ok(())
}

/// Hands a text on to a writer, and has that hand it on too.
fn write_out<O: Output>(writer: &mut O, text: &[u8]) -> Result<(), TraceFault>
    ensures ok { OnOk result (Appends (O.contents writer.old) (O.contents writer.new) text.now) }
    ensures err { IfErr result (λ e. e ≡ fault.Writer) }
    ensures cause { OnErr result (O.has_failed writer.new) }
{
    if writer.put(text).is_err() {
        return Err(TraceFault::Writer);
    }
    match writer.hand_on() {
        Ok(()) => Ok(()),
        Err(_) => Err(TraceFault::Writer),
    }
}

/// The bytes that wait at most before a step.
const HANDED_ON_AT_ONCE: usize = 0o20000;

/// No line has so many bytes.
const LONGEST_LINE: usize = 0o400;
