ghost use Rattle.std.specs.Prelude.{◌≡◌, ◌+◌, ◌≤◌, ◌++◌, OnOk, OnErr, IsOk, IsOkUnless, vec_len, vec_capacity, Ok, Err, option_copied};
ghost use Rattle.script8.specs.Replies.{answer_lines, reply_lines, line_reply_text, line_of, IsShort};
ghost use Rattle.refusals.specs.declared.faults.SessionFault.TheVariants.{Memory};

use crate::job_prefixes::{job_of, put_fault_prefix};
use crate::line_replies::put_line_reply;
use crate::reports::put_report;
use crate::{Entry, LineReply, Reply};
use refusals::text_lines::{TextLine, put};
use refusals::{SessionFault, put_text};
use std::alloc::AllocError;

/// Appends the lines of an answer, each with its LF (this project's profile). The entry is that of the answer, where it
/// belongs to one.
///
/// `Memory` comes only where the vector could not grow, and then it is unchanged. Where it has room for 80 bytes, no
/// memory is taken for an answer of one line.
pub fn put_reply(
    entry: Option<&Entry>,
    answer: &Result<Reply, SessionFault>,
    out: &mut Vec<u8>,
) -> Result<(), SessionFault>
    ensures ok { OnOk result
        (out.new.items ≡ out.old.items ++ answer_lines (option_copied entry.entry) answer.now) }
    ensures err { OnErr result (out.new.items ≡ out.old.items) }
    ensures room { IsShort answer.now → vec_len out.old + 80 ≤ vec_capacity out.old → IsOk result }
    ensures capacity { vec_capacity out.old ≤ vec_capacity out.new }
    ensures memory { IsOkUnless result Memory }
{
    match answer {
        Ok(reply) => put_lines(reply, out)?,
        Err(fault) => put_fault(entry, *fault, out)?,
    }
    Ok(())
}

/// Appends the lines of a reply. Where it is one line, and the vector has room for 80 bytes, no memory is taken.
fn put_lines(reply: &Reply, out: &mut Vec<u8>) -> Result<(), AllocError>
    ensures ok { OnOk result (out.new.items ≡ out.old.items ++ reply_lines reply.now) }
    ensures err { OnErr result (out.new.items ≡ out.old.items) }
    ensures room { IsShort (Ok reply.now) → vec_len out.old + 80 ≤ vec_capacity out.old → IsOk result }
    ensures capacity { vec_capacity out.old ≤ vec_capacity out.new }
{
    match reply {
        Reply::Line(reply) => put_line(reply, out),
        Reply::Report(report) => put_report(report, out),
    }
}

/// Appends a reply of one line. Where the vector has room for 80 bytes, no memory is taken.
fn put_line(reply: &LineReply, out: &mut Vec<u8>) -> Result<(), AllocError>
    ensures ok { OnOk result (out.new.items ≡ out.old.items ++ line_of (line_reply_text reply.now)) }
    ensures err { OnErr result (out.new.items ≡ out.old.items) }
    ensures room { vec_len out.old + 80 ≤ vec_capacity out.old → IsOk result }
    ensures capacity { vec_capacity out.old ≤ vec_capacity out.new }
{
    let mut line = TextLine::new();
    put_line_reply(&mut line, reply);
    put(&mut line, b"\n");
    out.extend_from_slice(line.as_slice())
}

/// Appends the line of a fault; one of a job's end begins with the job. Where the vector has room for 80 bytes, no memory is
/// taken.
fn put_fault(
    entry: Option<&Entry>,
    fault: SessionFault,
    out: &mut Vec<u8>,
) -> Result<(), AllocError>
    ensures ok { OnOk result
        (out.new.items ≡ out.old.items ++ answer_lines (option_copied entry.entry) (Err fault)) }
    ensures err { OnErr result (out.new.items ≡ out.old.items) }
    ensures room { vec_len out.old + 80 ≤ vec_capacity out.old → IsOk result }
    ensures capacity { vec_capacity out.old ≤ vec_capacity out.new }
{
    let mut line = TextLine::new();
    let again = fault;
    put_fault_prefix(&mut line, job_of(entry), fault);
    let mut text = TextLine::new();
    put_text(&mut text, again);
    put(&mut line, text.as_slice());
    put(&mut line, b"\n");
    out.extend_from_slice(line.as_slice())
}
