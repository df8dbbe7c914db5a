//! The operand of `ASSEMBLE`: a target and its sources.
ghost use Rattle.std.specs.Prelude.{◌≡◌, ◌≤◌, ◌&&◌, ◌⊎◌, ◌++◌, OnOk, IfOk, nat_le, length, Ok, Err};
ghost use Rattle.std.specs.List.{list_all};
ghost use Rattle.script8.specs.Lines.{Parses, whole, assemble_of, lists_names, parts_of_list, is_name};
ghost use Rattle.script8.specs.declared.entries.Entry.TheVariants as entry;
ghost use Rattle.script8.specs.declared.entries.JobEntry.TheVariants as job;
ghost use Rattle.refusals.specs.declared.faults.SessionFault.TheVariants.{Memory};
ghost use Rattle.script8.specs.declared.lines.Line.TheVariants.{Whole};

use crate::parts::first_part;
use crate::{Bytes, Entry, JobEntry, Line, Names};
use refusals::SessionFault;
use std::alloc::{AllocError, Global};
use word12::MOST_SOURCES;

/// What `ASSEMBLE` of a word says: a target, `<`, and 1 to 8 sources with commas between.
pub(crate) fn assemble(alloc: Global, word: &[u8]) -> Result<Line, SessionFault>
    ensures { Parses (whole (assemble_of word.now)) result }
{
    let (to, is_last, rest) = first_part(word, b'<');
    if is_last {
        return Err(SessionFault::BadLine);
    }
    let (from, is_last, _) = first_part(rest, b'<');
    if !is_last {
        return Err(SessionFault::BadLine);
    }
    if !are_names(to, 1) || !are_names(from, MOST_SOURCES) {
        return Err(SessionFault::BadLine);
    }
    target_and_sources(alloc, to, from)
}

/// Whether a list is one of names, so many at most.
fn are_names(list: &[u8], most: usize) -> bool
    ensures { result ≡ lists_names most list.now }
{
    if most == 0 {
        return false;
    }
    let (name, is_last, others) = first_part(list, b',');
    if name.is_empty() {
        return false;
    }
    is_last || are_names(others, most - 1)
}

/// The `ASSEMBLE` of a target and of the sources of a list.
fn target_and_sources(alloc: Global, to: &[u8], from: &[u8]) -> Result<Line, SessionFault>
    ensures { (result ≡ Ok (Whole (entry.Jobs (job.Assemble to.now (parts_of_list from.now)))))
        ⊎ (result ≡ Err Memory) }
{
    let to = Vec::from_slice(alloc, to)?;
    let mut names = Vec::new(alloc);
    put_names(alloc, from, &mut names)?;
    Ok(Line::Whole(Entry::Jobs(JobEntry::Assemble {
        to: Bytes::new(to),
        from: Names::new(names),
    })))
}

/// Puts the names of a list after others.
fn put_names(alloc: Global, list: &[u8], names: &mut Vec<Bytes>) -> Result<(), AllocError>
    ensures { OnOk result (names.new.items ≡ names.old.items ++ parts_of_list list.now) }
{
    let (name, is_last, others) = first_part(list, b',');
    names.push(Bytes::new(Vec::from_slice(alloc, name)?))?;
    if is_last {
        return Ok(());
    }
    put_names(alloc, others, names)
}
