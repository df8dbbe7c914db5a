//! Who watches a run of a script at a host, and prints its lines.
ghost use Rattle.std.specs.Prelude.{◌≡◌, ◌∷◌, ◌++◌, List, [], Option, None, true, false};
ghost use Rattle.hosts.specs.Event.{Event};
ghost use Rattle.hosts.specs.Streams.{output, output_text};
ghost use Rattle.program_tasks.specs.declared.tasks.Saving.TheVariants.{Always};
ghost use Rattle.script8.specs.Replies.{answer_lines};
ghost use Rattle.script8.specs.declared.entries.Entry.{Entry};
ghost use Rattle.system_session.specs.ShownAnswers.{ShownAnswer};
ghost use Rattle.image_files.specs.declared.images.Image.{Image as ImageState};
ghost use Rattle.volume_image.specs.Image.{IsImageOf};
ghost use Rattle.script_commands.specs.RunSteps.{HasDone, HasEnded, TellsForm};
ghost use Rattle.script_commands.specs.Steps.{changes, is_refusal};

use crate::changes::may_have_changed;
use crate::hints::line_hint;
use crate::printing::{add_lines, print_waiting};
use crate::progress::Progress;
use crate::saves::keep;
use hosts::Host;
use image_files::tell_note;
use outcome::{NameNote, Note};
use program_tasks::Saving;
use refusals::SessionFault;
use script8::Reply;
use std::alloc::Global;
use std::io::{self, ErrorKind};
use system_session::Watcher;
use volume_image::MemoryVolume;

/// A run of a script at a host. Its lines are printed, its image is written where each change is to be kept, and a person at a terminal is
/// shown the form of a bad line.
#[derive(Drop)]
pub(crate) struct Run<'a, H> {
    pub(crate) host: &'a mut H,
    pub(crate) alloc: Global,
    pub(crate) progress: Progress,

    /// Where the next image is put.
    pub(crate) spare: Vec<u8>,

    /// The forms of lines, where a person types the script.
    pub(crate) forms: Option<&'static str>,

    /// The form of the line that was begun last.
    pub(crate) hint: &'static str,
}

impl<'a, H: Host> Run<'a, H> {
    /// A run that has done nothing.
    pub(crate) fn new(
        host: &'a mut H,
        alloc: Global,
        progress: Progress,
        spare: Vec<u8>,
        forms: Option<&'static str>,
    ) -> Run<'a, H>
        ensures host { result.host ≡ host.entry }
        ensures progress { result.progress ≡ progress }
    {
        Run {
            host,
            alloc,
            progress,
            spare,
            forms,
            hint: "",
        }
    }
}

/// Shows a person at a terminal the form of a line that is none. Where memory is wanted for it, it isn't shown.
fn show_form<H: Host>(
    host: &mut H,
    alloc: Global,
    progress: &Progress,
    is_bad_line: bool,
    hint: &str,
)
    ensures done { (start : ImageState) (old : List Event) (shown : List ShownAnswer)
        → HasDone start old shown progress.now (H.history host.old) → HasDone start old shown progress.now (H.history host.new) }
    ensures text { output_text (H.history host.new) ≡ output_text (H.history host.old) }
{
    if progress.is_typed && is_bad_line {
        tell_form(host, alloc, hint);
    }
}

/// Prints a form, unless memory is wanted for it.
fn tell_form<H: Host>(host: &mut H, alloc: Global, form: &str)
    ensures { TellsForm form.now (H.history host.old) (H.history host.new) }
{
    match tell_note(host, alloc, Note::OnName(NameNote::Hint, form)) {
        Ok(()) => {}
        Err(_) => {}
    }
}

/// Prints the lines of an answer after the file has the image that is to be kept, and answers whether the run goes on.
fn print_kept<H: Host>(
    host: &mut H,
    alloc: Global,
    progress: &mut Progress,
    spare: &mut Vec<u8>,
    hint: &str,
    store: &MemoryVolume,
    answer: &Result<Reply, SessionFault>,
    lines: &[u8],
) -> bool
    ensures done { (start : ImageState) (old : List Event) (shown : List ShownAnswer) (entry : Option Entry) → lines.now ≡ answer_lines entry answer.now
        → HasDone start old shown progress.old (H.history host.old)
        → HasDone start old (shown ++ record { entry = entry; answer = answer.now; blocks = store.now.blocks } ∷ []) progress.new (H.history host.new) }
    ensures text { result ≡ true → output_text (H.history host.new) ++ progress.new.lines.items
        ≡ output_text (H.history host.old) ++ progress.old.lines.items ++ lines.now }
    ensures ended { result ≡ false → HasEnded progress.new }
    ensures saving { progress.new.saving ≡ progress.old.saving }
    ensures typed { progress.new.is_typed ≡ progress.old.is_typed }
    ensures cut { progress.new.is_cut ≡ progress.old.is_cut }
{
    if !keep_change(host, alloc, progress, spare, store, answer) {
        return false;
    }
    show_form(host, alloc, progress, is_bad_line(answer), hint);
    match add_lines(host, progress, lines, is_refusal(answer)) {
        Ok(()) => true,
        Err(_) => false,
    }
}

/// Has the file hold the image of the volume after an answer, where it is to be kept, and answers whether the run goes on.
fn keep_change<H: Host>(
    host: &mut H,
    alloc: Global,
    progress: &mut Progress,
    spare: &mut Vec<u8>,
    store: &MemoryVolume,
    answer: &Result<Reply, SessionFault>,
) -> bool
    ensures done { (start : ImageState) (old : List Event) (shown : List ShownAnswer)
        → HasDone start old shown progress.old (H.history host.old) → HasDone start old shown progress.new (H.history host.new) }
    ensures image { result ≡ true → progress.new.saving ≡ Always → changes answer.now ≡ true
        → IsImageOf progress.new.image.bytes.items store.now.blocks }
    ensures going { result ≡ true → (progress.new.save_ending ≡ None) × (progress.new.fault ≡ None) }
    ensures ended { result ≡ false → HasEnded progress.new }
    ensures output { output (H.history host.new) ≡ output (H.history host.old) }
    ensures lines { progress.new.lines ≡ progress.old.lines }
    ensures saving { progress.new.saving ≡ progress.old.saving }
    ensures typed { progress.new.is_typed ≡ progress.old.is_typed }
    ensures cut { progress.new.is_cut ≡ progress.old.is_cut }
{
    if progress.save_ending.is_some() || progress.fault.is_some() {
        return false;
    }
    if progress.saving != Saving::Always || !may_have_changed(answer) {
        return true;
    }
    keep(host, alloc, progress, spare, store)
}

impl<'a, H: Host> Watcher<MemoryVolume> for Run<'a, H> {
    ghost use Rattle.std.specs.Prelude.{◌≡◌, ◌++◌, [], Some};
    ghost use Rattle.hosts.specs.Streams.{output_text};
    ghost use Rattle.script_commands.specs.RunSteps.{HasDone, HasEnded};

    ghost contents = { λ r. Some (output_text (H.history r.host.now) ++ r.progress.lines.items) };

    ghost follows = { λ first r. (r.host.ghost_name ≡ first.host.ghost_name)
        × (r.progress.saving ≡ first.progress.saving) × (r.progress.is_typed ≡ first.progress.is_typed)
        × (r.progress.is_cut ≡ first.progress.is_cut) };

    ghost was_shown = { λ first shown r. HasDone first.progress.image (H.history first.host.now) shown r.progress (H.history r.host.now) };

    ghost has_ended = { λ r. HasEnded r.progress };

    ghost is_flushed = { λ r. r.progress.lines.items ≡ [] };

    fn begins(&mut self, lines: &[u8]) {
        if let Some(forms) = self.forms {
            self.hint = line_hint(forms, lines);
        }
    }

    fn print_answer(
        &mut self,
        store: &MemoryVolume,
        answer: &Result<Reply, SessionFault>,
        lines: &[u8],
    ) -> io::Result<()> {
        let printed = print_kept(
            self.host,
            self.alloc,
            &mut self.progress,
            &mut self.spare,
            self.hint,
            store,
            answer,
            lines,
        );
        if printed {
            return Ok(());
        }
        Err(io::Error::from(ErrorKind::Other))
    }

    fn flush(&mut self) -> io::Result<()> {
        if self.progress.fault.is_some() {
            return Err(io::Error::from(ErrorKind::Other));
        }
        match print_waiting(self.host, &mut self.progress) {
            Ok(()) => Ok(()),
            Err(_) => Err(io::Error::from(ErrorKind::Other)),
        }
    }
}

/// Whether an answer is a refusal.
fn is_refusal(answer: &Result<Reply, SessionFault>) -> bool
    ensures { result ≡ is_refusal answer.now }
{
    match answer {
        Ok(_) => false,
        Err(_) => true,
    }
}

/// Whether an answer is the refusal of a line that is none.
fn is_bad_line(answer: &Result<Reply, SessionFault>) -> bool {
    match answer {
        Err(SessionFault::BadLine) => true,
        _ => false,
    }
}
