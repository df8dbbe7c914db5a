//! How the lines of a run are printed: many at once, and all that wait before more of the script is read.
ghost use Rattle.std.specs.Prelude.{◌≡◌, ◌∷◌, ◌++◌, ◌+◌, ◌≤◌, List, [], None, OnErr, OnOk, length, true, vec_capacity, vec_len};
ghost use Rattle.hosts.specs.Event.{Event};
ghost use Rattle.hosts.specs.Streams.{output_text};
ghost use Rattle.image_files.specs.declared.images.Image.{Image as ImageState};
ghost use Rattle.system_session.specs.ShownAnswers.{ShownAnswer};
ghost use Rattle.script_commands.specs.RunSteps.{Adds, HasDone, IsAfterPrint, MayPrint, PrintsLines};

use crate::progress::Progress;
use hosts::{Host, PrintFault};

/// How many bytes of lines wait at most.
pub(crate) const ROOM: usize = 8_192;

/// Has the lines of an answer wait to be printed. Where they have no room, those that wait are printed first.
pub(crate) fn add_lines<H: Host>(
    host: &mut H,
    progress: &mut Progress,
    lines: &[u8],
    is_refusal: bool,
) -> Result<(), PrintFault>
    ensures done { (start : ImageState) (old : List Event) (shown : List ShownAnswer) (one : ShownAnswer) → MayPrint is_refusal progress.old lines.now one
        → HasDone start old shown progress.old (H.history host.old) → HasDone start old (shown ++ one ∷ []) progress.new (H.history host.new) }
    ensures text { OnOk result (output_text (H.history host.new) ++ progress.new.lines.items
        ≡ output_text (H.history host.old) ++ progress.old.lines.items ++ lines.now) }
    ensures fault { OnErr result (progress.new.fault ≡ None → ⊥) }
    ensures saving { progress.new.saving ≡ progress.old.saving }
    ensures typed { progress.new.is_typed ≡ progress.old.is_typed }
    ensures cut { progress.new.is_cut ≡ progress.old.is_cut }
{
    if has_room(progress, lines) {
        push_lines(progress, lines, is_refusal);
        return Ok(());
    }
    print_waiting(host, progress)?;
    add_first(host, progress, lines, is_refusal)
}

/// The same where no lines wait: without room they are printed at once.
fn add_first<H: Host>(
    host: &mut H,
    progress: &mut Progress,
    lines: &[u8],
    is_refusal: bool,
) -> Result<(), PrintFault>
    requires { progress.old.lines.items ≡ [] }
    ensures done { (start : ImageState) (old : List Event) (shown : List ShownAnswer) (one : ShownAnswer) → MayPrint is_refusal progress.old lines.now one
        → HasDone start old shown progress.old (H.history host.old) → HasDone start old (shown ++ one ∷ []) progress.new (H.history host.new) }
    ensures text { OnOk result (output_text (H.history host.new) ++ progress.new.lines.items
        ≡ output_text (H.history host.old) ++ lines.now) }
    ensures fault { OnErr result (progress.new.fault ≡ None → ⊥) }
    ensures saving { progress.new.saving ≡ progress.old.saving }
    ensures typed { progress.new.is_typed ≡ progress.old.is_typed }
    ensures cut { progress.new.is_cut ≡ progress.old.is_cut }
{
    if has_room(progress, lines) {
        push_lines(progress, lines, is_refusal);
        return Ok(());
    }
    print_now(host, progress, lines, is_refusal)
}

/// Whether there is room for lines beside those that wait.
fn has_room(progress: &Progress, lines: &[u8]) -> bool
    ensures { result ≡ true → vec_len progress.now.lines + length lines.now ≤ vec_capacity progress.now.lines }
{
    match progress.lines.len().checked_add(lines.len()) {
        Some(sum) => sum <= progress.lines.capacity(),
        None => false,
    }
}

/// Has the lines of an answer wait to be printed, for which there is room.
fn push_lines(progress: &mut Progress, lines: &[u8], is_refusal: bool)
    requires { vec_len progress.old.lines + length lines.now ≤ vec_capacity progress.old.lines }
    ensures { Adds is_refusal lines.now progress.old progress.new }
{
    match progress.lines.extend_from_slice(lines) {
        Ok(()) => progress.is_refused = is_refusal || progress.is_refused,
        Err(_) => unreachable!(),
    }
}

/// Prints the lines that wait.
pub(crate) fn print_waiting<H: Host>(
    host: &mut H,
    progress: &mut Progress,
) -> Result<(), PrintFault>
    ensures done { (start : ImageState) (old : List Event) (shown : List ShownAnswer) → progress.old.fault ≡ None
        → HasDone start old shown progress.old (H.history host.old) → HasDone start old shown progress.new (H.history host.new) }
    ensures text { output_text (H.history host.new) ++ progress.new.lines.items
        ≡ output_text (H.history host.old) ++ progress.old.lines.items }
    ensures lines { OnOk result (progress.new.lines.items ≡ []) }
    ensures still { OnOk result (progress.new.fault ≡ progress.old.fault) }
    ensures fault { OnErr result (progress.new.fault ≡ None → ⊥) }
    ensures saving { progress.new.saving ≡ progress.old.saving }
    ensures typed { progress.new.is_typed ≡ progress.old.is_typed }
    ensures cut { progress.new.is_cut ≡ progress.old.is_cut }
    ensures image { progress.new.image ≡ progress.old.image }
    ensures save_ending { progress.new.save_ending ≡ progress.old.save_ending }
    ensures refused { progress.new.is_refused ≡ progress.old.is_refused }
{
    match print_bytes(host, &progress.lines) {
        Ok(()) => {
            progress.lines.clear();
            Ok(())
        }
        Err(fault) => {
            progress.fault = Some(fault);
            Err(fault)
        }
    }
}

/// Prints the lines of an answer at once, where none wait.
fn print_now<H: Host>(
    host: &mut H,
    progress: &mut Progress,
    lines: &[u8],
    is_refusal: bool,
) -> Result<(), PrintFault>
    ensures prints { PrintsLines lines.now result (H.history host.old) (H.history host.new) }
    ensures progress { IsAfterPrint is_refusal result progress.old progress.new }
{
    match print_bytes(host, lines) {
        Ok(()) => {
            progress.is_refused = is_refusal || progress.is_refused;
            Ok(())
        }
        Err(fault) => {
            progress.fault = Some(fault);
            Err(fault)
        }
    }
}

/// Prints bytes, if there are any.
fn print_bytes<H: Host>(host: &mut H, bytes: &[u8]) -> Result<(), PrintFault>
    ensures { PrintsLines bytes.now result (H.history host.old) (H.history host.new) }
{
    if bytes.is_empty() {
        return Ok(());
    }
    host.print(bytes)
}
