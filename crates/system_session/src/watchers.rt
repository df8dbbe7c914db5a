//! Who watches a run of a script, and prints what it answers.

ghost use Rattle.std.specs.Prelude.{◌≡◌, ℕ, List, [], ◌∷◌, ◌++◌, Option, OnErr, OnOk};
ghost use Rattle.std.specs.Io.KnownBytes.{Appends};
ghost use Rattle.script8.specs.Replies.{answer_lines};
ghost use Rattle.script8.specs.declared.entries.Entry.{Entry};
ghost use Rattle.system_session.specs.ShownAnswers.{ShownAnswer};

use refusals::SessionFault;
use script8::Reply;
use std::io;
use std::io::Write;
use volume_image::BlockStore;

/// Who watches a run of a script over a store, and prints the lines of its answers. It is shown each answer with its lines, and with the
/// store after it, and may end the run there.
pub trait Watcher<S: BlockStore> {
    /// The bytes that were printed, where they are known.
    ghost contents: { Self → Option (List ℕ) };

    /// What holds of a watcher at first and of it now. Each call keeps it.
    ghost follows: { Self → Self → Type 0 };

    /// What holds of a watcher at first, of all that it was shown since, the first one first, and of it now.
    ghost was_shown: { Self → List ShownAnswer → Self → Type 0 };

    /// It has ended the run, or it could not print.
    ghost has_ended: { Self → Type 0 };

    /// No line waits to be handed on.
    ghost is_flushed: { Self → Type 0 };

    /// An item of the script comes next, of these lines.
    fn begins(&mut self, lines: &[u8])
        ensures contents { contents self.new ≡ contents self.old }
        ensures kept { (first : Self) → follows first self.old → follows first self.new }
        ensures shown { (first : Self) (shown : List ShownAnswer) → was_shown first shown self.old → was_shown first shown self.new };

    /// Prints the lines of an answer. An item, or a turn that a FINISH stands for, got it: the store is as it left it. Where this fails the
    /// run doesn't go on.
    fn print_answer(
        &mut self,
        store: &S,
        answer: &Result<Reply, SessionFault>,
        lines: &[u8],
    ) -> io::Result<()>
        ensures printed { OnOk result (Appends (contents self.old) (contents self.new) lines.now) }
        ensures stopped { OnErr result (has_ended self.new) }
        ensures kept { (first : Self) → follows first self.old → follows first self.new }
        ensures shown { (first : Self) (shown : List ShownAnswer) (entry : Option Entry) → lines.now ≡ answer_lines entry answer.now
            → was_shown first shown self.old
            → was_shown first (shown ++ record { entry = entry; answer = answer.now; blocks = S.contents store.now } ∷ []) self.new };

    /// Hands on what was printed. Before the script is read on, this is done.
    fn flush(&mut self) -> io::Result<()>
        ensures flushed { OnOk result (is_flushed self.new) }
        ensures printed { OnOk result (Appends (contents self.old) (contents self.new) []) }
        ensures stopped { OnErr result (has_ended self.new) }
        ensures kept { (first : Self) → follows first self.old → follows first self.new }
        ensures shown { (first : Self) (shown : List ShownAnswer) → was_shown first shown self.old → was_shown first shown self.new };
}

/// Nobody watches: a writer gets the lines.
#[derive(Drop)]
pub(crate) struct Unwatched<'a, W> {
    writer: &'a mut W,
}

impl<'a, W> Unwatched<'a, W> {
    pub(crate) fn new(writer: &'a mut W) -> Unwatched<'a, W>
        ensures { result.writer ≡ writer.entry }
    {
        Unwatched { writer }
    }
}

impl<'a, S: BlockStore, W: Write> Watcher<S> for Unwatched<'a, W> {
    ghost contents = { λ u. W.contents u.writer.now };

    ghost follows = { λ first u. u.writer.ghost_name ≡ first.writer.ghost_name };

    ghost was_shown = { λ _ _ _. Unit {0} };

    ghost has_ended = { λ _. Unit {0} };

    ghost is_flushed = { λ _. Unit {0} };

    fn begins(&mut self, _lines: &[u8]) {}

    fn print_answer(
        &mut self,
        _store: &S,
        _answer: &Result<Reply, SessionFault>,
        lines: &[u8],
    ) -> io::Result<()> {
        self.writer.write_all(lines)
    }

    fn flush(&mut self) -> io::Result<()> {
        self.writer.flush()
    }
}
