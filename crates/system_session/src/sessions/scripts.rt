//! Scripts: the lines of a reader, whose answers a writer gets.

ghost use Rattle.std.specs.Prelude.{◌≡◌, ◌≢◌, ℕ, ◌<◌, ◌≤◌, List, ◌∷◌, ◌++◌, [], length, drop, vec_capacity, OnErr, OnOk, IfOk, IfErr, ◌⊎◌, true, false, Ok, Err, None, Some, option_copied};
ghost use Rattle.script8.specs.Items.{script_of, WaitsForLines, HasNoItem};
ghost use Rattle.script8.specs.Replies.{answer_lines, IsShort};
ghost use Rattle.refusals.specs.declared.faults.SessionFault.TheVariants as fault;
ghost use Rattle.script8.specs.declared.items.Item.TheVariants.{Do, Finish};
ghost use Rattle.volume_jobs.specs.Jobs.{lowest_job, turns_left};
ghost use Rattle.script8.specs.Reading.{IsReaderEnd, MayReadNoMore, TakesBytes};
ghost use Rattle.system_session.specs.ReadSteps.{ReadsPiece};
ghost use Rattle.system_session.specs.RunSteps.{EndsWith, IsBegun, IsEnded, IsTold, RunsGiven, RunsItems, RunsNext, RunsPrefix, RunsRead, RunsTurn, Tells, WasShown, watch};
ghost use Rattle.system_session.specs.Script.{RunsText, is_working};
ghost use Rattle.system_session.specs.ShownAnswers.{ShownAnswer, ShowsOne, ShowsText};
ghost use Rattle.system_session.specs.declared.endings.Ending.TheVariants as ending;
ghost use Rattle.system_session.specs.Session.{state_of, NoCallFailed, IsLater};

use super::{Session, is_memory};
use crate::endings::Ending;
use crate::pending::{Begun, Pending};
use crate::watchers::{Unwatched, Watcher};
use byte_reader::{ByteReader, WatchedReader};
use refusals::{MOST, SessionFault};
use script8::readings::{PIECE, ends, zero_bytes};
use script8::{Entry, Item, JobEntry, LineReply, Next, Reply, next_item, put_reply};
use std::alloc::Global;
use std::io::{Read, Write};
use volume_image::BlockStore;

impl<S: BlockStore> Session<S> {
    /// Runs the script that a reader gives, and writes the lines of its answers, each line after the entry before it was
    /// answered (this project's profile). Before the reader is asked for more, the entries that it has given whole are done, and
    /// their lines are handed on. What is kept of the script is the longest entry, with its lines.
    ///
    /// At most 16,777,217 bytes are taken. Where the last of these comes, or the reader fails, the answer is `Reader` after the
    /// whole lines before. `Memory` and `Writer` end the run too, where they are met, and then no more bytes are taken. The line of
    /// `Reader` and of `Memory` is written last.
    pub fn run_text<R: Read, W: Write>(
        &mut self,
        alloc: Global,
        reader: &mut R,
        writer: &mut W,
    ) -> Result<(), SessionFault>
        ensures told { NoCallFailed self.old self.new
            → RunsText 16777216 (state_of self.old) (state_of self.new)
            (R.remaining reader.old) (R.remaining reader.new)
            (W.contents writer.old) (W.contents writer.new) result }
        ensures later { IsLater self.old self.new }
        ensures running { NoCallFailed self.old self.new → self.new.volume.stopped ≡ false }
        ensures taken { (count : ℕ) × TakesBytes (R.remaining reader.old) (R.remaining reader.new) count
            × (count ≤ 16777217)
            × (count ≡ 16777217 → (result ≡ Err fault.Reader) ⊎ (result ≡ Err fault.Writer)) }
        ensures kind { IfErr result (λ e. (e ≡ fault.Reader) ⊎ (e ≡ fault.Memory) ⊎ (e ≡ fault.Writer)) }
    {
        let mut watched = WatchedReader::new(reader);
        self.run_watched(alloc, &mut watched, &mut Unwatched::new(writer))
    }

    /// The same, where a watcher gets each item before it is done, and prints the lines. It is shown each answer with its lines, and with
    /// the store right after it: just these, one after another, in the run that `told` says of. Where the watcher ends the run, the answer
    /// is `Writer`, as where printing fails. The reader is only asked where the watcher has handed on all lines. It is `Reader` only where the reader has failed, or one byte too many was taken.
    pub fn run_watched<R: ByteReader, K: Watcher<S>>(
        &mut self,
        alloc: Global,
        reader: &mut R,
        watcher: &mut K,
    ) -> Result<(), SessionFault>
        requires { K.is_flushed watcher.old }
        ensures told { NoCallFailed self.old self.new
            → RunsText 16777216 (state_of self.old) (state_of self.new)
            (R.remaining reader.old) (R.remaining reader.new)
            (K.contents watcher.old) (K.contents watcher.new) result }
        ensures later { IsLater self.old self.new }
        ensures running { NoCallFailed self.old self.new → self.new.volume.stopped ≡ false }
        ensures taken { (count : ℕ) × TakesBytes (R.remaining reader.old) (R.remaining reader.new) count
            × (count ≤ 16777217)
            × (count ≡ 16777217 → (result ≡ Err fault.Reader) ⊎ (result ≡ Err fault.Writer)) }
        ensures kind { IfErr result (λ e. (e ≡ fault.Reader) ⊎ (e ≡ fault.Memory) ⊎ (e ≡ fault.Writer)) }
        ensures cause { IfErr result (λ e. e ≡ fault.Reader → MayReadNoMore 16777216 (R.has_failed reader.new)
            (R.remaining reader.old) (R.remaining reader.new)) }
        ensures stopped { IfErr result (λ e. e ≡ fault.Writer → K.has_ended watcher.new) }
        ensures reader { (first : R) → R.follows first reader.old → R.follows first reader.new }
        ensures kept { (first : K) → K.follows first watcher.old → K.follows first watcher.new }
        ensures shown { (first : K) (before : List ShownAnswer) → NoCallFailed self.old self.new
            → K.was_shown first before watcher.old → (shown : List ShownAnswer)
            × ShowsText 16777216 (state_of self.old) shown (state_of self.new)
            (R.remaining reader.old) (R.remaining reader.new)
            (K.contents watcher.old) (K.contents watcher.new) result
            × K.was_shown first (before ++ shown) watcher.new }
    {
        let run = self.run_read(alloc, reader, watcher);
        self.end_run(run, watcher)
    }

    /// Reads the script of a reader, and runs it as it comes.
    fn run_read<R: ByteReader, K: Watcher<S>>(
        &mut self,
        alloc: Global,
        reader: &mut R,
        watcher: &mut K,
    ) -> Result<(), Ending>
        requires { K.is_flushed watcher.old }
        ensures told { (first : K) → NoCallFailed self.old self.new
            → RunsRead 16777216 (state_of self.old) (state_of self.new)
            (R.remaining reader.old) (R.remaining reader.new)
            (watch K.contents K.was_shown first watcher.old)
            (watch K.contents K.was_shown first watcher.new) result }
        ensures later { IsLater self.old self.new }
        ensures running { NoCallFailed self.old self.new → self.new.volume.stopped ≡ false }
        ensures taken { (count : ℕ) × TakesBytes (R.remaining reader.old) (R.remaining reader.new) count
            × (count ≤ 16777217)
            × (count ≡ 16777217 → result ≡ Err ending.Reader) }
        ensures cause { IfErr result (λ e. e ≡ ending.Reader → MayReadNoMore 16777216 (R.has_failed reader.new)
            (R.remaining reader.old) (R.remaining reader.new)) }
        ensures reader { (first : R) → R.follows first reader.old → R.follows first reader.new }
        ensures stopped { IfErr result (λ e. e ≡ ending.Writer → K.has_ended watcher.new) }
        ensures kept { (first : K) → K.follows first watcher.old → K.follows first watcher.new }
    {
        let mut piece = zero_bytes(alloc, PIECE)?;
        let mut pending = Pending::new(alloc);
        loop {
            if pending.count == MOST {
                if Self::ends(reader, watcher)? {
                    return self.run_end(alloc, &pending.bytes, watcher);
                }
                return Err(Ending::Reader);
            }
            let at_end = Self::read_more(&mut pending, reader, &mut piece, watcher)?;
            if at_end {
                return self.run_end(alloc, &pending.bytes, watcher);
            }
            self.run_given(alloc, &mut pending, watcher)?;
        }
    }

    /// Reads once, as `Pending::read` does, where all lines were handed on.
    fn read_more<R: ByteReader, K: Watcher<S>>(
        pending: &mut Pending,
        reader: &mut R,
        piece: &mut [u8],
        watcher: &K,
    ) -> Result<bool, SessionFault>
        requires flushed { K.is_flushed watcher.now }
        requires piece { 0 < length piece.old }
        requires count { pending.old.count < 16777216 }
        requires waits { (0 < pending.old.lines) × WaitsForLines pending.old.bytes.items pending.old.lines }
        ensures read { ReadsPiece 16777216 (R.remaining reader.old) (R.remaining reader.new)
            pending.old.bytes.items pending.old.count pending.new.bytes.items pending.new.lines pending.new.count result }
        ensures cause { IfErr result (λ e. e ≡ fault.Reader → R.has_failed reader.new) }
        ensures kept { (first : R) → R.follows first reader.old → R.follows first reader.new }
    {
        let _ = watcher;
        pending.read(reader, piece)
    }

    /// Whether the reader has no byte more, where all lines were handed on; else it takes one more.
    fn ends<R: ByteReader, K: Watcher<S>>(reader: &mut R, watcher: &K) -> Result<bool, SessionFault>
        requires { K.is_flushed watcher.now }
        ensures end { IsReaderEnd (R.remaining reader.old) (R.remaining reader.new) result }
        ensures cause { OnErr result (R.has_failed reader.new) }
        ensures kept { (first : R) → R.follows first reader.old → R.follows first reader.new }
    {
        let _ = watcher;
        ends(reader)
    }

    /// Runs the whole items of what a reader gave and may go on from, and hands their lines on.
    fn run_given<K: Watcher<S>>(
        &mut self,
        alloc: Global,
        pending: &mut Pending,
        watcher: &mut K,
    ) -> Result<(), Ending>
        requires waits { WaitsForLines pending.old.bytes.items pending.old.lines }
        requires flushed { K.is_flushed watcher.old }
        ensures flushed { OnOk result (K.is_flushed watcher.new) }
        ensures told { (first : K) → NoCallFailed self.old self.new
            → RunsGiven pending.old.bytes.items pending.new.bytes.items
            (state_of self.old) (state_of self.new) (watch K.contents K.was_shown first watcher.old)
            (watch K.contents K.was_shown first watcher.new) result }
        ensures waits { OnOk result ((0 < pending.new.lines)
            × WaitsForLines pending.new.bytes.items pending.new.lines) }
        ensures count { pending.new.count ≡ pending.old.count }
        ensures later { IsLater self.old self.new }
        ensures running { NoCallFailed self.old self.new → self.new.volume.stopped ≡ false }
        ensures stopped { IfErr result (λ e. e ≡ ending.Writer → K.has_ended watcher.new) }
        ensures unread { IfErr result (λ e. e ≢ ending.Reader) }
        ensures kept { (first : K) → K.follows first watcher.old → K.follows first watcher.new }
    {
        if pending.lines > 0 {
            return Ok(());
        }
        let (bytes, lines) = self.run_items(alloc, &pending.bytes, false, watcher)?;
        pending.consume(bytes, lines);
        Self::flush(watcher)
    }

    /// Runs a text that is the end of a script.
    fn run_end<K: Watcher<S>>(
        &mut self,
        alloc: Global,
        text: &[u8],
        watcher: &mut K,
    ) -> Result<(), Ending>
        ensures told { (first : K) → NoCallFailed self.old self.new
            → RunsItems (script_of text.now) (state_of self.old) (state_of self.new)
            (watch K.contents K.was_shown first watcher.old)
            (watch K.contents K.was_shown first watcher.new) result }
        ensures later { IsLater self.old self.new }
        ensures running { NoCallFailed self.old self.new → self.new.volume.stopped ≡ false }
        ensures stopped { IfErr result (λ e. e ≡ ending.Writer → K.has_ended watcher.new) }
        ensures unread { IfErr result (λ e. e ≢ ending.Reader) }
        ensures kept { (first : K) → K.follows first watcher.old → K.follows first watcher.new }
    {
        let _rest = self.run_items(alloc, text, true, watcher)?;
        Ok(())
    }

    /// Runs the items of a text that is the end of a script, or goes on. It answers how many bytes they have, and how many lines
    /// are wanted after them.
    fn run_items<K: Watcher<S>>(
        &mut self,
        alloc: Global,
        text: &[u8],
        is_end: bool,
        watcher: &mut K,
    ) -> Result<(usize, u32), Ending>
        ensures told { (first : K) → NoCallFailed self.old self.new
            → RunsPrefix text.now is_end (state_of self.old) (state_of self.new)
            (watch K.contents K.was_shown first watcher.old)
            (watch K.contents K.was_shown first watcher.new) result }
        ensures rest { IfOk result (λ done. (done.0 ≤ length text.now)
            × HasNoItem (drop done.0 text.now) is_end done.1) }
        ensures later { IsLater self.old self.new }
        ensures running { NoCallFailed self.old self.new → self.new.volume.stopped ≡ false }
        ensures stopped { IfErr result (λ e. e ≡ ending.Writer → K.has_ended watcher.new) }
        ensures unread { IfErr result (λ e. e ≢ ending.Reader) }
        ensures kept { (first : K) → K.follows first watcher.old → K.follows first watcher.new }
    {
        let mut done = 0;
        loop {
            let (_, rest) = text.split_at(done);
            match self.run_next(alloc, rest, is_end, watcher)? {
                Begun::Waiting(lines) => return Ok((done, lines)),
                Begun::Ran(bytes) => done += bytes,
            }
        }
    }

    /// Runs what a text begins with, and answers how many bytes that has, or how many lines are wanted.
    fn run_next<K: Watcher<S>>(
        &mut self,
        alloc: Global,
        text: &[u8],
        is_end: bool,
        watcher: &mut K,
    ) -> Result<Begun, Ending>
        ensures told { (first : K) → NoCallFailed self.old self.new
            → RunsNext text.now is_end (state_of self.old) (state_of self.new)
            (watch K.contents K.was_shown first watcher.old)
            (watch K.contents K.was_shown first watcher.new) result }
        ensures begun { IfOk result (IsBegun text.now is_end) }
        ensures later { IsLater self.old self.new }
        ensures running { NoCallFailed self.old self.new → self.new.volume.stopped ≡ false }
        ensures stopped { IfErr result (λ e. e ≡ ending.Writer → K.has_ended watcher.new) }
        ensures unread { IfErr result (λ e. e ≢ ending.Reader) }
        ensures kept { (first : K) → K.follows first watcher.old → K.follows first watcher.new }
    {
        match next_item(alloc, text, is_end)? {
            Next::End(lines) => Ok(Begun::Waiting(lines)),
            Next::Blank(bytes) => Ok(Begun::Ran(bytes)),
            Next::Item { item, bytes } => {
                let (lines, _) = text.split_at(bytes);
                watcher.begins(lines);
                self.run_item(alloc, &item, watcher)?;
                Ok(Begun::Ran(bytes))
            }
        }
    }

    /// Runs an item.
    fn run_item<K: Watcher<S>>(
        &mut self,
        alloc: Global,
        item: &Item,
        watcher: &mut K,
    ) -> Result<(), Ending>
        ensures told { (first : K) → NoCallFailed self.old self.new
            → RunsItems (item.now ∷ []) (state_of self.old) (state_of self.new)
            (watch K.contents K.was_shown first watcher.old)
            (watch K.contents K.was_shown first watcher.new) result }
        ensures later { IsLater self.old self.new }
        ensures running { NoCallFailed self.old self.new → self.new.volume.stopped ≡ false }
        ensures stopped { IfErr result (λ e. e ≡ ending.Writer → K.has_ended watcher.new) }
        ensures unread { IfErr result (λ e. e ≢ ending.Reader) }
        ensures kept { (first : K) → K.follows first watcher.old → K.follows first watcher.new }
    {
        match item {
            Item::Do(entry) => self.run_entry(alloc, entry, watcher),
            Item::Finish => self.run_finish(alloc, watcher),
            Item::Refused(why) => self.refuse(*why, watcher),
        }
    }

    /// Does an entry, and writes the lines of its answer.
    fn run_entry<K: Watcher<S>>(
        &mut self,
        alloc: Global,
        entry: &Entry,
        watcher: &mut K,
    ) -> Result<(), Ending>
        ensures told { (first : K) → NoCallFailed self.old self.new
            → RunsItems (Do entry.now ∷ []) (state_of self.old) (state_of self.new)
            (watch K.contents K.was_shown first watcher.old)
            (watch K.contents K.was_shown first watcher.new) result }
        ensures later { IsLater self.old self.new }
        ensures running { NoCallFailed self.old self.new → self.new.volume.stopped ≡ false }
        ensures stopped { IfErr result (λ e. e ≡ ending.Writer → K.has_ended watcher.new) }
        ensures unread { IfErr result (λ e. e ≢ ending.Reader) }
        ensures kept { (first : K) → K.follows first watcher.old → K.follows first watcher.new }
    {
        let answer = self.step(alloc, entry);
        if is_memory(&answer) {
            return Err(Ending::Memory);
        }
        self.tell(Some(entry), &answer, watcher)
    }

    /// Lets the lowest job take turns until no job is left, and writes the lines of their ends.
    fn run_finish<K: Watcher<S>>(&mut self, alloc: Global, watcher: &mut K) -> Result<(), Ending>
        ensures told { (first : K) → NoCallFailed self.old self.new
            → RunsItems (Finish ∷ []) (state_of self.old) (state_of self.new)
            (watch K.contents K.was_shown first watcher.old)
            (watch K.contents K.was_shown first watcher.new) result }
        ensures later { IsLater self.old self.new }
        ensures running { NoCallFailed self.old self.new → self.new.volume.stopped ≡ false }
        ensures stopped { IfErr result (λ e. e ≡ ending.Writer → K.has_ended watcher.new) }
        ensures unread { IfErr result (λ e. e ≢ ending.Reader) }
        ensures kept { (first : K) → K.follows first watcher.old → K.follows first watcher.new }
    {
        while let Some(number) = self.jobs.lowest() {
            self.run_turn(alloc, number, watcher)?;
        }
        self.tell(None, &Ok(Reply::Line(LineReply::Finished)), watcher)
    }

    /// Lets the lowest job take a turn, and writes the line of its end.
    fn run_turn<K: Watcher<S>>(
        &mut self,
        alloc: Global,
        number: u32,
        watcher: &mut K,
    ) -> Result<(), Ending>
        requires { lowest_job self.old.jobs ≡ Some number }
        ensures told { (first : K) → NoCallFailed self.old self.new
            → RunsTurn number (state_of self.old) (state_of self.new)
            (watch K.contents K.was_shown first watcher.old)
            (watch K.contents K.was_shown first watcher.new) result }
        ensures fewer { OnOk result (turns_left self.new.jobs < turns_left self.old.jobs) }
        ensures later { IsLater self.old self.new }
        ensures running { NoCallFailed self.old self.new → self.new.volume.stopped ≡ false }
        ensures stopped { IfErr result (λ e. e ≡ ending.Writer → K.has_ended watcher.new) }
        ensures unread { IfErr result (λ e. e ≢ ending.Reader) }
        ensures kept { (first : K) → K.follows first watcher.old → K.follows first watcher.new }
    {
        let answer = self.turn(alloc, number);
        if is_memory(&answer) {
            return Err(Ending::Memory);
        }
        if is_working(&answer) {
            return Ok(());
        }
        let turn = Entry::Jobs(JobEntry::Turn(number));
        self.tell(Some(&turn), &answer, watcher)
    }

    /// Shows the watcher an answer with its lines, which it prints. `Memory` comes only where they are several, and then nothing is shown.
    fn tell<K: Watcher<S>>(
        &mut self,
        entry: Option<&Entry>,
        answer: &Result<Reply, SessionFault>,
        watcher: &mut K,
    ) -> Result<(), Ending>
        ensures told { (first : K) → (shown : List ShownAnswer)
            × ShowsOne (option_copied entry.entry) answer.now (state_of self.old) shown
            × IsTold (watch K.contents K.was_shown first watcher.old) (watch K.contents K.was_shown first watcher.new) answer.now shown result }
        ensures same { self.new ≡ self.old }
        ensures stopped { IfErr result (λ e. e ≡ ending.Writer → K.has_ended watcher.new) }
        ensures unread { IfErr result (λ e. e ≢ ending.Reader) }
        ensures kept { (first : K) → K.follows first watcher.old → K.follows first watcher.new }
    {
        Self::put_lines(&mut self.line, entry, answer)?;
        watcher.print_answer(self.files.store(), answer, &self.line)?;
        Ok(())
    }

    /// Builds the lines of an answer in a vector that is borrowed. Those that are one line need no memory.
    fn put_lines(
        line: &mut Vec<u8>,
        entry: Option<&Entry>,
        answer: &Result<Reply, SessionFault>,
    ) -> Result<(), Ending>
        requires room { 80 ≤ vec_capacity line.old }
        ensures ok { OnOk result (line.new.items ≡ answer_lines (option_copied entry.entry) answer.now) }
        ensures err { IfErr result (λ e. (e ≡ ending.Memory) × (IsShort answer.now → ⊥)) }
        ensures room { 80 ≤ vec_capacity line.new }
    {
        line.clear();
        put_reply(entry, answer, line)?;
        Ok(())
    }

    /// Hands on what was written.
    fn flush<K: Watcher<S>>(watcher: &mut K) -> Result<(), Ending>
        ensures flushed { OnOk result (K.is_flushed watcher.new) }
        ensures ok { (first : K) → OnOk result (Tells (watch K.contents K.was_shown first watcher.old) (watch K.contents K.was_shown first watcher.new) []) }
        ensures err { IfErr result (λ e. e ≡ ending.Writer) }
        ensures shown { (first : K) → WasShown (watch K.contents K.was_shown first watcher.old) (watch K.contents K.was_shown first watcher.new) [] }
        ensures stopped { IfErr result (λ e. e ≡ ending.Writer → K.has_ended watcher.new) }
        ensures unread { IfErr result (λ e. e ≢ ending.Reader) }
        ensures kept { (first : K) → K.follows first watcher.old → K.follows first watcher.new }
    {
        watcher.flush()?;
        Ok(())
    }

    /// Writes the line of a fault that belongs to no entry.
    fn refuse<K: Watcher<S>>(&mut self, why: SessionFault, watcher: &mut K) -> Result<(), Ending>
        ensures told { (first : K) → (shown : List ShownAnswer) × ShowsOne None (Err why) (state_of self.old) shown
            × IsTold (watch K.contents K.was_shown first watcher.old) (watch K.contents K.was_shown first watcher.new) (Err why) shown result }
        ensures same { self.new ≡ self.old }
        ensures stopped { IfErr result (λ e. e ≡ ending.Writer → K.has_ended watcher.new) }
        ensures unread { IfErr result (λ e. e ≢ ending.Reader) }
        ensures kept { (first : K) → K.follows first watcher.old → K.follows first watcher.new }
    {
        self.tell(None, &Err(why), watcher)
    }

    /// Ends a run: the line of want of memory or of the reader is the last.
    fn end_run<K: Watcher<S>>(
        &mut self,
        run: Result<(), Ending>,
        watcher: &mut K,
    ) -> Result<(), SessionFault>
        requires { run ≡ Err ending.Writer → K.has_ended watcher.old }
        ensures ended { (first : K) → IsEnded (state_of self.old) run (watch K.contents K.was_shown first watcher.old) (watch K.contents K.was_shown first watcher.new) result }
        ensures same { self.new ≡ self.old }
        ensures stopped { IfErr result (λ e. e ≡ fault.Writer → K.has_ended watcher.new) }
        ensures kept { (first : K) → K.follows first watcher.old → K.follows first watcher.new }
    {
        let Err(ending) = run else {
            Self::flush(watcher)?;
            return Ok(());
        };
        let why = SessionFault::from(ending);
        self.end_with(ending, watcher)?;
        Err(why)
    }

    /// Writes the last line, that of a fault, but for the writer's.
    fn end_with<K: Watcher<S>>(&mut self, why: Ending, watcher: &mut K) -> Result<(), Ending>
        requires { why ≡ ending.Writer → K.has_ended watcher.old }
        ensures other { OnOk result (why ≢ ending.Writer) }
        ensures told { (first : K) → EndsWith (state_of self.old) why (watch K.contents K.was_shown first watcher.old) (watch K.contents K.was_shown first watcher.new) result }
        ensures same { self.new ≡ self.old }
        ensures stopped { IfErr result (λ e. e ≡ ending.Writer → K.has_ended watcher.new) }
        ensures kept { (first : K) → K.follows first watcher.old → K.follows first watcher.new }
    {
        match why {
            Ending::Writer => Err(Ending::Writer),
            _ => {
                self.refuse(SessionFault::from(why), watcher)?;
                Self::flush(watcher)
            }
        }
    }
}

/// Whether an answer says that a job took a turn, and is not at its end.
fn is_working(answer: &Result<Reply, SessionFault>) -> bool
    ensures { result ≡ is_working answer.now }
{
    match answer {
        Ok(Reply::Line(LineReply::Working(_))) => true,
        _ => false,
    }
}
