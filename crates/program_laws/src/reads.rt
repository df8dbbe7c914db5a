//! What commands read of the host, what they print or run of it, and what is printed where it can't be read, as laws.
ghost use Rattle.std.specs.Prelude.{◌≡◌, ℕ, Err, List, Ok, Option};
ghost use Rattle.std.specs.Global.{Vec};
ghost use Rattle.hosts.specs.Event.{Event};
ghost use Rattle.hosts.specs.declared.faults.HostFault.TheVariants as host;
ghost use Rattle.char_pack.specs.Packing.{frames};
ghost use Rattle.char_pack.specs.Texts.{text};
ghost use Rattle.archive_files.specs.Asking.{target_of};
ghost use Rattle.archive_files.specs.Getting.{Gets, IsTapeOf, line_feeds};
ghost use Rattle.archive_files.specs.declared.asking.Asked.{Asked as File};
ghost use Rattle.archive_files.specs.declared.forms.GetForm.TheVariants as get_as;
ghost use Rattle.outcome.specs.declared.contents.Content.TheVariants.{Image as Held};
ghost use Rattle.outcome.specs.declared.endings.Ending.TheVariants.{Busy, Line};
ghost use Rattle.outcome.specs.declared.reasons.Reason.TheVariants as reason;
ghost use Rattle.program_reports.specs.declared.programs.ProgramLine.TheVariants.{HostRead};
ghost use Rattle.program_tasks.specs.declared.forms.ImageForm.{ImageForm as Kept};
ghost use Rattle.program_tasks.specs.declared.forms.TapeForm.{TapeForm as Named};
ghost use Rattle.program_tasks.specs.declared.tasks.RimForm.{RimForm as Rim};
ghost use Rattle.program_tasks.specs.declared.tasks.SourceForm.{SourceForm as Source};
ghost use Rattle.program_tasks.specs.declared.tasks.TeletypeForm.{TeletypeForm as Typed};
ghost use Rattle.program_tasks.specs.declared.tasks.TraceForm.{TraceForm as Traced};
ghost use Rattle.tape_reports.specs.Lists.{IsListed};
ghost use Rattle.tape_reports.specs.Rims.{IsRimWritten};
ghost use Rattle.image_files.specs.Reading.{Holds, Looks, LooksAt, LooksImage};
ghost use Rattle.image_files.specs.Reasons.{TellsReason};
ghost use Rattle.image_files.specs.Waiting.{Within};
ghost use Rattle.image_files.specs.declared.mending.ImageReading.{ImageReading as How};
ghost use Rattle.get_commands.specs.Showing.{Shows};
ghost use Rattle.salvage_commands.specs.ScanningBlocks.{ShowsPieces};
ghost use Rattle.tape_commands.specs.Programs.{ReadsGiven};
ghost use Rattle.tape_commands.specs.Rims.{ReadsFrames, WritesRim};
ghost use Rattle.tape_commands.specs.Sources.{WritesSource};
ghost use Rattle.tape_commands.specs.Tapes.{ListsTape};
ghost use Rattle.run_commands.specs.Runs.{ReadsRun, start_or};
ghost use Rattle.run_commands.specs.Teletypes.{ReadsProgramOf};
ghost use Rattle.program_laws.specs.Reads.{HasProgram, IsOfFile, IsOfPieces, IsOfWords, PrintsOf, PrintsSource, SaysWhyUnread};

/// Of an image file that is looked at, the bytes are used which were read of it. With `--lenient` they are those of the file once mended.
pub fn read_images()
    ensures { (how : How) (name : List ℕ) (old : List Event) (image : Vec ℕ) (new : List Event) → LooksImage how name old (Ok image) new → IsOfFile how name image.items old new }
{}

/// What `get` prints of an image where it ends well. It is the frames of the words of the file that is asked for, or their text, or the tape with which
/// these frames begin. Nothing else is printed.
pub fn got_bytes()
    ensures frames { (file : File) (form : Kept) (old new : List Event) → Shows (λ bytes. Gets bytes (target_of file) get_as.Frames) form old (Ok tt) new
        → PrintsOf (LooksAt form) (IsOfWords (target_of file) (λ words bytes. bytes ≡ frames words)) old new }
    ensures text { (file : File) (form : Kept) (old new : List Event) → Shows (λ bytes. Gets bytes (target_of file) get_as.Text) form old (Ok tt) new
        → PrintsOf (LooksAt form) (IsOfWords (target_of file) (λ words bytes. bytes ≡ line_feeds (text words))) old new }
    ensures tape { (file : File) (form : Kept) (old new : List Event) → Shows (λ bytes. Gets bytes (target_of file) get_as.Tape) form old (Ok tt) new
        → PrintsOf (LooksAt form) (IsOfWords (target_of file) (λ words tape. IsTapeOf (frames words) tape)) old new }
{}

/// What `scan`, `tape`, `rim` and `source` print where they end well is of the bytes that they read, and they print nothing else.
pub fn printed_reads()
    ensures scan { (form : Kept) (old new : List Event) → ShowsPieces form old (Ok tt) new → PrintsOf (LooksAt form) IsOfPieces old new }
    ensures tape { (given : Option Named) (old new : List Event) → ListsTape given old (Ok tt) new → PrintsOf (ReadsGiven given) (λ program lines. IsListed program.frames.items lines) old new }
    ensures rim { (form : Rim) (given : Option Named) (old new : List Event) → WritesRim form given old (Ok tt) new
        → PrintsOf (ReadsFrames given) (λ frames bytes. IsRimWritten form frames.items bytes) old new }
    ensures source { (form : Source) (old new : List Event) → WritesSource form old (Ok tt) new → PrintsSource form old new }
{}

/// What `teletype`, `trace` and `profile` run is the program that they read. Its tape is laid over a core of zeros, and it starts at the cell that is
/// given, if one is.
pub fn loaded_programs()
    ensures typed { (form : Typed) (program : _) (old new : List Event) → ReadsProgramOf form old (Ok program) new
        → HasProgram form.tape (start_or form.start) program.core program.start old }
    ensures traced { (form : Traced) (run : _) (old new : List Event) → ReadsRun form old (Ok run) new
        → HasProgram form.tape (start_or form.start) run.program.core run.program.start old }
{}

/// Where a file can't be read or held, standard error has the reason: that of the call which failed, or that the file has too many bytes. That another
/// program holds an image is printed after the last try.
pub fn unread_reasons()
    ensures looks { (name : List ℕ) (old new : List Event) → Looks name name old (Err (Line HostRead)) new → SaysWhyUnread name old new }
    ensures holds { (name : List ℕ) (old new : List Event) → Holds name old (Err (Line HostRead)) new → SaysWhyUnread name old new }
    ensures busy { (seconds : ℕ) (name : List ℕ) (old new : List Event) (within : Within seconds name (Holds name) old (Err (Busy Held)) new)
        → TellsReason (reason.Fault host.Busy) name within.after new }
{}
