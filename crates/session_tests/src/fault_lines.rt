//! The texts of faults, and the lines of those that no run of the program or of a session meets.

use bin_tape::TapeFault;
use os8_files::FileFault;
use pal_faults::{AsmFault, Code};
use refusals::SessionFault;
use script8::{Entry, JobEntry, put_reply};
use std::alloc::Global;
use word12::Word;

/// Faults of each kind, numbers of many digits among them.
fn faults() -> [SessionFault; 12] {
    let sums = TapeFault::CheckSum {
        found: Word::low(0o1320),
        computed: Word::low(0o0317),
    };
    [
        SessionFault::BadLine,
        SessionFault::BadText,
        SessionFault::Writer,
        SessionFault::Memory,
        SessionFault::TooManyBreaks,
        SessionFault::File(FileFault::NoRoom(4088)),
        SessionFault::File(FileFault::TooLong),
        SessionFault::File(FileFault::TentativeOpen),
        SessionFault::File(FileFault::NothingWritten),
        SessionFault::Asm(AsmFault::At(Code::UA, u64::MAX)),
        SessionFault::Tape(TapeFault::BadFrame(u64::MAX)),
        SessionFault::Tape(sums),
    ]
}

const TEXTS: &str = "\
the line has none of the forms
the text can't be kept in a file
the writer failed
out of memory
there are too many breaks
no empty has so many blocks, the largest has 4088
the file is too long
a file is being written
no block was written
undefined name in line 18446744073709551615
bad frame 18446744073709551615
check sum 1320, computed 0317
";

const LINES: &[u8] = b"? 1 BAD LINE\n? 7 BAD TEXT\n? 9 WRITER\n? 10 MEMORY\n? 11 TOO MANY BREAKS\n\
    JOB 4294967295 ? 4.2 NO ROOM 4088\nJOB 4294967295 ? 4.6 TOO LONG\nJOB 4294967295 ? 4.7 TENTATIVE OPEN\n\
    JOB 4294967295 ? 4.11 NOTHING WRITTEN\nJOB 4294967295 ? 5 UA 18446744073709551615\n\
    JOB 4294967295 ? 6.1 BAD FRAME 18446744073709551615\nJOB 4294967295 ? 6.3 CHECK SUM 1320 0317\n";

/// Appends the lines that faults have as answers to a turn.
fn put_lines(out: &mut Vec<u8>) {
    let turn = Entry::Jobs(JobEntry::Turn(u32::MAX));
    for fault in faults() {
        let _ = put_reply(Some(&turn), &Err(fault), out);
    }
}

fn put_texts(text: &mut String) {
    for fault in faults() {
        let _ = writeln!(text, "{fault}");
    }
}

#[test]
fn texts_and_lines(rt: HostRuntime) {
    let alloc: Global = rt.alloc();
    let mut text = String::new(alloc);
    put_texts(&mut text);
    assert!(rt; text.as_str() == TEXTS, "{text}");
    let mut out = Vec::new(alloc);
    put_lines(&mut out);
    assert!(rt; out.as_slice() == LINES, "{out:?}");
}
