//! The texts of replies of one line.
ghost use Rattle.std.specs.Prelude.{◌≡◌, ◌+◌, ◌≤◌, ◌++◌, [], ◌∷◌};
ghost use Rattle.arrayvec.specs.ArrayVec.{array_vec_len};
ghost use Rattle.word12.specs.Octal.{octal5};
ghost use Rattle.script8.specs.Replies.{line_reply_text, assembled_text, file_text, why_text, setting_text, character_text, job_text};

use crate::{LineReply, StepEnd};
use arrayvec::ArrayVec;
use os8_dir::Name;
use refusals::text_lines::{put, put_name, put_number};
use word12::Cell;

/// Puts the text of a reply of one line into an empty line.
pub(crate) fn put_line_reply(line: &mut ArrayVec<u8, 80>, reply: &LineReply)
    requires { array_vec_len line.old ≡ 0 }
    ensures text { line.new.items ≡ line.old.items ++ line_reply_text reply.now }
    ensures short { array_vec_len line.new ≤ 70 }
{
    match reply {
        LineReply::Stored { name, blocks } => {
            put(line, b"STORED ");
            put_file(line, *name, *blocks);
        }
        LineReply::Deleted(name) => {
            put(line, b"DELETED ");
            put_name(line, *name);
        }
        LineReply::Job(job) => put_job(line, *job),
        LineReply::Working(job) => {
            put(line, b"WORKING ");
            put_number(line, u64::from(*job));
        }
        LineReply::Assembled {
            number,
            name,
            blocks,
        } => put_assembled(line, *number, *name, *blocks),
        LineReply::Loaded { number, name } => {
            put_job(line, *number);
            put(line, b" LOADED ");
            put_name(line, *name);
        }
        LineReply::Squeezed(job) => {
            put_job(line, *job);
            put(line, b" SQUEEZED");
        }
        LineReply::Finished => put(line, b"FINISHED"),
        LineReply::Started(cell) => {
            put(line, b"STARTED ");
            put_cell(line, *cell);
        }
        LineReply::Steps { steps, why, cell } => {
            put(line, b"STEPS ");
            put_number(line, u64::from(*steps));
            put_why(line, *why);
            put_cell(line, *cell);
        }
        LineReply::Key(character) => {
            put(line, b"KEY ");
            put(line, &octal3(*character));
        }
        LineReply::Done => put(line, b"DONE"),
        LineReply::Switches(word) => {
            put(line, b"SWITCHES ");
            put(line, &word.octal4());
        }
        LineReply::Core { cell, word } => {
            put_cell(line, *cell);
            put(line, b" ");
            put(line, &word.octal4());
        }
        LineReply::Break { cell, is_on } => {
            put(line, b"BREAK ");
            put_cell(line, *cell);
            put_setting(line, *is_on);
        }
    }
}

/// Puts the end of an assembling job into an empty line.
fn put_assembled(line: &mut ArrayVec<u8, 80>, number: u32, name: Name, blocks: usize)
    requires { array_vec_len line.old ≡ 0 }
    ensures text { line.new.items ≡ line.old.items ++ assembled_text number name blocks }
    ensures short { array_vec_len line.new ≤ 70 }
{
    put_job(line, number);
    put(line, b" ASSEMBLED ");
    put_file(line, name, blocks);
}

/// Puts the name of a file, and its blocks.
fn put_file(line: &mut ArrayVec<u8, 80>, name: Name, blocks: usize)
    requires { array_vec_len line.old ≤ 40 }
    ensures text { line.new.items ≡ line.old.items ++ file_text name blocks }
    ensures short { array_vec_len line.new ≤ array_vec_len line.old + 30 }
{
    put_name(line, name);
    put(line, b" ");
    put_number(line, blocks as u64);
}

/// Puts why steps ended, between blanks.
fn put_why(line: &mut ArrayVec<u8, 80>, why: StepEnd)
    requires { array_vec_len line.old ≤ 40 }
    ensures text { line.new.items ≡ line.old.items ++ 0o40 ∷ why_text why ++ 0o40 ∷ [] }
    ensures short { array_vec_len line.new ≤ array_vec_len line.old + 12 }
{
    match why {
        StepEnd::Halt => put(line, b" HALT "),
        StepEnd::Unassigned => put(line, b" UNASSIGNED "),
        StepEnd::Break => put(line, b" BREAK "),
        StepEnd::Limit => put(line, b" LIMIT "),
    }
}

/// Puts whether a break is set, after a blank.
fn put_setting(line: &mut ArrayVec<u8, 80>, is_on: bool)
    requires { array_vec_len line.old ≤ 40 }
    ensures text { line.new.items ≡ line.old.items ++ 0o40 ∷ setting_text is_on }
    ensures short { array_vec_len line.new ≤ array_vec_len line.old + 4 }
{
    if is_on {
        put(line, b" ON");
    } else {
        put(line, b" OFF");
    }
}

/// Puts the number of a job into an empty line.
pub(crate) fn put_job(line: &mut ArrayVec<u8, 80>, job: u32)
    requires { array_vec_len line.old ≡ 0 }
    ensures text { line.new.items ≡ line.old.items ++ job_text job [] }
    ensures short { array_vec_len line.new ≤ 24 }
{
    put(line, b"JOB ");
    put_number(line, u64::from(job));
}

/// Puts the octal digits of a cell.
fn put_cell(line: &mut ArrayVec<u8, 80>, cell: Cell)
    requires { array_vec_len line.old ≤ 60 }
    ensures text { line.new.items ≡ line.old.items ++ octal5 cell }
    ensures len { array_vec_len line.new ≡ array_vec_len line.old + 5 }
{
    put(line, &cell.octal5());
}

/// The three octal digits of a character.
pub(crate) fn octal3(character: u8) -> [u8; 3]
    ensures { result ≡ character_text character }
{
    [
        0o60 + character / 64,
        0o60 + character / 8 % 8,
        0o60 + character % 8,
    ]
}
