//! What the blocks of a volume hold by their content alone.
ghost use Rattle.std.specs.Prelude.{◌≡◌, ◌++◌, IfOk, OnOk, map};
ghost use Rattle.char_pack.specs.Packing.{frames as frames_in};
ghost use Rattle.volume_image.specs.Volume.{IsVolume};
ghost use Rattle.volume_salvage.specs.Scanning.{IsScan, Scans, piece_line, piece_of_program, piece_of_segment, piece_of_text, scan_text};

use crate::pieces::{Piece, program_piece, segment_piece, text_piece};
use crate::salvages::volume_of;
use crate::scan_lines::{put_piece, put_pieces};
use archive_files::ArchiveFault;
use archive_files::parts::words_at;
use block_scan::{Program, Segment, TextPiece, programs_in, segments_in, texts_in};
use char_pack::Frames;
use std::alloc::{AllocError, Global};
use volume_image::{BlockStore, MemoryVolume};
use word12::Word;

/// What the blocks of a volume hold, whatever its directory says.
#[derive(Drop)]
pub struct Scan {
    /// The frames of all its blocks.
    pub frames: Vec<u8>,

    /// Its whole texts, then its core images, BIN tapes and RIM tapes, and then segments of directories, each in order of their blocks.
    pub pieces: Vec<Piece>,
}

impl Scan {
    /// The lines of all pieces: what each holds, its first block, and how many blocks it has (this project's profile). Of a text they show
    /// what its first line with a graphic character begins with.
    pub fn lines(&self, alloc: Global) -> Result<Vec<u8>, AllocError>
        ensures { IfOk result (λ lines. lines.items ≡ scan_text self.now) }
    {
        let mut lines = Vec::new(alloc);
        put_pieces(&self.frames, &self.pieces, &mut lines)?;
        Ok(lines)
    }

    /// The line of a piece.
    pub fn line(&self, alloc: Global, piece: Piece) -> Result<Vec<u8>, AllocError>
        ensures { IfOk result (λ line. line.items ≡ piece_line self.now.frames.items piece) }
    {
        let mut line = Vec::new(alloc);
        put_piece(&self.frames, piece, &mut line)?;
        Ok(line)
    }
}

/// What the blocks of an image hold, whatever its directory says: the whole texts, the core images, BIN tapes and RIM tapes, and segments of
/// directories. Their forms are those of the OS/8 Software Support Manual, the PAL III Symbolic Assembler manual and the Small Computer
/// Handbook; where they are looked for is this project's profile. Bytes that are no image are refused.
pub fn scan_image(alloc: Global, image: &[u8]) -> Result<Scan, ArchiveFault>
    ensures { Scans image.now result }
{
    let volume = volume_of(alloc, image)?;
    match scan_volume(alloc, &volume) {
        Ok(scan) => Ok(scan),
        Err(error) => Err(ArchiveFault::from(error)),
    }
}

/// What the blocks of a volume hold.
fn scan_volume(alloc: Global, volume: &MemoryVolume) -> Result<Scan, AllocError>
    requires { IsVolume volume.now.blocks }
    ensures { IfOk result (IsScan volume.now.blocks) }
{
    let words = words_at(alloc, volume, 0, volume.blocks())?;
    let frames = frames_of(alloc, &words)?;
    let texts = texts_in(alloc, &frames)?;
    let programs = programs_in(alloc, &words)?;
    let segments = segments_in(alloc, volume)?;
    let mut pieces = Vec::new(alloc);
    put_text_pieces(&texts, &mut pieces)?;
    put_program_pieces(&programs, &mut pieces)?;
    put_segment_pieces(&segments, &mut pieces)?;
    Ok(Scan { frames, pieces })
}

/// The frames of words.
fn frames_of(alloc: Global, words: &[Word]) -> Result<Vec<u8>, AllocError>
    ensures { IfOk result (λ bytes. bytes.items ≡ frames_in words.now) }
{
    Frames::new(words).collect(alloc)
}

/// Appends texts as pieces.
fn put_text_pieces(texts: &[TextPiece], out: &mut Vec<Piece>) -> Result<(), AllocError>
    ensures { OnOk result (out.new.items ≡ out.old.items ++ map piece_of_text texts.now) }
{
    let mut rest = texts;
    while let [text, others @ ..] = rest {
        out.push(text_piece(*text))?;
        rest = others;
    }
    Ok(())
}

/// Appends programs as pieces.
fn put_program_pieces(programs: &[Program], out: &mut Vec<Piece>) -> Result<(), AllocError>
    ensures { OnOk result (out.new.items ≡ out.old.items ++ map piece_of_program programs.now) }
{
    let mut rest = programs;
    while let [program, others @ ..] = rest {
        out.push(program_piece(*program))?;
        rest = others;
    }
    Ok(())
}

/// Appends segments as pieces.
fn put_segment_pieces(segments: &[Segment], out: &mut Vec<Piece>) -> Result<(), AllocError>
    ensures { OnOk result (out.new.items ≡ out.old.items ++ map piece_of_segment segments.now) }
{
    let mut rest = segments;
    while let [segment, others @ ..] = rest {
        out.push(segment_piece(*segment))?;
        rest = others;
    }
    Ok(())
}
