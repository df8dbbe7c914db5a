//! The lines of pieces of a volume.
ghost use Rattle.std.specs.Prelude.{◌≡◌, ◌++◌, ◌*◌, ◌≤◌, length, OnOk, drop};
ghost use Rattle.char_pack.specs.declared.packing.TheConstants.{BLOCK_FRAMES};
ghost use Rattle.volume_salvage.specs.Scanning as spec;
ghost use Rattle.volume_salvage.specs.Scanning.{characters_in, detail, first_line, piece_head, piece_line, piece_lines};

use crate::pieces::{Piece, PieceKind};
use char_pack::BLOCK_FRAMES;
use file_kind::is_graphic;
use refusals::text_lines::{TextLine, put, put_number};
use std::alloc::AllocError;

/// The most characters of a text's first line that are shown.
pub const MOST_SHOWN: usize = 40;

/// Appends the lines of pieces among frames.
pub(crate) fn put_pieces(
    frames: &[u8],
    pieces: &[Piece],
    out: &mut Vec<u8>,
) -> Result<(), AllocError>
    ensures { OnOk result (out.new.items ≡ out.old.items ++ piece_lines frames.now pieces.now) }
{
    let mut rest = pieces;
    while let [piece, others @ ..] = rest {
        put_piece(frames, *piece, out)?;
        rest = others;
    }
    Ok(())
}

/// Appends the line of a piece among frames.
pub(crate) fn put_piece(frames: &[u8], piece: Piece, out: &mut Vec<u8>) -> Result<(), AllocError>
    ensures { OnOk result (out.new.items ≡ out.old.items ++ piece_line frames.now piece) }
{
    put_head(piece, out)?;
    put_detail(frames, piece, out)?;
    out.push(b'\n')?;
    Ok(())
}

/// Appends what a piece's line begins with.
fn put_head(piece: Piece, out: &mut Vec<u8>) -> Result<(), AllocError>
    ensures { OnOk result (out.new.items ≡ out.old.items ++ piece_head piece) }
{
    let mut line = TextLine::new();
    put(&mut line, kind_text(piece.kind));
    put(&mut line, b" ");
    put_number(&mut line, piece.place as u64);
    put(&mut line, b" ");
    put_number(&mut line, piece.size as u64);
    out.extend_from_slice(line.as_slice())
}

/// What a piece is called in its line.
fn kind_text(kind: PieceKind) -> &'static [u8]
    ensures text { result.now ≡ spec.kind_text kind }
    ensures short { length result.now ≤ 4 }
{
    match kind {
        PieceKind::Text => b"TEXT",
        PieceKind::Core => b"CORE",
        PieceKind::Bin => b"BIN",
        PieceKind::Rim => b"RIM",
        PieceKind::Segment => b"DIR",
    }
}

/// Appends what a text's first line begins with.
fn put_detail(frames: &[u8], piece: Piece, out: &mut Vec<u8>) -> Result<(), AllocError>
    ensures { OnOk result (out.new.items ≡ out.old.items ++ detail frames.now piece piece.kind) }
{
    match piece.kind {
        PieceKind::Text => {
            out.push(b' ')?;
            put_first_line(from_graphic(frames_from(frames, piece.place)), out)
        }
        PieceKind::Core | PieceKind::Bin | PieceKind::Rim | PieceKind::Segment => Ok(()),
    }
}

/// The frames from a block on.
fn frames_from(frames: &[u8], place: usize) -> &[u8]
    ensures { result.now ≡ drop (BLOCK_FRAMES * place) frames.now }
{
    if place > frames.len() / BLOCK_FRAMES {
        return &[];
    }
    let (_, following) = frames.split_at(BLOCK_FRAMES * place);
    following
}

/// The frames from the first that is that of a graphic character.
fn from_graphic(frames: &[u8]) -> &[u8]
    ensures { result.now ≡ spec.from_graphic frames.now }
{
    let mut rest = frames;
    while let [frame, others @ ..] = rest {
        if is_graphic(*frame % 0o200) {
            return rest;
        }
        rest = others;
    }
    rest
}

/// Appends what a line begins with, no more characters than are shown.
fn put_first_line(frames: &[u8], out: &mut Vec<u8>) -> Result<(), AllocError>
    ensures { OnOk result (out.new.items ≡ out.old.items ++ first_line frames.now) }
{
    if frames.len() <= MOST_SHOWN {
        return put_characters(frames, out);
    }
    let (shown, _) = frames.split_at(MOST_SHOWN);
    put_characters(shown, out)
}

/// Appends characters up to one that is neither graphic nor a blank.
fn put_characters(frames: &[u8], out: &mut Vec<u8>) -> Result<(), AllocError>
    ensures { OnOk result (out.new.items ≡ out.old.items ++ characters_in frames.now) }
{
    let mut rest = frames;
    while let [frame, others @ ..] = rest {
        let character = *frame % 0o200;
        if !is_shown(character) {
            return Ok(());
        }
        out.push(character)?;
        rest = others;
    }
    Ok(())
}

/// Whether a character is graphic or a blank.
fn is_shown(character: u8) -> bool
    ensures { result ≡ spec.is_shown character }
{
    matches!(character, 0o40..=0o176)
}
