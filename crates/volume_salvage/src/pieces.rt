//! Pieces of a volume: what they are, and what they are called.
ghost use Rattle.std.specs.Prelude.{◌≡◌, IfOk};
ghost use Rattle.volume_salvage.specs.Scanning as spec;
ghost use Rattle.volume_salvage.specs.Scanning.{extension, piece_form, piece_kind, piece_of_program, piece_of_segment, piece_of_text};

use archive_files::GetForm;
use block_scan::{Program, ProgramKind, Segment, TextPiece};
use std::alloc::{AllocError, Global};

/// What a piece of a volume holds.
#[derive(Clone, Copy, PartialEq, Eq, Debug)]
pub enum PieceKind {
    /// A whole text.
    Text,

    /// A core image.
    Core,

    /// A BIN tape.
    Bin,

    /// A RIM tape.
    Rim,

    /// A segment of a directory.
    Segment,
}

/// A piece of a volume: what it holds, its first block, and how many blocks it has.
#[derive(Clone, Copy, PartialEq, Eq, Debug)]
pub struct Piece {
    pub kind: PieceKind,
    pub place: usize,
    pub size: usize,
}

/// The name of a piece's file of the host: `block-`, the four digits of its first block, and what it is (this project's profile).
pub fn piece_name(alloc: Global, piece: Piece) -> Result<String, AllocError>
    ensures { IfOk result (λ name. name.bytes.items ≡ spec.piece_name piece) }
{
    let place = piece.place;
    let kind = extension_of(piece.kind);
    let name = format!(in alloc;
        "block-{}{}{}{}.{kind}",
        place / 1000 % 10,
        place / 100 % 10,
        place / 10 % 10,
        place % 10
    )?;
    Ok(name)
}

/// What the name of a piece's file ends with.
fn extension_of(kind: PieceKind) -> &'static str
    ensures { result.now ≡ extension kind }
{
    match kind {
        PieceKind::Text => "txt",
        PieceKind::Core => "core",
        PieceKind::Bin => "bin",
        PieceKind::Rim => "rim",
        PieceKind::Segment => "dir",
    }
}

/// What is given of the blocks of a piece: a text as it reads, and else their frames (this project's profile).
pub fn form_of(kind: PieceKind) -> GetForm
    ensures { result ≡ piece_form kind }
{
    match kind {
        PieceKind::Text => GetForm::Text,
        PieceKind::Core | PieceKind::Bin | PieceKind::Rim | PieceKind::Segment => GetForm::Frames,
    }
}

/// A text as a piece.
pub(crate) fn text_piece(text: TextPiece) -> Piece
    ensures { result ≡ piece_of_text text }
{
    Piece {
        kind: PieceKind::Text,
        place: text.place,
        size: text.size,
    }
}

/// A segment as a piece.
pub(crate) fn segment_piece(segment: Segment) -> Piece
    ensures { result ≡ piece_of_segment segment }
{
    Piece {
        kind: PieceKind::Segment,
        place: segment.place,
        size: 1,
    }
}

/// A program as a piece.
pub(crate) fn program_piece(program: Program) -> Piece
    ensures { result ≡ piece_of_program program }
{
    Piece {
        kind: kind_of(program.kind),
        place: program.place,
        size: program.size,
    }
}

fn kind_of(kind: ProgramKind) -> PieceKind
    ensures { result ≡ piece_kind kind }
{
    match kind {
        ProgramKind::Core => PieceKind::Core,
        ProgramKind::Bin => PieceKind::Bin,
        ProgramKind::Rim => PieceKind::Rim,
    }
}
