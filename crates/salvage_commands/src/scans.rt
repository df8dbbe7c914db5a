//! The command that finds what the blocks of a volume hold by their content alone.
ghost use Rattle.std.specs.Prelude.{◌≡◌, length};
ghost use Rattle.volume_salvage.specs.Scanning.{Scans, piece_line, scan_text};
ghost use Rattle.image_files.specs.Answers.{Answers, AreLines};
ghost use Rattle.salvage_commands.specs.ScanningBlocks.{GivesPiece, IsPath, LaysFirst, MakesFolder, ShowsPieces, WritesAll, WritesEach, WritesPiece, WritesPieces, ending_of_laid};

use archive_many::{BlocksFault, blocks_of};
use hosts::{FaultClass, Host, HostFault, lay};
use image_files::{look_at, print, refuse_image, tell_first};
use outcome::Ending;
use program_reports::ProgramLine;
use program_tasks::ImageForm;
use refusals::SessionFault;
use std::alloc::Global;
use volume_salvage::{Piece, Scan, form_of, piece_name, scan_image};

/// Lists the pieces that the blocks of the volume in an image file hold, whatever its directory says: whole texts, core images, BIN tapes,
/// RIM tapes, and segments of directories. No file changes.
pub fn scan_blocks<H: Host>(host: &mut H, alloc: Global, form: &ImageForm) -> Result<(), Ending>
    ensures { ShowsPieces form.now (H.history host.old) result (H.history host.new) }
{
    let image = look_at(host, alloc, form)?;
    let scan = scan_of(host, alloc, &image)?;
    let lines = lines_of(alloc, &scan)?;
    print(host, &lines)
}

/// Writes each of these pieces to a file of its own in a folder of the host, which is made unless it is there, and then prints its line. Up to
/// the first that is refused, as one is whose file is there: none is replaced. The image file is only looked at.
pub fn scan_into<H: Host>(
    host: &mut H,
    alloc: Global,
    form: &ImageForm,
    folder: &str,
) -> Result<(), Ending>
    ensures { WritesPieces folder.now form.now (H.history host.old) result (H.history host.new) }
{
    let image = look_at(host, alloc, form)?;
    let scan = scan_of(host, alloc, &image)?;
    write_all(host, alloc, folder, &image, &scan)
}

/// What the blocks of an image hold, which is refused as other commands refuse it.
fn scan_of<H: Host>(host: &mut H, alloc: Global, image: &[u8]) -> Result<Scan, Ending>
    ensures { Answers (Scans image.now) (length image.now) (H.history host.old) result (H.history host.new) }
{
    match scan_image(alloc, image) {
        Ok(scan) => Ok(scan),
        Err(fault) => Err(refuse_image(host, image.len(), fault)),
    }
}

/// The lines of all pieces.
fn lines_of(alloc: Global, scan: &Scan) -> Result<Vec<u8>, Ending>
    ensures { AreLines (scan_text scan.now) result }
{
    let lines = scan.lines(alloc)?;
    Ok(lines)
}

/// Makes the folder, unless it is there, and writes the pieces.
fn write_all<H: Host>(
    host: &mut H,
    alloc: Global,
    folder: &str,
    image: &[u8],
    scan: &Scan,
) -> Result<(), Ending>
    ensures { WritesAll folder.now image.now scan.now (H.history host.old) result (H.history host.new) }
{
    make_folder(host, alloc, folder)?;
    write_each(host, alloc, folder, image, scan)
}

/// Makes a folder, unless there is one of its name.
fn make_folder<H: Host>(host: &mut H, alloc: Global, folder: &str) -> Result<(), Ending>
    ensures { MakesFolder folder.now (H.history host.old) result (H.history host.new) }
{
    match host.make_folder(folder) {
        Ok(()) => Ok(()),
        Err(fault) => {
            tell_first(host, alloc, folder, fault);
            Err(ending_of(fault))
        }
    }
}

/// Writes the pieces, one after another.
fn write_each<H: Host>(
    host: &mut H,
    alloc: Global,
    folder: &str,
    image: &[u8],
    scan: &Scan,
) -> Result<(), Ending>
    ensures { WritesEach folder.now image.now scan.now scan.now.pieces.items (H.history host.old) result (H.history host.new) }
{
    let mut rest = scan.pieces.as_slice();
    while let [piece, others @ ..] = rest {
        write_piece(host, alloc, folder, image, scan, piece)?;
        rest = others;
    }
    Ok(())
}

/// Writes a piece to its file, and then prints its line.
fn write_piece<H: Host>(
    host: &mut H,
    alloc: Global,
    folder: &str,
    image: &[u8],
    scan: &Scan,
    piece: &Piece,
) -> Result<(), Ending>
    ensures { WritesPiece folder.now image.now scan.now piece.now (H.history host.old) result (H.history host.new) }
{
    let piece = *piece;
    let bytes = bytes_of(host, alloc, image, piece)?;
    let path = path_of(alloc, folder, piece)?;
    let line = line_of(alloc, scan, piece)?;
    lay_first(host, alloc, path.as_str(), &bytes)?;
    print(host, &line)
}

/// What is got of the blocks of a piece.
fn bytes_of<H: Host>(
    host: &mut H,
    alloc: Global,
    image: &[u8],
    piece: Piece,
) -> Result<Vec<u8>, Ending>
    ensures { GivesPiece image.now piece (H.history host.old) result (H.history host.new) }
{
    match blocks_of(alloc, image, piece.place, piece.size, form_of(piece.kind)) {
        Ok(bytes) => Ok(bytes),
        Err(fault) => match fault {
            BlocksFault::Archive(fault) => Err(refuse_image(host, image.len(), fault)),
            BlocksFault::NoBlocks(has) => Err(Ending::Line(ProgramLine::OnlyBlocks(has))),
        },
    }
}

/// The path of a piece's file.
fn path_of(alloc: Global, folder: &str, piece: Piece) -> Result<String, Ending>
    ensures { IsPath folder.now piece result }
{
    let name = piece_name(alloc, piece)?;
    let path = format!(in alloc; "{folder}/{name}")?;
    Ok(path)
}

/// The line of a piece.
fn line_of(alloc: Global, scan: &Scan, piece: Piece) -> Result<Vec<u8>, Ending>
    ensures { AreLines (piece_line scan.now.frames.items piece) result }
{
    let line = scan.line(alloc, piece)?;
    Ok(line)
}

/// Lays a file of these bytes where none is of its name.
fn lay_first<H: Host>(host: &mut H, alloc: Global, path: &str, bytes: &[u8]) -> Result<(), Ending>
    ensures { LaysFirst path.now bytes.now (H.history host.old) result (H.history host.new) }
{
    match lay(host, alloc, path, bytes, None, false) {
        Ok(()) => Ok(()),
        Err(fault) => {
            tell_first(host, alloc, path, fault);
            Err(ending_of(fault))
        }
    }
}

/// How the command ends where the folder can't be made, or a file can't be laid.
fn ending_of(fault: HostFault) -> Ending
    ensures { result ≡ ending_of_laid fault }
{
    match fault.class() {
        FaultClass::Busy => Ending::Line(ProgramLine::HostExists),
        FaultClass::Memory => Ending::Fault(SessionFault::Memory),
        FaultClass::Other => Ending::Line(ProgramLine::HostWrite),
    }
}
