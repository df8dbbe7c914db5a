//! The report of an image.
ghost use Rattle.std.specs.Prelude.{◌≡◌, length};
ghost use Rattle.archive_files.specs.Checking.{Checks};
ghost use Rattle.archive_files.specs.Listing.{ListsFiles};
ghost use Rattle.show_commands.specs.Dates.{ListsDates};
ghost use Rattle.image_files.specs.Answers.{Answers, AreLines};
ghost use Rattle.outcome.specs.declared.endings.Ending.TheVariants.{Line};
ghost use Rattle.show_commands.specs.Reporting as spec;
ghost use Rattle.image_files.specs.Ending.{EndsSound};
ghost use Rattle.show_commands.specs.Reporting.{IsSoundText, PrintsNamed, PrintsReport, Reports, ReportsAmong, SurveysAll, TellsRefusal};

use crate::dated_lists::list_dated;
use archive_files::{ArchiveFault, check, list};
use archive_survey::survey;
use hosts::Host;
use image_files::{end_sound, named_lines, part_after, print, refuse_image};
use outcome::Ending;
use program_reports::{ProgramLine, put_program};
use refusals::SessionFault;
use std::alloc::Global;
use volume_image::ImageFault;

/// What is reported of an image.
#[derive(Clone, Copy, PartialEq, Eq, Debug)]
pub enum ReportKind {
    /// What its directory says; its first fault ends the report.
    Directory,

    /// All that its directory still shows, with each fault.
    Survey,

    /// Its files, by name.
    Files,

    /// Its files in order of their blocks, with dates of the eight years up to this one, if one is given.
    Places(Option<usize>),
}

/// The report of an image: its lines, and whether it has no fault.
#[derive(Drop)]
pub struct Report {
    pub text: Vec<u8>,
    pub is_sound: bool,
}

/// The report of the one image that is asked for. Where it is refused, what may help is printed.
pub(crate) fn report_on<H: Host>(
    host: &mut H,
    alloc: Global,
    image: &[u8],
    kind: ReportKind,
) -> Result<Report, Ending>
    ensures { Answers (Reports kind image.now) (length image.now) (H.history host.old) result (H.history host.new) }
{
    match report_of(alloc, image, kind) {
        Ok(report) => Ok(report),
        Err(fault) => Err(refuse_image(host, image.len(), fault)),
    }
}

/// The report of an image among others: a refusal by its line. What may help then is printed.
pub(crate) fn report_or_line<H: Host>(
    host: &mut H,
    alloc: Global,
    image: &[u8],
    kind: ReportKind,
) -> Result<Report, Ending>
    ensures { ReportsAmong kind image.now (H.history host.old) result (H.history host.new) }
{
    match report_of(alloc, image, kind) {
        Ok(report) => Ok(report),
        Err(fault) => {
            let ending = refuse_image(host, image.len(), fault);
            refusal_report(alloc, ending)
        }
    }
}

/// The report of an image that is refused so: its line, if it has one of its own.
pub(crate) fn refusal_report(alloc: Global, ending: Ending) -> Result<Report, Ending>
    ensures { TellsRefusal ending result }
{
    match ending {
        Ending::Line(line) => line_report(alloc, line),
        Ending::Fault(fault) => Err(Ending::Fault(fault)),
        Ending::Failure => Err(Ending::Failure),
        Ending::Busy(content) => Err(Ending::Busy(content)),
        Ending::NotWritten(content, left) => Err(Ending::NotWritten(content, left)),
        Ending::FullOutput => Err(Ending::FullOutput),
        Ending::Unreported => Err(Ending::Unreported),
        Ending::NoReader => Err(Ending::NoReader),
        Ending::Misuse => Err(Ending::Misuse),
    }
}

fn line_report(alloc: Global, line: ProgramLine) -> Result<Report, Ending>
    ensures { TellsRefusal (Line line) result }
{
    let mut text = Vec::new(alloc);
    put_program(&line, &mut text)?;
    Ok(Report {
        text,
        is_sound: false,
    })
}

/// The report of an image of this kind.
fn report_of(alloc: Global, image: &[u8], kind: ReportKind) -> Result<Report, ArchiveFault>
    ensures { Reports kind image.now result }
{
    match kind {
        ReportKind::Directory => check_of(alloc, image),
        ReportKind::Survey => survey_of(alloc, image),
        ReportKind::Files => files_of(alloc, image),
        ReportKind::Places(year) => places_of(alloc, image, year),
    }
}

fn check_of(alloc: Global, image: &[u8]) -> Result<Report, ArchiveFault>
    ensures { IsSoundText (Checks image.now) result }
{
    match check(alloc, image) {
        Ok(text) => Ok(Report {
            text,
            is_sound: true,
        }),
        Err(fault) => Err(fault),
    }
}

fn files_of(alloc: Global, image: &[u8]) -> Result<Report, ArchiveFault>
    ensures { IsSoundText (ListsFiles image.now) result }
{
    match list(alloc, image) {
        Ok(text) => Ok(Report {
            text,
            is_sound: true,
        }),
        Err(fault) => Err(fault),
    }
}

fn places_of(alloc: Global, image: &[u8], year: Option<usize>) -> Result<Report, ArchiveFault>
    ensures { IsSoundText (ListsDates year image.now) result }
{
    match list_dated(alloc, image, year) {
        Ok(text) => Ok(Report {
            text,
            is_sound: true,
        }),
        Err(fault) => Err(fault),
    }
}

fn survey_of(alloc: Global, image: &[u8]) -> Result<Report, ArchiveFault>
    ensures { SurveysAll image.now result }
{
    match survey(alloc, image) {
        Ok(survey) => Ok(Report {
            is_sound: survey.faults == 0,
            text: survey.text,
        }),
        Err(fault) => Err(fault_of_image(fault)),
    }
}

fn fault_of_image(fault: ImageFault) -> ArchiveFault
    ensures { result ≡ spec.fault_of_image fault }
{
    match fault {
        ImageFault::Memory => ArchiveFault::Refused(SessionFault::Memory),
        fault => ArchiveFault::Image(fault),
    }
}

/// Prints the report of an image, and ends the command.
pub(crate) fn print_report<H: Host>(host: &mut H, report: &Report) -> Result<(), Ending>
    ensures { PrintsReport report.now (H.history host.old) result (H.history host.new) }
{
    part_after(report.is_sound, print(host, &report.text))?;
    end_sound(report.is_sound)
}

/// Prints the report of an image, each line with a name before it, and answers whether it is sound.
pub(crate) fn print_named<H: Host>(
    host: &mut H,
    alloc: Global,
    name: &str,
    report: &Report,
) -> Result<bool, Ending>
    ensures { PrintsNamed name.now report.now (H.history host.old) result (H.history host.new) }
{
    let lines = named_lines(alloc, name, &report.text)?;
    part_after(report.is_sound, print(host, &lines))?;
    Ok(report.is_sound)
}
