//! Which answers say that an image may be another.
ghost use Rattle.std.specs.Prelude.{◌≡◌};
ghost use Rattle.script_commands.specs.Steps.{changes};

use refusals::SessionFault;
use script8::{LineReply, Reply};

/// Whether the image may be another after this answer; it is not where the console or a list of files was asked for, or a job was begun.
pub(crate) fn may_have_changed(answer: &Result<Reply, SessionFault>) -> bool
    ensures { result ≡ changes answer.now }
{
    match answer {
        Ok(Reply::Report(_)) => false,
        Ok(Reply::Line(said)) => match said {
            LineReply::Stored { .. }
            | LineReply::Deleted(_)
            | LineReply::Working(_)
            | LineReply::Assembled { .. }
            | LineReply::Loaded { .. }
            | LineReply::Squeezed(_)
            | LineReply::Finished => true,
            LineReply::Job(_)
            | LineReply::Started(_)
            | LineReply::Steps { .. }
            | LineReply::Key(_)
            | LineReply::Done
            | LineReply::Switches(_)
            | LineReply::Core { .. }
            | LineReply::Break { .. } => false,
        },
        Err(_) => true,
    }
}
