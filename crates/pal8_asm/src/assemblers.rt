ghost use Rattle.std.specs.Prelude.{◌≡◌, ◌<◌, Ok, None};
ghost use Rattle.pal8_asm.specs.Sources.{dollar_at, first_left, start_of, with_next, with_selected};
ghost use Rattle.pal8_asm.specs.Steps.{TakesStatement};
ghost use Rattle.pal8_asm.specs.Assembling.{Takes, remainder_of};
ghost use Rattle.pal8_asm.specs.Walking.{remainder_after, statement_in};

use crate::entries::{Content, Entries, Stand};
use crate::walks::{Walk, pass_selected};
use crate::{AsmFault, Place, Statement};
use pal8_lex::{End, Token};
use pal8_places::{Options, Stop, spot_at};
use std::alloc::Global;
use std::marker::Model;

/// Takes the statements of a source one after the other. It learns what names stand for, which statements are selected and which words are to be
/// made.
#[derive(Drop)]
pub struct Assembler {
    pub(crate) walk: Walk,
    pub(crate) entries: Entries,
    pub(crate) end: Option<Place>,
}

impl Model for Assembler {
    ghost use Rattle.std.specs.Prelude.{◌<◌};
    ghost use Rattle.std.specs.Coded.{codes};
    ghost use Rattle.pal8_places.specs.contracts.names.KnownNames as known_names;
    ghost use Rattle.pal8_grammar.specs.contracts.source_names.SourceNames as source_names;
    ghost use Rattle.pal8_asm.specs.Assembling.{Progress};

    ghost Value = { Progress };

    ghost coded = { Prim.hlevel (codes, known_names.the_row.coded, source_names.the_row.coded) };

    ghost view = { λ a. record {
      names = a.walk.names;
      position = a.walk.position;
      entries = a.entries;
      brackets = a.walk.brackets;
      end = a.end;
    } };

    ghost invariant = { λ a. (a.walk.position.location < 0o20000) × (a.walk.position.field < 8) × (a.walk.position.shift < 0o10000) };
}

/// The place of the `$` at this byte that ends a statement, if one does.
fn dollar_at(end: End, place: Place) -> Option<Place>
    ensures { result ≡ dollar_at end place }
{
    match end {
        End::Dollar => Some(place),
        End::Semicolon | End::Line | End::Open | End::Close => None,
    }
}

/// Where a statement begins that a byte ends.
fn start_of(at: u64, tokens: &[Token]) -> u64
    ensures { result ≡ start_of at tokens.now }
{
    match tokens {
        [first, ..] => first.start,
        [] => at,
    }
}

/// Takes a statement that is selected, and keeps its words.
fn take_selected(
    walk: &mut Walk,
    entries: &mut Entries,
    at: u64,
    statement: Statement<'_>,
) -> Result<(), AsmFault>
    requires location { walk.old.position.location < 0o20000 }
    requires field { walk.old.position.field < 8 }
    requires shift { walk.old.position.shift < 0o10000 }
    ensures takes { TakesStatement (with_selected (statement_in at statement.entry) (remainder_after walk.old entries.old None))
        result walk.new entries.new (dollar_at statement.entry.end (record { line = statement.entry.line; start = at })) }
    ensures range { (walk.new.position.location < 0o20000) × (walk.new.position.field < 8) × (walk.new.position.shift < 0o10000) }
{
    let place = Place {
        line: statement.line,
        start: start_of(at, statement.tokens),
    };
    let string = statement.string;
    let before = walk.position;
    let body = match pass_selected(walk, statement) {
        Ok(body) => body,
        Err(Stop::At(code)) => return Err(AsmFault::At(code, place)),
        Err(Stop::Memory) => return Err(AsmFault::Memory),
    };
    let size = walk.position.location.saturating_sub(before.location);
    let stand = Stand {
        place,
        spot: spot_at(before),
    };
    let content = Content {
        body,
        steps: walk.reader.steps(),
        string,
    };
    entries.push_content(before.options, &walk.names, stand, content, size)?;
    Ok(())
}

impl Assembler {
    /// An assembler of no statement, at 0200 of field 0, of a source that is read by these options. It takes no memory.
    pub fn new(alloc: Global, options: Options) -> Assembler
        ensures { remainder_of result ≡ first_left options }
    {
        Assembler {
            walk: Walk::new(alloc, options),
            entries: Entries::new(alloc),
            end: None,
        }
    }

    /// Takes the next statement of the source, which the byte at this place ends. If it is selected, its tags and its body define names and set the
    /// position of the next one, and its words stay to be made. Another opens or closes a bracket at most. A `$` that ends one which is selected ends
    /// the source, and nothing after it is read.
    ///
    /// Its fault is the first of these. IC, NU and SY come first. Then come PF and DT of each tag. Then come UA, PF, DZ and IR of a value that a
    /// place, a name or a condition rests on. Then come FD, PG or RD, then PF where a word is past 7777, and PH where `>` closes no bracket. After a
    /// fault, and where memory ran out, no further statement means anything (PAL8, in this project's profile).
    pub fn take(&mut self, at: u64, statement: Statement<'_>) -> Result<(), AsmFault>
        ensures { Takes (with_next (statement_in at statement.entry) (Ok (remainder_of self.old))) result self.new }
    {
        if self.end.is_some() {
            return Ok(());
        }
        let line = statement.line;
        let end = statement.end;
        let again = end;
        if !self.walk.brackets.is_selected() {
            self.walk.brackets.pass(end, false)?;
            return Ok(());
        }
        match take_selected(&mut self.walk, &mut self.entries, at, statement) {
            Ok(()) => {
                self.end = dollar_at(again, Place { line, start: at });
                Ok(())
            }
            Err(fault) => Err(fault),
        }
    }
}
