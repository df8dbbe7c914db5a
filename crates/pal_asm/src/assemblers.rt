ghost use Rattle.std.specs.Prelude.{◌≡◌, ◌+◌, ◌<◌, ◌≤◌, ℕ, true, false, Option, Some, None, IfOk, OnOk, Ok, List, [], ◌∷◌, ◌++◌};
ghost use Rattle.pal_sym.specs.Values.{symbol_value};
ghost use Rattle.pal_lex.specs.declared.pieces.Token.{Token};
ghost use Rattle.pal_lex.specs.Reading.{with_tokens, is_pause_body};
ghost use Rattle.pal_faults.specs.declared.assembling.AsmFault.TheVariants.{At};
ghost use Rattle.pal_asm.specs.Places.{Source};
ghost use Rattle.pal_asm.specs.Faults.{past};
ghost use Rattle.pal_asm.specs.PassSteps.{Moves, MakesBody, spot_by, spot_fault, with_tags_again, with_body_again, SetsValue};
ghost use Rattle.pal_asm.specs.Passes.{IsFirst, IsSecond, AnswersFirst, IsJudged, AnswersSecond, BeginsSecond, HasBegunSecond, HasNotBegunSecond, StaysFailed};

use crate::again::{set_tags, spot_and_word};
use crate::names::{definitions, judge_tags, pass};
use crate::spots::{Spot, first_spot};
use crate::{AsmFault, Code};
use pal_lex::{Body, Statement};
use pal_sym::Symbols;
use std::alloc::Global;
use std::marker::Model;
use word12::{Cell, Word};

/// Whether a body is PAUSE.
fn is_pause(body: &Body) -> bool
    ensures { result ≡ is_pause_body body.now }
{
    matches!(body, Body::Pause)
}

/// Takes the statements of a source twice: in the first pass it learns what names stand for, in the second it hands out
/// the words, each with its cell. The tokens of a statement say nothing to it, so they need not be there.
#[derive(Drop)]
pub struct Assembler {
    symbols: Symbols,
    spot: Spot,
    is_second: bool,
    line: u64,
    fault: Option<AsmFault>,
}

impl Model for Assembler {
    ghost use Rattle.std.specs.Prelude.{◌<◌};
    ghost use Rattle.pal_sym.specs.SymbolTable.{table_code};
    ghost use Rattle.std.specs.Coded.{codes};
    ghost use Rattle.pal_asm.specs.Progress.{Progress};

    ghost Value = { Progress };

    ghost coded = { Prim.hlevel (codes, table_code) };

    ghost view = { λ a. record {
      symbols = a.symbols;
      spot = a.spot;
      is_second = a.is_second;
      line = a.line;
      fault = a.fault;
    } };

    ghost invariant = { λ a. a.spot.field < 8 };
}

impl Assembler {
    /// An assembler of no statement, at 0200 of field 0. It takes no memory.
    pub fn new(alloc: Global) -> Assembler
        ensures { IsFirst result [] }
    {
        Assembler {
            symbols: Symbols::new(alloc),
            spot: first_spot(),
            is_second: false,
            line: 1,
            fault: None,
        }
    }

    /// Takes the next statement of the source in the first pass: its tags and its body define names, and its location is
    /// counted.
    ///
    /// Its fault is the first of the source in the order of its statements. A call that answers want of memory took
    /// nothing, and comes only for a statement that defines names. It asks for the room of each, also of one that is
    /// there already, and asks for none where its tags have a fault. After another fault each call answers the same
    /// (PAL III Symbolic Assembler manual, and this project's profile of it). PAUSE says nothing: of several sources
    /// the statements come one after the other. After its end nothing is taken.
    pub fn first(&mut self, statement: &Statement) -> Result<(), AsmFault>
        ensures answers { (older : Source) (tokens : List Token) → is_pause_body statement.now.body ≡ false
            → IsFirst self.old older → AnswersFirst older (with_tokens tokens statement.now) result
            self.old self.new }
        ensures judged { (older : Source) → IsFirst self.old older → IsJudged older statement.now result }
        ensures paused { (older : Source) → is_pause_body statement.now.body ≡ true → IsFirst self.old older
            → (result ≡ Ok tt) × (self.new ≡ self.old) }
        ensures turned { HasBegunSecond self.old → (result ≡ Ok tt) × (self.new ≡ self.old) }
        ensures failed { StaysFailed result self.old self.new }
    {
        if let Some(fault) = self.fault {
            return Err(fault);
        }
        if self.is_second {
            return Ok(());
        }
        if is_pause(&statement.body) {
            return Ok(());
        }
        let tags = statement.tags.names();
        match judge_tags(&self.symbols, tags, self.spot.location) {
            Ok(()) => {}
            Err(code) => return Err(self.fail(code, statement.line)),
        }
        self.symbols
            .room(tags.len() + definitions(&statement.body))?;
        match pass(&mut self.symbols, self.spot, tags, &statement.body) {
            Ok(spot) => {
                self.spot = spot;
                self.line = statement.line;
                Ok(())
            }
            Err(code) => Err(self.fail(code, statement.line)),
        }
    }

    /// Goes from the first pass to the second, where `$` ended the last statement. A source with no word gets NW with
    /// the line of that `$` (this project's profile of PAL III). It takes no memory, and where it was done before it
    /// changes nothing.
    pub fn begin_second(&mut self) -> Result<(), AsmFault>
        ensures turns { (whole : Source) → IsFirst self.old whole
            → BeginsSecond whole result self.old self.new }
        ensures turned { HasBegunSecond self.old → (result ≡ Ok tt) × (self.new ≡ self.old) }
        ensures failed { StaysFailed result self.old self.new }
    {
        if let Some(fault) = self.fault {
            return Err(fault);
        }
        if self.is_second {
            return Ok(());
        }
        if !self.spot.word {
            return Err(self.fail(Code::NW, self.line));
        }
        self.spot = first_spot();
        self.is_second = true;
        Ok(())
    }

    /// Takes the next statement of the same source in the second pass, and hands out its word with the cell of that, if
    /// it is one. Its fault is a name in a word that no statement defines, or an address out of reach. It is the first
    /// of these in the source (PAL III Symbolic Assembler manual, and this project's profile of it). It takes no
    /// memory, PAUSE says nothing, and before the second pass nothing is handed out.
    pub fn second(&mut self, statement: &Statement) -> Result<Option<(Cell, Word)>, AsmFault>
        ensures answers { (whole later older : Source) (tokens : List Token)
            → is_pause_body statement.now.body ≡ false → whole ≡ later
            ++ Ok (with_tokens tokens statement.now) ∷ older → IsSecond self.old whole older
            → AnswersSecond whole older (with_tokens tokens statement.now) result self.old self.new }
        ensures paused { (whole older : Source) → is_pause_body statement.now.body ≡ true
            → IsSecond self.old whole older → (result ≡ Ok None) × (self.new ≡ self.old) }
        ensures unturned { HasNotBegunSecond self.old → (result ≡ Ok None) × (self.new ≡ self.old) }
        ensures failed { StaysFailed result self.old self.new }
    {
        if let Some(fault) = self.fault {
            return Err(fault);
        }
        if !self.is_second {
            return Ok(None);
        }
        if is_pause(&statement.body) {
            return Ok(None);
        }
        set_tags(
            &mut self.symbols,
            statement.tags.names(),
            Word::low(self.spot.location),
        );
        match spot_and_word(&mut self.symbols, self.spot, &statement.body) {
            Ok((spot, pair)) => {
                self.spot = spot;
                Ok(pair)
            }
            Err(code) => Err(self.fail(code, statement.line)),
        }
    }

    /// Fails for good.
    fn fail(&mut self, code: Code, line: u64) -> AsmFault
        ensures fault { result ≡ At code line }
        ensures failed { self.new ≡ record self.old { fault = Some (At code line) } }
    {
        self.fault = Some(AsmFault::At(code, line));
        AsmFault::At(code, line)
    }
}
