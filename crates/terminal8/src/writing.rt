//! What is printed, on a writer.

ghost use Rattle.std.specs.Prelude.{◌≡◌, ◌∷◌, [], OnErr, OnOk, IfErr};
ghost use Rattle.std.specs.Io.KnownBytes.{Appends};
ghost use Rattle.cpu8.specs.Go.{character_of};
ghost use Rattle.terminal8.specs.Terminal.{visible_characters};
ghost use Rattle.terminal8.specs.Papers.{Passes};
ghost use Rattle.terminal8.specs.declared.outcomes.TerminalFault.TheVariants as fault;

use crate::outcomes::TerminalFault;
use crate::outputs::Output;
use arrayvec::ArrayVec;
use cpu8::Stepped;
use std::marker::Model;

/// What was printed and not handed on yet, as bytes.
#[derive(Drop)]
pub struct Paper {
    bytes: ArrayVec<u8, HANDED_ON_AT_ONCE>,
}

impl Model for Paper {
    ghost use Rattle.std.specs.Prelude.{ℕ, List};

    ghost Value = { List ℕ };

    ghost view = { λ p. p.bytes.items };
}

impl Paper {
    /// Nothing was printed.
    pub fn new() -> Paper
        ensures { result ≡ [] }
    {
        Paper {
            bytes: ArrayVec::new(),
        }
    }

    /// Prints what a step did.
    #[inline(always)]
    pub fn print<O: Output>(&mut self, writer: &mut O, did: &Stepped) -> Result<(), TerminalFault>
        ensures ok { OnOk result (Passes (O.contents writer.old) (O.contents writer.new) self.old self.new
            (visible_characters (character_of did.now))) }
        ensures err { IfErr result (λ e. e ≡ fault.Writer) }
        ensures cause { OnErr result (O.has_failed writer.new) }
    {
        match did {
            Stepped::Ran {
                printed: Some(character),
            } => self.put(writer, *character),
            _ => Ok(()),
        }
    }

    /// Prints a character without its top bit, but not NUL.
    fn put<O: Output>(&mut self, writer: &mut O, character: u8) -> Result<(), TerminalFault>
        ensures ok { OnOk result (Passes (O.contents writer.old) (O.contents writer.new) self.old self.new
            (visible_characters (character ∷ []))) }
        ensures err { IfErr result (λ e. e ≡ fault.Writer) }
        ensures cause { OnErr result (O.has_failed writer.new) }
    {
        let byte = character % 0o200;
        if byte == 0 {
            return Ok(());
        }
        if self.bytes.is_full() {
            self.hand_on(writer)?;
        }
        self.bytes.push(byte);
        Ok(())
    }

    /// Hands on what was printed to a writer.
    fn hand_on<O: Output>(&mut self, writer: &mut O) -> Result<(), TerminalFault>
        ensures ok { OnOk result (Appends (O.contents writer.old) (O.contents writer.new) self.old) }
        ensures rest { OnOk result (self.new ≡ []) }
        ensures err { IfErr result (λ e. e ≡ fault.Writer) }
        ensures cause { OnErr result (O.has_failed writer.new) }
    {
        if writer.put(self.bytes.as_slice()).is_err() {
            return Err(TerminalFault::Writer);
        }
        self.bytes.clear();
        Ok(())
    }

    /// Hands on what was printed to a writer, and has that hand it on too.
    pub fn flush<O: Output>(&mut self, writer: &mut O) -> Result<(), TerminalFault>
        ensures ok { OnOk result (Passes (O.contents writer.old) (O.contents writer.new) self.old self.new
            []) }
        ensures rest { OnOk result (self.new ≡ []) }
        ensures err { IfErr result (λ e. e ≡ fault.Writer) }
        ensures cause { OnErr result (O.has_failed writer.new) }
    {
        self.hand_on(writer)?;
        match writer.hand_on() {
            Ok(()) => Ok(()),
            Err(_) => Err(TerminalFault::Writer),
        }
    }
}

/// The bytes that are kept at most.
const HANDED_ON_AT_ONCE: usize = 0o10000;
