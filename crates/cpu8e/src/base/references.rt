//! The instructions that refer to memory.

ghost use Rattle.std.specs.Prelude.{◌≡◌, ◌<◌, false};
ghost use Rattle.word12.specs.declared.sizes.TheConstants.{CORE};
ghost use Rattle.cpu8.specs.State.{with_core};
ghost use Rattle.cpu8.specs.Reference.{direct_address, core_with_index, effective_address, operand_place, after_fetch, and_row, tad_row, isz_row, dca_row, jms_row, jmp_row};

use super::Base;
use core_load::Core;
use cpu8::decoding::{CURRENT_PAGE, INDIRECT, has};
use word12::{Cell, PAGE, Word};

impl Base {
    /// The direct address: the offset in the current page, which is that of the instruction, or in page zero.
    #[inline(always)]
    fn direct_address(&self, word: Word) -> Word
        ensures value { result ≡ direct_address self.now word }
        ensures range { result < 0o10000 }
    {
        let offset = word.get() % PAGE;
        if has(word, CURRENT_PAGE) {
            Word::low(self.pc.get() / PAGE * PAGE + offset)
        } else {
            Word::low(offset)
        }
    }

    /// The effective address: the direct address, or the pointer's word there, an auto-index being made one more first.
    #[inline(always)]
    fn effective_address(&self, core: &mut Core, word: Word) -> Word
        ensures value { result ≡ effective_address (with_core self.now core.old) word }
        ensures core { core.new ≡ core_with_index (with_core self.now core.old) word }
        ensures range { result < 0o10000 }
    {
        let address = self.direct_address(word);
        if !has(word, INDIRECT) {
            return address;
        }
        let cell = Cell::at(self.instruction_field, address);
        let pointer = core.get(cell);
        let place = address.get();
        if place >= 0o10 && place <= 0o17 {
            let next = pointer.plus(Word::ONE);
            core.set(cell, next);
            return next;
        }
        pointer
    }

    /// The cell of the operand of AND, TAD, ISZ and DCA.
    #[inline(always)]
    fn operand_cell(&self, core: &mut Core, word: Word) -> Cell
        ensures value { result ≡ operand_place (with_core self.now core.old) word }
        ensures core { core.new ≡ core_with_index (with_core self.now core.old) word }
        ensures range { result < CORE }
    {
        let address = self.effective_address(core, word);
        let field = if has(word, INDIRECT) {
            self.data_field
        } else {
            self.instruction_field
        };
        Cell::at(field, address)
    }

    /// PC is advanced by one, and the waiting of ION is over.
    #[inline(always)]
    pub(crate) fn advance(&mut self)
        ensures { self.new ≡ after_fetch self.old }
    {
        self.pc = self.pc.plus(Word::ONE);
        self.waiting = false;
    }

    #[inline(always)]
    pub(crate) fn and(&mut self, core: &mut Core, word: Word)
        ensures { with_core self.new core.new ≡ and_row (with_core self.old core.old) word }
    {
        let cell = self.operand_cell(core, word);
        self.advance();
        self.ac = self.ac.and(core.get(cell));
    }

    #[inline(always)]
    pub(crate) fn tad(&mut self, core: &mut Core, word: Word)
        ensures { with_core self.new core.new ≡ tad_row (with_core self.old core.old) word }
    {
        let cell = self.operand_cell(core, word);
        self.advance();
        let sum = self.ac.get() + core.get(cell).get();
        self.l = (self.l + (sum / 0o10000) as u8) % 2;
        self.ac = Word::low(sum);
    }

    #[inline(always)]
    pub(crate) fn isz(&mut self, core: &mut Core, word: Word)
        ensures { with_core self.new core.new ≡ isz_row (with_core self.old core.old) word }
    {
        let cell = self.operand_cell(core, word);
        self.advance();
        let raised = core.get(cell).plus(Word::ONE);
        core.set(cell, raised);
        if raised == Word::ZERO {
            self.pc = self.pc.plus(Word::ONE);
        }
    }

    #[inline(always)]
    pub(crate) fn dca(&mut self, core: &mut Core, word: Word)
        ensures { with_core self.new core.new ≡ dca_row (with_core self.old core.old) word }
    {
        let cell = self.operand_cell(core, word);
        self.advance();
        core.set(cell, self.ac);
        self.ac = Word::ZERO;
    }

    /// A jump goes to the field of the instruction buffer, and ends the holding off of interrupts.
    #[inline(always)]
    fn enter_field(&mut self)
        ensures { self.new ≡ record
            self.old { instruction_field = self.old.instruction_buffer; held_off = false } }
    {
        self.instruction_field = self.instruction_buffer;
        self.held_off = false;
    }

    #[inline(always)]
    pub(crate) fn jms(&mut self, core: &mut Core, word: Word)
        ensures { with_core self.new core.new ≡ jms_row (with_core self.old core.old) word }
    {
        let entry = self.effective_address(core, word);
        self.advance();
        self.enter_field();
        let first = Cell::at(self.instruction_field, entry);
        core.set(first, self.pc);
        self.pc = entry.plus(Word::ONE);
    }

    #[inline(always)]
    pub(crate) fn jmp(&mut self, core: &mut Core, word: Word)
        ensures { with_core self.new core.new ≡ jmp_row (with_core self.old core.old) word }
    {
        let target = self.effective_address(core, word);
        self.advance();
        self.enter_field();
        self.pc = target;
    }
}
