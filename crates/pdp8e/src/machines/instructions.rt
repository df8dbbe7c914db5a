//! Instructions of the disk, of the devices and of the processor.

ghost use Rattle.std.specs.Prelude.{◌≡◌, true, false, None};
ghost use Rattle.cpu8e.specs.State.{grants_interrupt};
ghost use Rattle.cpu8e.specs.Step.{next_word};
ghost use Rattle.pdp8e.specs.Step as spec;
ghost use Rattle.pdp8e.specs.Step.{after_instruction, after_other, device_row, disk_row, passing, processor_row};

use super::{Machine, join};
use crate::devices::is_device_word;
use cpu8::Stepped;
use word12::Word;

/// CAF, which clears all devices.
const CAF: u16 = 0o6007;

/// The operation of an IOT.
const IOT: u16 = 6;

/// An IOT of the disk without its last digit.
const DISK: u16 = 0o674;

impl Machine {
    /// The next instruction, which has this word. An instruction passes for what is under way.
    pub(super) fn execute(&mut self, word: Word) -> Stepped
        requires running { self.old.processor.base.running ≡ true }
        requires no_interrupt { grants_interrupt self.old.processor ≡ false }
        requires next { word ≡ next_word self.old.processor }
        ensures state { self.new ≡ (after_instruction (passing self.old) word).0 }
        ensures answer { result ≡ (after_instruction (passing self.old) word).1 }
    {
        if is_disk_word(word) && !self.processor.user_flag() {
            self.ask_disk(word);
            return Stepped::Ran { printed: None };
        }
        self.execute_other(word)
    }

    /// The same, of an instruction that isn't the disk's.
    fn execute_other(&mut self, word: Word) -> Stepped
        requires running { self.old.processor.base.running ≡ true }
        requires no_interrupt { grants_interrupt self.old.processor ≡ false }
        requires next { word ≡ next_word self.old.processor }
        ensures state { self.new ≡ (after_other (passing self.old) word).0 }
        ensures answer { result ≡ (after_other (passing self.old) word).1 }
    {
        if is_device_word(word) && !self.processor.user_flag() {
            self.ask_devices(word);
            return Stepped::Ran { printed: None };
        }
        self.ask_processor(word)
    }

    /// Another device does an IOT.
    fn ask_devices(&mut self, word: Word)
        ensures { self.new ≡ device_row (passing self.old) word }
    {
        self.disk.pass(1);
        self.devices.pass(1);
        let given = self.devices.do_instruction(word, self.processor.ac());
        self.processor.answer_device(given.ac, given.skips);
        self.is_quiet = join(&mut self.processor, &self.disk, &self.devices);
    }

    /// The disk does an IOT.
    fn ask_disk(&mut self, word: Word)
        ensures { self.new ≡ disk_row (passing self.old) word }
    {
        self.disk.pass(1);
        self.devices.pass(1);
        let pulses = (word.get() % 8) as u8;
        let answer = self.disk.do_instruction(pulses, self.processor.ac());
        self.processor.answer_device(answer.ac, answer.skips);
        self.is_quiet = join(&mut self.processor, &self.disk, &self.devices);
    }

    /// The processor does an instruction. CAF clears disk and devices too.
    #[tactic(auto, unfolding(cpu8e::specs::Step::step))]
    fn ask_processor(&mut self, word: Word) -> Stepped
        requires running { self.old.processor.base.running ≡ true }
        requires no_interrupt { grants_interrupt self.old.processor ≡ false }
        requires next { word ≡ next_word self.old.processor }
        ensures state { self.new ≡ (processor_row (passing self.old) word).0 }
        ensures answer { result ≡ (processor_row (passing self.old) word).1 }
    {
        self.disk.pass(1);
        self.devices.pass(1);
        let clears = word.get() == CAF && !self.processor.user_flag();
        let did = self.processor.step();
        if clears {
            self.disk.clear();
            self.devices.clear();
        }
        self.is_quiet = join(&mut self.processor, &self.disk, &self.devices);
        did
    }
}

/// Whether a word is an IOT of the disk.
#[inline(always)]
fn is_disk_word(word: Word) -> bool
    ensures { result ≡ spec.is_disk_word word }
{
    word.get() / 8 == DISK
}

/// Whether the disk or another device does an instruction of this word, or is cleared by it.
#[inline(always)]
pub(super) fn is_for_devices(word: Word) -> bool
    ensures { result ≡ spec.is_for_devices word }
{
    word.get() / 0o1000 == IOT && is_iot_for_devices(word)
}

/// The same, of an IOT.
#[inline]
fn is_iot_for_devices(word: Word) -> bool
    ensures { result ≡ spec.is_for_devices word }
{
    is_disk_word(word) || word.get() == CAF || is_device_word(word)
}
