//! When a program asks for a key, and when it does nothing but wait for one.

ghost use Rattle.std.specs.Prelude.{◌≡◌, ℕ, ◌+◌, ◌<◌, ◌≤◌, ◌&&◌, nat_le, false};
ghost use Rattle.terminal8.specs.Absences.{absence_at};
ghost use Rattle.terminal8.specs.Asks.{is_ksf, is_undisturbed, tests_keyboard, asks_for_key, jumps_back, is_at_rest, waits_for_key};
ghost use Rattle.cpu8.specs.Step.{next_word};

use crate::absences::Absence;
use cpu8::Machine;
use cpu8::decoding::is_absent;
use word12::{Cell, PAGE, Word};

/// Whether the program asks for a key, so many steps after it last asked. It does where no key is unread, and one of these
/// holds. The next step is a KSF (pulse 1 of a keyboard instruction); or interrupts are on and the steps are 30,000 at least, a
/// tenth of a second.
pub fn asks_for_key(since: u64, machine: &Machine) -> bool
    ensures { result ≡ asks_for_key since machine.now }
{
    !machine.keyboard_flag()
        && (tests_keyboard(machine) || (machine.interrupts_on() && since >= TENTH_OF_A_SECOND))
}

/// How many steps, at most n, a program may make before it asks for a key by its time alone. So many steps were made since it
/// last asked, and interrupts stay on or off as they are.
#[inline(always)]
pub(crate) fn steps_before_look(since: u64, machine: &Machine, n: u64) -> usize
    ensures within { result ≤ n }
    ensures sooner { (m : ℕ) → m < result → (machine.now.interrupts_on && nat_le 30000 (since + m)) ≡ false }
{
    let most = if machine.interrupts_on() {
        TENTH_OF_A_SECOND.saturating_sub(since)
    } else {
        TENTH_OF_A_SECOND
    };
    n.min(most) as usize
}

/// Whether the machine waits for a key in `KSF; JMP .-1`, and would do so for ever if none came.
pub fn waits_for_key(machine: &Machine) -> bool
    ensures { result ≡ waits_for_key machine.now }
{
    machine.is_running()
        && !machine.keyboard_flag()
        && next_word(machine).get() == KSF
        && jumps_back(machine)
        && is_at_rest(machine)
}

/// What the next step does, if it is an IOT of a device that isn't there, and no interrupt.
#[inline(always)]
pub(crate) fn absence_at(machine: &Machine) -> Option<Absence>
    ensures { result ≡ absence_at machine.now }
{
    let word = next_word(machine);
    if is_absent(word) && is_undisturbed(machine) {
        Some(Absence {
            word,
            cell: machine.next_cell(),
        })
    } else {
        None
    }
}

/// Whether the next step asks whether a key was struck.
fn tests_keyboard(machine: &Machine) -> bool
    ensures { result ≡ tests_keyboard machine.now }
{
    is_ksf(next_word(machine)) && is_undisturbed(machine)
}

/// The word of the next instruction.
fn next_word(machine: &Machine) -> Word
    ensures value { result ≡ next_word machine.now }
    ensures range { result < 0o10000 }
{
    machine.core().get(machine.next_cell())
}

/// Pulse 1 of a keyboard instruction.
fn is_ksf(word: Word) -> bool
    ensures { result ≡ is_ksf word }
{
    word.get() / 0o10 == KEYBOARD && word.get() % 2 == 1
}

/// Whether the machine runs, and no interrupt comes in place of the next instruction. The printer ends its character before.
fn is_undisturbed(machine: &Machine) -> bool
    ensures { result ≡ is_undisturbed machine.now }
{
    let requests = machine.keyboard_flag() || machine.printer_flag() || machine.is_busy();
    let grants = machine.interrupts_on()
        && !machine.is_waiting()
        && !machine.is_held_off()
        && requests;
    machine.is_running() && !grants
}

/// Whether the word after the next instruction is a direct JMP back to it.
fn jumps_back(machine: &Machine) -> bool
    ensures { result ≡ jumps_back machine.now }
{
    let next = machine.pc().plus(Word::low(1));
    let word = machine
        .core()
        .get(Cell::at(machine.instruction_field(), next));
    let page = if word.get() / CURRENT_PAGE % 2 == 1 {
        next.get() / PAGE * PAGE
    } else {
        0
    };
    word.get() / 0o400 == DIRECT_JMP && page + word.get() % PAGE == machine.pc().get()
}

/// Whether nothing changes by itself: no character is printing, nothing waits for an instruction or a jump, and no interrupt is
/// requested where they are on.
fn is_at_rest(machine: &Machine) -> bool
    ensures { result ≡ is_at_rest machine.now }
{
    !machine.is_busy()
        && !machine.is_waiting()
        && !machine.is_held_off()
        && machine.instruction_buffer() == machine.instruction_field()
        && !(machine.interrupts_on() && machine.printer_flag())
}

/// So many steps take a tenth of a second.
const TENTH_OF_A_SECOND: u64 = 30_000;

/// The keyboard's instructions without their pulses, 6030 to 6037.
const KEYBOARD: u16 = 0o603;

const KSF: u16 = 0o6031;

/// A direct JMP without its page bit and its offset, 5000 to 5377.
const DIRECT_JMP: u16 = 0o12;

/// The bit of a reference to memory that is for the current page.
const CURRENT_PAGE: u16 = 0o200;
