//! When a program asks for a key, and when it does nothing but wait for one.

ghost use Rattle.std.specs.Prelude.{◌≡◌, ℕ, ◌+◌, ◌<◌, ◌≤◌, ◌&&◌, ◌||◌, not, nat_le, false};
ghost use Rattle.cpu8e.specs.State.{is_requested_by_others};
ghost use Rattle.cpu8e.specs.Step.{next_word};
ghost use Rattle.terminal8e.specs.Absences.{absence_at, is_at_absent};
ghost use Rattle.terminal8e.specs.Asks.{asks_for_key, is_at_ksf, is_at_rest, is_requested_without_key, is_undisturbed, is_waiting, may_see_key, tests_keyboard, waits_for_key};

use cpu8::decoding::is_absent;
use cpu8e::Machine;
use terminal8::Absence;
use word12::Word;

/// Whether the program asks for a key, so many steps after the last look. It does where no key is unread, and one of these holds. It
/// waits in `KSF; JMP .-1`; or it looks for one, by a KSF or with the console's interrupts on, and the steps are 30,000 at least, a
/// tenth of a second.
pub fn asks_for_key(since: u64, machine: &Machine) -> bool
    ensures { result ≡ asks_for_key since machine.now }
{
    !machine.keyboard_flag() && (is_waiting(machine) || (is_late(since) && may_see_key(machine)))
}

/// Whether a look counts, so many steps after the last one: they are 30,000 at least, a tenth of a second.
#[inline(always)]
pub fn is_late(since: u64) -> bool
    ensures { result ≡ nat_le 30000 since }
{
    since >= TENTH_OF_A_SECOND
}

/// How many steps, at most n, a program may make before looks count, where they don't count yet. Where they do, it is before it looks for
/// a key by the console's interrupts alone. So many steps were made since the last look, and these interrupts stay as they are.
#[inline(always)]
pub fn steps_before_look(since: u64, machine: &Machine, n: u64) -> usize
    ensures within { result ≤ n }
    ensures sooner { (m : ℕ) → m < result → (nat_le 30000 (since + m)
        && (not (nat_le 30000 since) || (machine.now.base.interrupts_on && machine.now.console_enabled))) ≡ false }
{
    let most = if !is_late(since) {
        TENTH_OF_A_SECOND - since
    } else if machine.interrupts_on() && machine.console_enabled() {
        0
    } else {
        TENTH_OF_A_SECOND
    };
    n.min(most) as usize
}

/// Whether the machine waits for a key in `KSF; JMP .-1`, and would do so for ever if none came.
pub fn waits_for_key(machine: &Machine) -> bool
    ensures { result ≡ waits_for_key machine.now }
{
    machine.is_running()
        && !machine.keyboard_flag()
        && is_at_ksf(machine)
        && machine.jumps_back()
        && is_at_rest(machine)
}

/// What the next step of a processor does, if it is an IOT of a device that isn't there, and no interrupt. In user mode no IOT is done. Only
/// console and memory extension are there.
#[inline(always)]
pub fn absence_at(machine: &Machine) -> Option<Absence>
    ensures { result ≡ absence_at machine.now }
{
    if !is_at_absent(machine) {
        return None;
    }
    Some(Absence {
        word: next_word(machine),
        cell: machine.next_cell(),
    })
}

/// Whether the next step is an IOT of a device that isn't there.
#[inline(always)]
fn is_at_absent(machine: &Machine) -> bool
    ensures { result ≡ is_at_absent machine.now }
{
    is_absent(next_word(machine)) && !machine.user_flag() && is_undisturbed(machine)
}

/// Whether the next step is a KSF to which a JMP leads back.
#[inline(always)]
fn is_waiting(machine: &Machine) -> bool
    ensures { result ≡ is_waiting machine.now }
{
    tests_keyboard(machine) && machine.jumps_back()
}

/// Whether the program would see a key.
#[inline(always)]
fn may_see_key(machine: &Machine) -> bool
    ensures { result ≡ may_see_key machine.now }
{
    tests_keyboard(machine) || (machine.interrupts_on() && machine.console_enabled())
}

/// Whether the next step asks whether a key was struck.
#[inline(always)]
fn tests_keyboard(machine: &Machine) -> bool
    ensures { result ≡ tests_keyboard machine.now }
{
    is_at_ksf(machine) && !machine.user_flag() && is_undisturbed(machine)
}

/// Whether the next instruction is KSF.
#[inline(always)]
fn is_at_ksf(machine: &Machine) -> bool
    ensures { result ≡ is_at_ksf machine.now }
{
    next_word(machine).get() == KSF
}

/// The word of the next instruction.
#[inline(always)]
fn next_word(machine: &Machine) -> Word
    ensures value { result ≡ next_word machine.now }
    ensures range { result < 0o10000 }
{
    machine.core().get(machine.next_cell())
}

/// Whether the machine runs, and no interrupt comes in place of the next instruction. The printer ends its character before.
fn is_undisturbed(machine: &Machine) -> bool
    ensures { result ≡ is_undisturbed machine.now }
{
    let console = machine.keyboard_flag() || machine.printer_flag() || machine.is_busy();
    let requests = is_requested_by_others(machine) || machine.console_enabled() && console;
    let grants = machine.interrupts_on()
        && !machine.is_waiting()
        && !machine.is_held_off()
        && requests;
    machine.is_running() && !grants
}

/// Whether nothing changes by itself: no user mode, no character is printing, nothing waits for an instruction or a jump, and no
/// interrupt is requested where they are on.
fn is_at_rest(machine: &Machine) -> bool
    ensures { result ≡ is_at_rest machine.now }
{
    !machine.user_flag()
        && !machine.user_buffer()
        && !machine.is_busy()
        && !machine.is_waiting()
        && !machine.is_held_off()
        && machine.instruction_buffer() == machine.instruction_field()
        && !(machine.interrupts_on() && is_requested_without_key(machine))
}

/// Whether an interrupt is requested that is not the keyboard's.
fn is_requested_without_key(machine: &Machine) -> bool
    ensures { result ≡ is_requested_without_key machine.now }
{
    is_requested_by_others(machine) || (machine.console_enabled() && machine.printer_flag())
}

/// Whether an interrupt is requested that is not the console's.
fn is_requested_by_others(machine: &Machine) -> bool
    ensures { result ≡ is_requested_by_others machine.now }
{
    machine.user_request() || machine.device_request()
}

/// So many steps take a tenth of a second.
const TENTH_OF_A_SECOND: u64 = 30_000;

const KSF: u16 = 0o6031;
