ghost use Rattle.std.specs.Prelude.{◌≡◌, IfOk, IsOkUnless, OnOk, string_bytes};
ghost use Rattle.word12.specs.Octal.{octal4};
ghost use Rattle.serde_json.specs.Data.{boolean, object, string, put as with_member};
ghost use Rattle.serde_json.specs.View.{members_view, view};
ghost use Rattle.debug8.specs.Snapshot.{members, octal1, octal2, octal3, snapshot};
ghost use Rattle.debug8.specs.ValueSteps.{members_of};
ghost use Rattle.debug8.specs.declared.faults.DebugFault.TheVariants.{Memory};

use crate::{DebugFault, Debugger};
use cpu8::Machine;
use serde_json::{Map, Value, put};
use std::alloc::{AllocError, Global};
use word12::Word;

impl Debugger {
    /// The registers and flags of a machine as compact JSON (RFC 8259), with sixteen keys in alphabetical order. Numbers
    /// are texts of octal digits, and flags are truth values (this project's profile).
    pub fn snapshot(alloc: Global, machine: &Machine) -> Result<String, DebugFault>
        ensures text { IfOk result (λ text. string_bytes text ≡ snapshot machine.now) }
        ensures memory { IsOkUnless result Memory }
    {
        let text = text_of(alloc, machine)?;
        Ok(text)
    }
}

fn text_of(alloc: Global, machine: &Machine) -> Result<String, AllocError>
    ensures { IfOk result (λ text. string_bytes text ≡ snapshot machine.now) }
{
    let value = value_of(alloc, machine)?;
    let text = value.to_string(alloc)?;
    Ok(text)
}

/// The registers and flags as a value of JSON.
fn value_of(alloc: Global, machine: &Machine) -> Result<Value, AllocError>
    ensures { IfOk result (λ value. view value ≡ object (members_of (members machine.now))) }
{
    let mut members = Map::new(alloc);
    let ac = four_digits(alloc, machine.ac())?;
    put_digits(&mut members, alloc, "ac", ac)?;
    put_truth(&mut members, alloc, "busy", machine.is_busy())?;
    let df = one_digit(alloc, machine.data_field())?;
    put_digits(&mut members, alloc, "df", df)?;
    put_truth(&mut members, alloc, "held", machine.is_held_off())?;
    let ib = one_digit(alloc, machine.instruction_buffer())?;
    put_digits(&mut members, alloc, "ib", ib)?;
    let field = one_digit(alloc, machine.instruction_field())?;
    put_digits(&mut members, alloc, "if", field)?;
    put_truth(&mut members, alloc, "ion", machine.interrupts_on())?;
    put_truth(&mut members, alloc, "kbd", machine.keyboard_flag())?;
    let key = three_digits(alloc, machine.keyboard_buffer())?;
    put_digits(&mut members, alloc, "key", key)?;
    let l = one_digit(alloc, machine.l())?;
    put_digits(&mut members, alloc, "l", l)?;
    let pc = four_digits(alloc, machine.pc())?;
    put_digits(&mut members, alloc, "pc", pc)?;
    put_truth(&mut members, alloc, "printer", machine.printer_flag())?;
    put_truth(&mut members, alloc, "run", machine.is_running())?;
    let sf = two_digits(alloc, machine.save_field())?;
    put_digits(&mut members, alloc, "sf", sf)?;
    let switches = four_digits(alloc, machine.switch_register())?;
    put_digits(&mut members, alloc, "switches", switches)?;
    put_truth(&mut members, alloc, "wait", machine.is_waiting())?;
    Ok(Value::Object(members))
}

/// A member that is a text of octal digits.
fn put_digits(
    members: &mut Map<String, Value>,
    alloc: Global,
    key: &str,
    text: String,
) -> Result<(), AllocError>
    ensures { OnOk result (members_view members.new.entries
        ≡ with_member key.now (string (string_bytes text)) (members_view members.old.entries)) }
{
    put(members, alloc, key, Value::String(text))
}

/// A member that is a truth value.
fn put_truth(
    members: &mut Map<String, Value>,
    alloc: Global,
    key: &str,
    is_set: bool,
) -> Result<(), AllocError>
    ensures { OnOk result (members_view members.new.entries
        ≡ with_member key.now (boolean is_set) (members_view members.old.entries)) }
{
    put(members, alloc, key, Value::Bool(is_set))
}

/// A word as four octal digits.
fn four_digits(alloc: Global, word: Word) -> Result<String, AllocError>
    ensures { IfOk result (λ text. string_bytes text ≡ octal4 word) }
{
    let text = format!(in alloc; "{word}")?;
    Ok(text)
}

/// The last octal digit of a number.
fn one_digit(alloc: Global, number: u8) -> Result<String, AllocError>
    ensures { IfOk result (λ text. string_bytes text ≡ octal1 number) }
{
    let text = format!(in alloc; "{}", number % 8)?;
    Ok(text)
}

/// The last two octal digits of a number.
fn two_digits(alloc: Global, number: u8) -> Result<String, AllocError>
    ensures { IfOk result (λ text. string_bytes text ≡ octal2 number) }
{
    let text = format!(in alloc; "{}{}", number / 8 % 8, number % 8)?;
    Ok(text)
}

/// The last three octal digits of a number.
fn three_digits(alloc: Global, number: u8) -> Result<String, AllocError>
    ensures { IfOk result (λ text. string_bytes text ≡ octal3 number) }
{
    let text = format!(in alloc; "{}{}{}", number / 64 % 8, number / 8 % 8, number % 8)?;
    Ok(text)
}
