//! What stands after a call of the monitor (OS/8 Software Support Manual).

ghost use Rattle.std.specs.Prelude.{◌≡◌, ◌≤◌};
ghost use Rattle.pointer_flow.specs.Calls.{call_form, form, usr_form};

use crate::calls::{Call, CallForm};

/// The form of a call, by whether AC is clear at it.
pub(crate) fn call_form(is_clear: bool, call: Call) -> CallForm
    ensures value { result ≡ call_form is_clear call }
    ensures words { result.words ≤ 4 }
    ensures gets { result.gets ≤ result.words }
    ensures returns { result.returns ≤ 2 }
{
    match call {
        Call::Usr(function) => usr_form(is_clear, function),
        Call::SystemHandler | Call::Handler => form(3, 0, 2),
    }
}

/// The form of a call of the USR, by the number of its function.
pub(crate) fn usr_form(is_clear: bool, function: u16) -> CallForm
    ensures value { result ≡ usr_form is_clear function }
    ensures words { result.words ≤ 4 }
    ensures gets { result.gets ≤ result.words }
    ensures returns { result.returns ≤ 2 }
{
    match function {
        0 | 0o10 | 0o11 => form(1, 0, 1),
        1 | 0o12 => device_form(is_clear),
        2 | 3 => form(3, 2, 2),
        4 => form(3, 0, 2),
        5 => form(3, 0, 1),
        6 | 7 => form(2, 0, 0),
        _ => form(2, 0, 1),
    }
}

/// FETCH's and INQUIRE's: a device by its name, or by its number in AC.
fn device_form(is_clear: bool) -> CallForm
    ensures value { result ≡ usr_form is_clear 1 }
    ensures words { result.words ≤ 4 }
    ensures gets { result.gets ≤ result.words }
    ensures returns { result.returns ≤ 2 }
{
    if is_clear {
        form(4, 2, 2)
    } else {
        form(2, 1, 2)
    }
}

fn form(words: u16, gets: u16, returns: u16) -> CallForm
    ensures { result ≡ form words gets returns }
{
    CallForm {
        words,
        gets,
        returns,
    }
}
