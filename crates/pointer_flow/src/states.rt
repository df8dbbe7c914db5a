//! States of a program: a cell, the instruction buffer and the data field, as far as its words say them.

ghost use Rattle.std.specs.Prelude.{◌≡◌, ◌<◌, IfSome};
ghost use Rattle.pointer_flow.specs.States.{IsBuffer, IsDataField, IsState, jump_field, start_state};
ghost use Rattle.pointer_flow.specs.Steps.{buffer_of, data_of, state_at};
ghost use Rattle.pointer_flow.specs.Tables.{buffer_number, data_number, state_number};

use word12::{CORE, Cell};

/// The states of one cell: ten instruction buffers, each with nine data fields.
pub(crate) const STATES_OF_CELL: u32 = 90;

/// The states of all cells.
pub(crate) const STATES: usize = 90 * CORE;

/// What is known of the instruction buffer, the field into which the next JMP or JMS goes (Small Computer Handbook, MC8 extended memory).
#[derive(Clone, Copy, PartialEq, Eq, Debug)]
pub enum Buffer {
    /// No CIF was met since the last jump: the field of the instruction.
    Own,
    /// The field of the last CIF, 0 to 7.
    Number(u8),
    /// RMF brought back the field that was saved.
    Unknown,
}

/// What a program is about to do: the instruction in a cell, with what is known of the fields.
#[derive(Clone, Copy, PartialEq, Eq, Debug)]
pub struct State {
    pub cell: Cell,
    pub buffer: Buffer,
    /// The data field, 0 to 7, where it is known.
    pub data_field: Option<u8>,
}

/// The state in which a machine starts at a cell.
pub(crate) fn start_state(cell: Cell) -> State
    ensures value { result ≡ start_state cell }
    ensures range { IsState result }
{
    State {
        cell,
        buffer: Buffer::Own,
        data_field: Some(cell.field()),
    }
}

/// The field into which a jump in this cell goes, where it is known.
pub(crate) fn jump_field(cell: Cell, buffer: Buffer) -> Option<u8>
    requires { IsBuffer buffer }
    ensures value { result ≡ jump_field cell buffer }
    ensures range { IfSome result (λ field. field < 8) }
{
    match buffer {
        Buffer::Own => Some(cell.field()),
        Buffer::Number(field) => Some(field),
        Buffer::Unknown => None,
    }
}

/// The number of a state among all of them.
pub(crate) fn state_number(state: &State) -> usize
    requires { IsState state.now }
    ensures value { result ≡ state_number state.now }
    ensures range { result < STATES }
{
    90 * state.cell.index() + 9 * buffer_number(state.buffer) + data_number(state.data_field)
}

fn buffer_number(buffer: Buffer) -> usize
    requires { IsBuffer buffer }
    ensures value { result ≡ buffer_number buffer }
    ensures range { result < 10 }
{
    match buffer {
        Buffer::Own => 8,
        Buffer::Number(field) => usize::from(field),
        Buffer::Unknown => 9,
    }
}

fn data_number(data_field: Option<u8>) -> usize
    requires { IsDataField data_field }
    ensures value { result ≡ data_number data_field }
    ensures range { result < 9 }
{
    match data_field {
        Some(field) => usize::from(field),
        None => 8,
    }
}

/// The state of a cell by its number among the cell's own.
pub(crate) fn state_at(cell: Cell, number: u32) -> State
    requires { number < STATES_OF_CELL }
    ensures value { result ≡ state_at cell number }
    ensures range { IsState result }
{
    State {
        cell,
        buffer: buffer_of((number / 9) as u8),
        data_field: data_of((number % 9) as u8),
    }
}

fn buffer_of(number: u8) -> Buffer
    requires { number < 10 }
    ensures value { result ≡ buffer_of number }
    ensures range { IsBuffer result }
{
    match number {
        8 => Buffer::Own,
        9 => Buffer::Unknown,
        _ => Buffer::Number(number),
    }
}

fn data_of(number: u8) -> Option<u8>
    requires { number < 9 }
    ensures value { result ≡ data_of number }
    ensures range { IsDataField result }
{
    match number {
        8 => None,
        _ => Some(number),
    }
}
