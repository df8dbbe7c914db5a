ghost use Rattle.std.specs.Prelude.{◌≡◌, ℕ, ◌+◌, ◌*◌, ◌/◌, ◌%◌, ◌<◌, ◌↔◌, IsSome, IfSome};
ghost use Rattle.word12.specs.Octal.{octal5};
ghost use Rattle.word12.specs.declared.sizes.TheConstants.{CORE, FIELD};

use crate::{FIELD, Word};
use std::marker::Model;

/// A cell of core: a field, 0 to 7, and an address in it, 0 to 0o7777 (Small Computer Handbook, MC8 extended memory).
///
/// A contract sees the number of the cell, which is 0o10000 times its field plus its address.
#[derive(Clone, Copy, PartialEq, Eq, PartialOrd, Ord, Hash, Debug)]
pub struct Cell {
    number: u32,
}

impl Model for Cell {
    ghost Value = { ℕ };

    ghost view = { λ cell. cell.number };

    ghost invariant = { λ cell. cell.number < CORE };

    ghost inverse = { λ number. record { number = number } };
}

impl Cell {
    /// The cell of a field below 8 and an address below 0o10000, else nothing.
    #[inline]
    pub fn new(field: u8, address: u16) -> Option<Cell>
        ensures fits { IsSome result ↔ ((field < 8) × (address < 0o10000)) }
        ensures number { IfSome result (λ cell. cell ≡ FIELD * field + address) }
    {
        if field < 8 && address < 0o10000 {
            Some(Cell {
                number: FIELD as u32 * u32::from(field) + u32::from(address),
            })
        } else {
            None
        }
    }

    /// The cell at an address of a field.
    #[inline]
    pub fn at(field: u8, address: Word) -> Cell
        requires { field < 8 }
        ensures number { result ≡ FIELD * field + address }
        ensures range { result < CORE }
    {
        Cell {
            number: FIELD as u32 * u32::from(field) + u32::from(address.get()),
        }
    }

    /// The cell of this number among all cells of core.
    #[inline]
    pub fn of(number: u32) -> Cell
        requires { number < CORE }
        ensures number { result ≡ number }
        ensures range { result < CORE }
    {
        Cell { number }
    }

    /// The field, 0 to 7.
    #[inline]
    pub fn field(self) -> u8
        ensures value { result ≡ self / FIELD }
        ensures range { result < 8 }
    {
        (self.number / FIELD as u32) as u8
    }

    /// The address in the field.
    #[inline]
    pub fn address(self) -> Word
        ensures value { result ≡ self % FIELD }
        ensures range { result < 0o10000 }
    {
        Word::low((self.number % FIELD as u32) as u16)
    }

    /// The number of the cell among all cells of core: 0o10000 times the field, plus the address.
    #[inline]
    pub fn index(self) -> usize
        ensures value { result ≡ self }
        ensures range { result < CORE }
    {
        self.number as usize
    }

    /// The cell as five octal digits in ASCII: its field, and its address with zeros in front.
    pub fn octal5(self) -> [u8; 5]
        ensures { result ≡ octal5 self }
    {
        let [a, b, c, d] = self.address().octal4();
        [0o60 + self.field(), a, b, c, d]
    }
}
