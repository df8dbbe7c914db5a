//! The bytes of the host, as keys of the Teletype.

ghost use Rattle.std.specs.Prelude.{◌≡◌, ◌++◌, IfOk, OnOk, option_to_list};
ghost use Rattle.terminal8.specs.Keys.{fresh, text_key, key_of_byte, after_byte, keys_of};

use std::alloc::{AllocError, Global};
use std::marker::Model;

/// How bytes are struck.
#[derive(Clone, Copy, PartialEq, Eq, Debug)]
pub enum Form {
    /// As a text of the host: LF is struck as CR (0215), and so is CR, with which an LF after it is one. Any other byte
    /// below 0200 is struck with its top bit set, and one above 0177 is dropped.
    Text,
    /// Each byte as it is.
    Raw,
}

/// A keyboard on which bytes are struck one after the other.
#[derive(Clone, Copy, PartialEq, Eq, Debug)]
pub struct Keyboard {
    form: Form,
    after_return: bool,
}

impl Model for Keyboard {
    ghost use Rattle.terminal8.specs.Keys as spec;

    ghost Value = { spec.Keyboard };

    ghost view = { λ k. record { form = k.form; after_return = k.after_return } };

    ghost inverse = { λ s. record { form = s.form; after_return = s.after_return } };
}

impl Keyboard {
    /// A keyboard on which no byte was struck.
    pub fn new(form: Form) -> Keyboard
        ensures { result ≡ fresh form }
    {
        Keyboard {
            form,
            after_return: false,
        }
    }

    /// Strikes the next byte: the key that it is, of eight bits, if it is one.
    pub fn strike(&mut self, byte: u8) -> Option<u8>
        ensures key { result ≡ key_of_byte self.old byte }
        ensures following { self.new ≡ after_byte self.old byte }
    {
        let after_return = self.after_return;
        self.after_return = byte == CR;
        match self.form {
            Form::Raw => Some(byte),
            Form::Text => text_key(after_return, byte),
        }
    }
}

/// The key of a byte of a text, after a CR or not.
fn text_key(after_return: bool, byte: u8) -> Option<u8>
    ensures { result ≡ text_key after_return byte }
{
    match byte {
        LF if after_return => None,
        LF => Some(CR + TOP_BIT),
        0..TOP_BIT => Some(byte + TOP_BIT),
        _ => None,
    }
}

/// The keys that bytes are struck as, in their order. Where a growth is refused the answer is that error.
pub fn keys_of(alloc: Global, form: Form, bytes: &[u8]) -> Result<Vec<u8>, AllocError>
    ensures { IfOk result (λ keys. keys.items ≡ keys_of form bytes.now) }
{
    let mut keys = Vec::new(alloc);
    let mut keyboard = Keyboard::new(form);
    for byte in bytes {
        put_key(&mut keys, keyboard.strike(*byte))?;
    }
    Ok(keys)
}

/// Appends a key, if there is one.
fn put_key(keys: &mut Vec<u8>, key: Option<u8>) -> Result<(), AllocError>
    ensures { OnOk result (keys.new.items ≡ keys.old.items ++ option_to_list key) }
{
    if let Some(key) = key {
        keys.push(key)?;
    }
    Ok(())
}

const LF: u8 = 0o012;

const CR: u8 = 0o015;

const TOP_BIT: u8 = 0o200;
