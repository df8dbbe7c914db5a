ghost use Rattle.std.specs.Prelude.{◌≡◌, ℕ};

use std::marker::Model;

/// The number of a name of up to six characters, of which missing ones are written as 0.
#[macro_export]
macro_rules! name {
    ($a:literal $b:literal $c:literal $d:literal $e:literal $f:literal) => {
        0o10000000000 * ($a as u64 % 0o100)
            + 0o100000000 * ($b as u64 % 0o100)
            + 0o1000000 * ($c as u64 % 0o100)
            + 0o10000 * ($d as u64 % 0o100)
            + 0o100 * ($e as u64 % 0o100)
            + ($f as u64 % 0o100)
    };
}

/// A name in a source: a letter followed by letters and digits, of which the first six characters count (PAL III
/// Symbolic Assembler manual).
///
/// A contract sees the number of six digits to the base 64, which are the sixbit codes of those characters, with 0 for
/// each that is missing. It is kept as two halves, which need not lie at a multiple of eight bytes. So each token and each
/// term of an expression is that much smaller.
#[derive(Clone, Copy)]
pub struct Name {
    high: u32,
    low: u32,
}

impl Model for Name {
    ghost use Rattle.std.specs.Prelude.{ℕ, ◌+◌, ◌*◌, ◌/◌, ◌%◌, ◌<◌};
    ghost use Rattle.std.proofs.Common.{ap, ◌∙◌};
    ghost use Rattle.std.proofs.lemmas.Nat.{div-mul-add, mod-mul-add};

    ghost Value = { ℕ };

    ghost invariant = { λ name. name.low < 4294967296 };

    ghost view = { λ name. name.high * 4294967296 + name.low };

    ghost inverse = { λ number. record { high = number / 4294967296; low = number % 4294967296 } };

    ghost inverse_ok = { λ a h. ap (λ (n : ℕ). record { high = n; low = (a.high * 4294967296 + a.low) % 4294967296 })
        (div-mul-add a.high 4294967296 a.low h)
        ∙ ap (λ (n : ℕ). record { high = a.high; low = n }) (mod-mul-add a.high 4294967296 a.low h) };
}

impl Name {
    /// The name of a number, which six sixbit codes make.
    #[inline]
    pub(crate) fn from_number(number: u64) -> Name
        ensures { result ≡ number }
    {
        Name {
            high: (number / 4294967296) as u32,
            low: (number % 4294967296) as u32,
        }
    }

    /// The number that its six sixbit codes make.
    #[inline]
    pub fn number(self) -> u64
        ensures { result ≡ self }
    {
        4294967296 * u64::from(self.high) + u64::from(self.low)
    }
}
