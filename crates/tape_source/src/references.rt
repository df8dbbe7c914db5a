ghost use Rattle.std.specs.Prelude.{◌≡◌, ◌/◌};
ghost use Rattle.tape_source.specs.References.{operation_name};

use word12::Word;

/// The name of a memory reference's operation.
pub fn operation_name(word: Word) -> [u8; 3]
    ensures { result ≡ operation_name (word / 0o1000) }
{
    match word.get() / 0o1000 {
        0 => *b"AND",
        1 => *b"TAD",
        2 => *b"ISZ",
        3 => *b"DCA",
        4 => *b"JMS",
        _ => *b"JMP",
    }
}
