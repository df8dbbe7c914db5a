ghost use Rattle.std.specs.Prelude.{◌≡◌, ◌<◌, IfSome};
ghost use Rattle.word12.specs.Sixbit.{sixbit_code};

/// The sixbit code of a capital letter (001 to 032) or a digit (060 to 071), else nothing (OS/8 Software Support Manual).
pub fn sixbit(character: u8) -> Option<u8>
    ensures code { result ≡ sixbit_code character }
    ensures range { IfSome result (λ code. code < 0o100) }
{
    match character {
        b'A'..=b'Z' => Some(character - 0o100),
        b'0'..=b'9' => Some(character),
        _ => None,
    }
}
