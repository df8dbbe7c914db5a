//! Laws of the Teletype's pulses.

ghost use Rattle.std.specs.Prelude.{◌≡◌, ℕ};
ghost use Rattle.tty8.specs.Teletype.{TeletypeState, keyboard_ac, keyboard_pulsed, character_of_pulse, printer_pulsed};

/// Reading the keyboard buffer dynamically (6036) is clearing AC and the flag (6032), and then reading the buffer
/// statically (6034).
pub fn dynamic_read()
    ensures state { (t : TeletypeState) → keyboard_pulsed t 6 ≡ keyboard_pulsed (keyboard_pulsed t 2) 4 }
    ensures ac { (t : TeletypeState) (ac : ℕ) → keyboard_ac t 6 ac
        ≡ keyboard_ac (keyboard_pulsed t 2) 4 (keyboard_ac t 2 ac) }
{}

/// Loading the printer's sequence (6046) is clearing its flag (6042), and then printing (6044).
pub fn load_sequence()
    ensures state { (t : TeletypeState) → printer_pulsed t 6 ≡ printer_pulsed (printer_pulsed t 2) 4 }
    ensures character { (ac : ℕ) → character_of_pulse 6 ac ≡ character_of_pulse 4 ac }
{}
