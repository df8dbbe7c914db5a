//! Laws of reader, punch, line printer and clock.

ghost use Rattle.std.specs.Prelude.{◌≡◌, ℕ, suc, true, false, List, ◌∷◌, [], Some, None};
ghost use Rattle.cpu8e.specs.State.{grants_interrupt};
ghost use Rattle.cpu8e.specs.Step.{next_word};
ghost use Rattle.pdp8e.specs.Devices.{DevicesState, new_devices, are_idle, are_requesting};
ghost use Rattle.pdp8e.specs.DeviceInstructions.{is_device_word};
ghost use Rattle.pdp8e.specs.State.{Pdp8e};
ghost use Rattle.pdp8e.specs.Step.{at_beginning, is_caf, step};
ghost use Rattle.pdp8e.specs.Laws.{LeavesDevices, character_printed, frame_punched, having, having_after};

/// Devices that are idle and request nothing, with no clock, change no step but by their own instructions and CAF. It is the step of a machine
/// that has new ones, and leaves these as they are.
pub fn idle_devices()
    ensures { (m : Pdp8e) (d : DevicesState) → are_idle d ≡ true → are_requesting d ≡ false
        → is_device_word (next_word (at_beginning (having m new_devices)).processor) ≡ false
        → is_caf (next_word (at_beginning (having m new_devices)).processor) ≡ false
        → step (having m d) ≡ having_after (step (having m new_devices)) d }
{}

/// After a step the punch has the frame that the step punched. It does so by PPC and PLS alone, where no interrupt comes and not in user
/// mode. So it is of the line printer.
pub fn written_by_step()
    ensures punch { (m : Pdp8e) → m.processor.base.running ≡ true
        → (step m).0.devices.punch.writing ≡ frame_punched (at_beginning m) }
    ensures printer { (m : Pdp8e) → m.processor.base.running ≡ true
        → (step m).0.devices.printer.writing ≡ character_printed (at_beginning m) }
{}

/// A frame that was asked for comes in the beginning of the next step, and is the next of the tape. At its end none comes, and the flag and
/// the buffer stay.
pub fn read_in_order()
    ensures frame { (m : Pdp8e) (frame : ℕ) (others : List ℕ) → m.devices.reader.asked ≡ true
        → m.devices.reader.tape ≡ Some (frame ∷ others)
        → (at_beginning m).devices.reader ≡ record { tape = Some others; asked = false; buffer = frame; flag = true } }
    ensures end { (m : Pdp8e) → m.devices.reader.asked ≡ true → m.devices.reader.tape ≡ Some []
        → (at_beginning m).devices.reader ≡ record m.devices.reader { asked = false } }
    ensures none { (m : Pdp8e) → m.devices.reader.asked ≡ true → m.devices.reader.tape ≡ None
        → (at_beginning m).devices.reader ≡ record m.devices.reader { asked = false } }
{}

/// The clock ticks in the beginning of a step where no instruction is left until then, and counts anew. Each instruction is one less, CAF
/// too, and an interrupt none.
pub fn clock_counts()
    ensures ticks { (m : Pdp8e) → m.devices.clock.time_left ≡ Some 0
        → (at_beginning m).devices.clock ≡ record m.devices.clock { flag = true; time_left = Some m.devices.clock.period } }
    ensures instruction { (m : Pdp8e) (time : ℕ) → m.processor.base.running ≡ true
        → grants_interrupt (at_beginning m).processor ≡ false → m.devices.clock.time_left ≡ Some (suc time)
        → (step m).0.devices.clock.time_left ≡ Some time }
    ensures interrupt { (m : Pdp8e) (time : ℕ) → m.processor.base.running ≡ true
        → grants_interrupt (at_beginning m).processor ≡ true → m.devices.clock.time_left ≡ Some (suc time)
        → (step m).0.devices.clock.time_left ≡ Some (suc time) }
{}

/// In user mode no step changes a device, but by what comes in its beginning, and by time.
pub fn user_mode_leaves_devices()
    ensures { (m : Pdp8e) → m.processor.user_flag ≡ true → LeavesDevices m (step m).0.devices }
{}
