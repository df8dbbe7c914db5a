//! The clock.

ghost use Rattle.std.specs.Prelude.{◌≡◌, Some};
ghost use Rattle.rk8e.specs.Time.{is_over, time_after};
ghost use Rattle.pdp8e.specs.Devices.{new_clock, clock_cleared, clock_ended, clock_restarted};
ghost use Rattle.pdp8e.specs.DeviceInstructions.{clock_row};

use std::marker::Model;
use word12::Word;

/// A clock: its flag, whether this may interrupt, the instructions from tick to tick, and those until the next. A clock that isn't there
/// has none of these.
#[derive(Clone, Copy)]
pub(super) struct Clock {
    pub(super) flag: bool,
    pub(super) is_enabled: bool,
    period: u64,
    pub(super) time_left: Option<u64>,
}

impl Model for Clock {
    ghost use Rattle.pdp8e.specs.Devices.{ClockState};

    ghost Value = { ClockState };

    ghost view = { λ c. record {
      flag = c.flag;
      enabled = c.is_enabled;
      period = c.period;
      time_left = c.time_left;
    } };

    ghost inverse = { λ s. record {
      flag = s.flag;
      is_enabled = s.enabled;
      period = s.period;
      time_left = s.time_left;
    } };
}

impl Clock {
    /// No clock.
    pub(super) fn new() -> Clock
        ensures { result ≡ new_clock }
    {
        Clock {
            flag: false,
            is_enabled: false,
            period: 0,
            time_left: None,
        }
    }

    /// There is a clock, which ticks after each so many instructions.
    pub(super) fn put(&mut self, period: u64)
        ensures { self.new ≡ record self.old { period = period; time_left = Some period } }
    {
        self.period = period;
        self.time_left = Some(period);
    }

    /// The flag becomes 0, and may not interrupt. The clock goes on.
    pub(super) fn clear(&mut self)
        ensures { self.new ≡ clock_cleared self.old }
    {
        self.flag = false;
        self.is_enabled = false;
    }

    /// The same, and the clock begins to count anew, if it is there.
    pub(super) fn restart(&mut self)
        ensures { self.new ≡ clock_restarted self.old }
    {
        self.clear();
        if self.time_left.is_some() {
            self.time_left = Some(self.period);
        }
    }

    /// It ticks, where no instruction is left until then.
    pub(super) fn end(&mut self)
        ensures { self.new ≡ clock_ended self.old }
    {
        if self.is_over() {
            self.flag = true;
            self.time_left = Some(self.period);
        }
    }

    /// So many instructions pass.
    pub(super) fn pass(&mut self, count: u64)
        ensures { self.new ≡ record self.old { time_left = time_after self.old.time_left count } }
    {
        if let Some(time) = self.time_left {
            self.time_left = Some(time.saturating_sub(count));
        }
    }

    /// Whether the flag is 1 after the beginning of the next step.
    pub(super) fn will_flag(&self) -> bool
        ensures { result ≡ (clock_ended self.now).flag }
    {
        self.flag || self.is_over()
    }

    /// Whether it ticks now.
    fn is_over(&self) -> bool
        ensures { result ≡ is_over self.now.time_left }
    {
        match self.time_left {
            Some(time) => time == 0,
            None => false,
        }
    }

    /// An instruction 613x of this last digit: CLEI 1, CLDI 2, CLSC 3, and those of the PDP-8/A, 5 and 6.
    pub(super) fn do_instruction(&mut self, pulses: u8, ac: Word)
        ensures { self.new ≡ clock_row self.old pulses ac }
    {
        match pulses {
            1 => self.is_enabled = true,
            2 => self.is_enabled = false,
            3 | 6 => self.flag = false,
            5 => self.is_enabled = ac.get() % 2 == 1,
            _ => {}
        }
    }
}
