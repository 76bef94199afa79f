// The fields of the registers, each decoded from the byte that its register reads. A function a field, as the definitions name them: one over
// shift and width would be called with numbers where these have names.
ghost use Rattle.std.specs.Prelude.{◌≡◌};
ghost use Rattle.rules.specs.Registers.{standby, watchdog_code, spin_code, monitor_only, tachometer_enabled, range_code, rate_code, asymmetric, delay_code, failed_fan_option, queue_code};

// 00h.
pub fn standby(control: u8) -> bool
    ensures { result ≡ standby control }
{
    (control >> 7) & 1 == 1
}

pub fn watchdog_code(control: u8) -> u8
    ensures { result ≡ watchdog_code control }
{
    (control >> 1) & 0b11
}

// 02h to 07h.
pub fn spin_code(config: u8) -> u8
    ensures { result ≡ spin_code config }
{
    (config >> 5) & 0b11
}

pub fn monitor_only(config: u8) -> bool
    ensures { result ≡ monitor_only config }
{
    (config >> 4) & 1 == 1
}

pub fn tachometer_enabled(config: u8) -> bool
    ensures { result ≡ tachometer_enabled config }
{
    (config >> 3) & 1 == 1
}

// 08h to 0Dh.
pub fn range_code(dynamics: u8) -> u8
    ensures { result ≡ range_code dynamics }
{
    (dynamics >> 5) & 0b111
}

pub fn rate_code(dynamics: u8) -> u8
    ensures { result ≡ rate_code dynamics }
{
    (dynamics >> 2) & 0b111
}

pub fn asymmetric(dynamics: u8) -> bool
    ensures { result ≡ asymmetric dynamics }
{
    (dynamics >> 1) & 1 == 1
}

// 14h.
pub fn delay_code(options: u8) -> u8
    ensures { result ≡ delay_code options }
{
    (options >> 5) & 0b111
}

pub fn failed_fan_option(options: u8) -> u8
    ensures { result ≡ failed_fan_option options }
{
    (options >> 2) & 0b11
}

pub fn queue_code(options: u8) -> u8
    ensures { result ≡ queue_code options }
{
    options & 0b11
}
