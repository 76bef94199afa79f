// What a register keeps of a written byte, and 00h as it reads. A function a register, as the definitions name them.
ghost use Rattle.std.specs.Prelude.{◌≡◌};
ghost use Rattle.rules.specs.Read.{control_byte};
ghost use Rattle.rules.specs.Registers.{control_kept, dynamics_kept, mask_kept, options_kept, config_refused};

// 00h, without its status bit.
#[tactic(auto, using(crate::proofs::Bytes::control_kept_bits))]
pub fn control_kept(byte: u8) -> u8
    ensures { result ≡ control_kept byte }
{
    byte & 0b1010_1110
}

// 00h as it reads: what is kept of it, and the status bit.
pub fn control_byte(control: u8, status: bool) -> u8
    ensures { result ≡ control_byte control status }
{
    (control & 0b1111_1110) + u8::from(status)
}

// 08h to 0Dh.
pub fn dynamics_kept(byte: u8) -> u8
    ensures { result ≡ dynamics_kept byte }
{
    byte & 0b1111_1110
}

// 12h and 13h.
pub fn mask_kept(byte: u8) -> u8
    ensures { result ≡ mask_kept byte }
{
    byte & 0b0011_1111
}

// 14h.
#[tactic(auto, using(crate::proofs::Bytes::options_kept_bits))]
pub fn options_kept(byte: u8) -> u8
    ensures { result ≡ options_kept byte }
{
    byte & 0b1110_1111
}

// A fan configuration with RPM mode, locked rotor or the PWM pin as a tachometer, which this box does not take.
#[tactic(auto, using(crate::proofs::Bytes::config_refused_bits))]
pub fn config_refused(byte: u8) -> bool
    ensures { result ≡ config_refused byte }
{
    byte & 0b1000_0101 != 0
}
