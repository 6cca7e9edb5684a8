// Why a service refuses, and the number that the client gets.
ghost use Rattle.std.specs.Prelude.{◌≡◌};
ghost use Rattle.service_rows.specs.Reasons.{refusal_number, refusal_answer};

use crate::registers::set_ax;
use client_world::Carry;
use guest_space::Machine;

/// Why a service of INT 31h refuses. Source: own.
#[derive(Clone, Copy, Debug, PartialEq, Eq)]
pub enum Refusal {
    /// No service has the number.
    Unsupported,
    /// Not enough free descriptors.
    DescriptorUnavailable,
    LinearMemoryUnavailable,
    PhysicalMemoryUnavailable,
    CallbackUnavailable,
    HandleUnavailable,
    InvalidValue,
    InvalidSelector,
    InvalidHandle,
    InvalidCallback,
    InvalidAddress,
}

impl Refusal {
    /// The number that AX holds after the refusal. Source: own.
    pub fn number(self) -> u16
        ensures { result ≡ refusal_number self }
    {
        match self {
            Refusal::Unsupported => 0x8001,
            Refusal::DescriptorUnavailable => 0x8011,
            Refusal::LinearMemoryUnavailable => 0x8012,
            Refusal::PhysicalMemoryUnavailable => 0x8013,
            Refusal::CallbackUnavailable => 0x8015,
            Refusal::HandleUnavailable => 0x8016,
            Refusal::InvalidValue => 0x8021,
            Refusal::InvalidSelector => 0x8022,
            Refusal::InvalidHandle => 0x8023,
            Refusal::InvalidCallback => 0x8024,
            Refusal::InvalidAddress => 0x8025,
        }
    }
}

/// Refuses a service of INT 31h: AX holds the number of the reason, the carry is set, and nothing else changes. Source: own.
pub fn refuse(m: &mut Machine, refusal: Refusal) -> Carry
    ensures refused { record { carry = result; world = m.new.world } ≡ refusal_answer refusal m.old.world }
    ensures bytes { m.new.bytes ≡ m.old.bytes }
{
    set_ax(m, refusal.number());
    Carry::Set
}
