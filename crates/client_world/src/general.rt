//! The numbers of the general registers.
//! Source: 80386 Programmer's Reference Manual, ch. 17, "reg".

pub const EAX: u8 = 0;

pub const ECX: u8 = 1;

pub const EDX: u8 = 2;

pub const EBX: u8 = 3;

pub const ESP: u8 = 4;

pub const EBP: u8 = 5;

pub const ESI: u8 = 6;

pub const EDI: u8 = 7;
