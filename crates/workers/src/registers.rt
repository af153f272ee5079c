//! The registers of a script.
ghost use Rattle.std.specs.Prelude.{◌≡◌, replicate};
ghost use Rattle.workers.specs.Lines.{empty_register, register_at, operand_key, with_held, with_new};
ghost use Rattle.workers.specs.Held.{filling_in, reference_in, is_empty, where_some};
ghost use Rattle.workers.specs.declared.registers.Held.TheVariants.{Empty};

use shardpool::{Filling, Ref};
use slotcell::ByteBuf;
use std::mem;
use traces::{Operand, Register as Number};

/// What a register holds.
pub(crate) enum Held {
    Empty,
    Filling(Filling<ByteBuf>),
    Reference(Ref<ByteBuf>),
}

/// What is still held at the end is left.
impl Drop for Held {
    fn drop(self) {
        match self {
            Held::Empty => {}
            Held::Filling(filling) => filling.forget(),
            Held::Reference(reference) => reference.forget(),
        }
    }
}

impl Held {
    ghost use Rattle.std.specs.Prelude.{◌≡◌, is_some};
    ghost use Rattle.workers.specs.Held.{filling_in, reference_in, is_empty};

    /// Whether it is nothing.
    pub(crate) fn is_empty(&self) -> bool
        ensures { result ≡ is_empty self.now }
    {
        match self {
            Held::Empty => true,
            Held::Filling(_) | Held::Reference(_) => false,
        }
    }

    /// Whether it is a filling.
    fn is_filling(&self) -> bool
        ensures { result ≡ is_some (filling_in self.now) }
    {
        match self {
            Held::Filling(_) => true,
            Held::Empty | Held::Reference(_) => false,
        }
    }

    /// Whether it is a reference.
    fn is_reference(&self) -> bool
        ensures { result ≡ is_some (reference_in self.now) }
    {
        match self {
            Held::Reference(_) => true,
            Held::Empty | Held::Filling(_) => false,
        }
    }

    /// The filling, where it is one. A reference is left.
    fn into_filling(self) -> Option<Filling<ByteBuf>>
        ensures { result ≡ filling_in self }
    {
        match self {
            Held::Empty => None,
            Held::Filling(filling) => Some(filling),
            Held::Reference(reference) => {
                reference.forget();
                None
            }
        }
    }

    /// The reference, where it is one. A filling is left.
    fn into_reference(self) -> Option<Ref<ByteBuf>>
        ensures { result ≡ reference_in self }
    {
        match self {
            Held::Empty => None,
            Held::Filling(filling) => {
                filling.forget();
                None
            }
            Held::Reference(reference) => Some(reference),
        }
    }
}

/// A register: what it holds, and the last key that it held.
#[derive(Drop)]
pub(crate) struct Register {
    pub(crate) held: Held,
    pub(crate) last_key: Option<u64>,
}

/// How many registers a script has: as many as a `Number` can name.
pub(crate) const REGISTERS: usize = 16;

/// The registers of a script.
pub(crate) type Registers = [Register; REGISTERS];

/// A register that held nothing yet.
fn empty() -> Register
    ensures { result ≡ empty_register }
{
    Register {
        held: Held::Empty,
        last_key: None,
    }
}

/// Registers that held nothing yet.
pub(crate) fn all_empty() -> Registers
    ensures { result ≡ replicate REGISTERS empty_register }
{
    [
        empty(),
        empty(),
        empty(),
        empty(),
        empty(),
        empty(),
        empty(),
        empty(),
        empty(),
        empty(),
        empty(),
        empty(),
        empty(),
        empty(),
        empty(),
        empty(),
    ]
}

/// The key that an operand names, where it names one.
pub(crate) fn key_of(registers: &Registers, operand: Operand) -> Option<u64>
    ensures { result ≡ operand_key registers.now operand }
{
    match operand {
        Operand::Number(key) => Some(key),
        Operand::LastOf(number) => registers[number.number as usize].last_key,
    }
}

/// Whether the register of this number holds nothing.
pub(crate) fn is_free(registers: &Registers, number: Number) -> bool
    ensures { result ≡ is_empty (register_at registers.now number.number).held }
{
    registers[number.number as usize].held.is_empty()
}

/// Takes the filling of a register, which is then empty. None where it has none; it then holds what it held.
pub(crate) fn take_filling(registers: &mut Registers, number: Number) -> Option<Filling<ByteBuf>>
    ensures filling { result ≡ filling_in (register_at registers.old number.number).held }
    ensures registers { registers.new ≡ where_some result (with_held registers.old number.number Empty) registers.old }
{
    let register = &mut registers[number.number as usize];
    if !register.held.is_filling() {
        return None;
    }
    mem::replace(&mut register.held, Held::Empty).into_filling()
}

/// Takes the reference of a register, which is then empty. None where it has none; it then holds what it held.
pub(crate) fn take_reference(registers: &mut Registers, number: Number) -> Option<Ref<ByteBuf>>
    ensures reference { result ≡ reference_in (register_at registers.old number.number).held }
    ensures registers { registers.new ≡ where_some result (with_held registers.old number.number Empty) registers.old }
{
    let register = &mut registers[number.number as usize];
    if !register.held.is_reference() {
        return None;
    }
    mem::replace(&mut register.held, Held::Empty).into_reference()
}

/// Puts something else into a register, which keeps its last key.
pub(crate) fn hold(registers: &mut Registers, number: Number, held: Held)
    ensures { registers.new ≡ with_held registers.old number.number held }
{
    registers[number.number as usize].held = held;
}

/// Puts something of a new key into a register.
pub(crate) fn hold_new(registers: &mut Registers, number: Number, key: u64, held: Held)
    ensures { registers.new ≡ with_new registers.old number.number key held }
{
    registers[number.number as usize] = Register {
        held,
        last_key: Some(key),
    };
}
