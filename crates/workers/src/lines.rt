//! The lines of a script: each is a call of the pool, or works on a register alone.
ghost use Rattle.std.specs.Prelude.{◌≡◌, ◌⊎◌, ◌≤◌, ℕ, IfOk, sum_by};
ghost use Rattle.traces.specs.declared.script.Command.TheVariants.{Create, Write, Publish, Downgrade, Get, Read, Release, Clear};
ghost use Rattle.traces.specs.declared.reply.Reply.TheVariants as replies;
ghost use Rattle.shardpool.specs.Tokens.{PoolOf, LaneOf};
ghost use Rattle.shardpool.specs.Lanes.{holds};
ghost use Rattle.workers.specs.Lines.{IsLine};
ghost use Rattle.workers.specs.Tidy.{Tidy, Runs, desk, key_weight};

use crate::registers::{
    Held, Registers, hold, hold_new, is_free, key_of, take_filling, take_reference,
};
use seqpool::{Bytes, get_law, once_law};
use shardpool::{CreateFault, Lane, Pool};
use slotcell::ByteBuf;
use std::alloc::{AllocError, Global};
use traces::{Command, Operand, Register, Reply};

/// Runs a line.
pub(crate) fn run_line(
    alloc: Global,
    pool: &Pool<ByteBuf>,
    lane: &mut Lane<ByteBuf>,
    registers: &mut Registers,
    command: &Command,
) -> Reply
    requires tidy { Tidy pool.now (desk lane.old registers.old) }
    ensures { Runs pool.now (desk lane.old registers.old) command.now result (desk lane.new registers.new) }
{
    match command {
        Command::Create(register) => create(pool, lane, registers, *register),
        Command::Write(register, bytes) => write(registers, *register, bytes),
        Command::Publish(register) => publish(pool, lane, registers, *register),
        Command::Downgrade(register) => downgrade(pool, lane, registers, *register),
        Command::Get(register, operand) => get(alloc, pool, lane, registers, *register, *operand),
        Command::Read(register) => read(alloc, lane, registers, *register),
        Command::Release(register) => release(pool, lane, registers, *register),
        Command::Clear(operand) => clear(pool, lane, registers, *operand),
    }
}

/// Creates into a register.
fn create(
    pool: &Pool<ByteBuf>,
    lane: &mut Lane<ByteBuf>,
    registers: &mut Registers,
    register: Register,
) -> Reply
    requires tidy { Tidy pool.now (desk lane.old registers.old) }
    ensures { Runs pool.now (desk lane.old registers.old) (Create register) result (desk lane.new registers.new) }
{
    if !is_free(registers, register) {
        return Reply::Skip;
    }
    match pool.create(lane) {
        Ok(filling) => {
            let key = filling.key();
            hold_new(registers, register, key, Held::Filling(filling));
            Reply::Filling(key)
        }
        Err(CreateFault::Full) => Reply::Full,
        Err(CreateFault::Memory) => Reply::Memory,
    }
}

/// Appends bytes to the filling of a register.
fn write(registers: &mut Registers, register: Register, bytes: &Bytes) -> Reply
    ensures { (pool : PoolOf) (lane : LaneOf) → Tidy pool (desk lane registers.old)
        → Runs pool (desk lane registers.old) (Write register bytes.now) result (desk lane registers.new) }
{
    let Some(mut filling) = take_filling(registers, register) else {
        return Reply::Skip;
    };
    let appended = filling.value_mut().append(bytes.as_slice()).is_ok();
    hold(registers, register, Held::Filling(filling));
    if appended { Reply::Done } else { Reply::Memory }
}

/// Publishes the filling of a register.
fn publish(
    pool: &Pool<ByteBuf>,
    lane: &mut Lane<ByteBuf>,
    registers: &mut Registers,
    register: Register,
) -> Reply
    requires tidy { Tidy pool.now (desk lane.old registers.old) }
    ensures { Runs pool.now (desk lane.old registers.old) (Publish register) result (desk lane.new registers.new) }
{
    let Some(filling) = take_filling(registers, register) else {
        return Reply::Skip;
    };
    Reply::Key(pool.publish(lane, filling))
}

/// Publishes the filling of a register, which then has a reference to its key.
fn downgrade(
    pool: &Pool<ByteBuf>,
    lane: &mut Lane<ByteBuf>,
    registers: &mut Registers,
    register: Register,
) -> Reply
    requires tidy { Tidy pool.now (desk lane.old registers.old) }
    ensures { Runs pool.now (desk lane.old registers.old) (Downgrade register) result (desk lane.new registers.new) }
{
    let Some(filling) = take_filling(registers, register) else {
        return Reply::Skip;
    };
    let reference = pool.downgrade(lane, filling);
    let key = reference.key();
    hold(registers, register, Held::Reference(reference));
    Reply::Key(key)
}

/// Gets a key into a register.
fn get(
    alloc: Global,
    pool: &Pool<ByteBuf>,
    lane: &mut Lane<ByteBuf>,
    registers: &mut Registers,
    register: Register,
    operand: Operand,
) -> Reply
    requires tidy { Tidy pool.now (desk lane.old registers.old) }
    ensures { Runs pool.now (desk lane.old registers.old) (Get register operand) result (desk lane.new registers.new) }
{
    get_law();
    once_law();
    if !is_free(registers, register) {
        return Reply::Skip;
    }
    let Some(key) = key_of(registers, operand) else {
        return Reply::Skip;
    };
    let Some(reference) = pool.get(lane, key) else {
        return Reply::Missing;
    };
    let reply = found(alloc, lane.read(&reference).as_slice());
    hold_new(registers, register, key, Held::Reference(reference));
    reply
}

/// Reads the content of the reference of a register.
fn read(alloc: Global, lane: &Lane<ByteBuf>, registers: &Registers, register: Register) -> Reply
    requires held { (key : ℕ) → sum_by (λ r. key_weight key r.held) registers.now ≤ holds lane.now key }
    ensures { IsLine (desk lane.now registers.now) (Read register) result (desk lane.now registers.now) }
{
    match &registers[register.number as usize].held {
        Held::Reference(reference) => content(alloc, lane.read(reference).as_slice()),
        Held::Empty | Held::Filling(_) => Reply::Skip,
    }
}

/// Gives the reference of a register back.
fn release(
    pool: &Pool<ByteBuf>,
    lane: &mut Lane<ByteBuf>,
    registers: &mut Registers,
    register: Register,
) -> Reply
    requires tidy { Tidy pool.now (desk lane.old registers.old) }
    ensures { Runs pool.now (desk lane.old registers.old) (Release register) result (desk lane.new registers.new) }
{
    let Some(reference) = take_reference(registers, register) else {
        return Reply::Skip;
    };
    pool.release(lane, reference);
    Reply::Done
}

/// Clears a key.
fn clear(
    pool: &Pool<ByteBuf>,
    lane: &mut Lane<ByteBuf>,
    registers: &Registers,
    operand: Operand,
) -> Reply
    requires tidy { Tidy pool.now (desk lane.old registers.now) }
    ensures { Runs pool.now (desk lane.old registers.now) (Clear operand) result (desk lane.new registers.now) }
{
    let Some(key) = key_of(registers, operand) else {
        return Reply::Skip;
    };
    Reply::Cleared(pool.clear(lane, key))
}

/// The reply of a get that found these bytes.
fn found(alloc: Global, bytes: &[u8]) -> Reply
    ensures { (result ≡ replies.Found bytes.now) ⊎ (result ≡ replies.Memory) }
{
    match copied(alloc, bytes) {
        Ok(copy) => Reply::Found(copy),
        Err(AllocError) => Reply::Memory,
    }
}

/// The reply of a read of these bytes.
fn content(alloc: Global, bytes: &[u8]) -> Reply
    ensures { (result ≡ replies.Content bytes.now) ⊎ (result ≡ replies.Memory) }
{
    match copied(alloc, bytes) {
        Ok(copy) => Reply::Content(copy),
        Err(AllocError) => Reply::Memory,
    }
}

/// The bytes once more.
fn copied(alloc: Global, bytes: &[u8]) -> Result<Bytes, AllocError>
    ensures { IfOk result (λ copy. copy ≡ bytes.now) }
{
    let Ok(copy) = Vec::from_slice(alloc, bytes) else {
        return Err(AllocError);
    };
    Ok(Bytes::from_vec(copy))
}
