//! How far a lane has come in its script.
ghost use Rattle.std.specs.Prelude.{None, false, ◌≡◌, ◌<◌, ◌+◌, ℕ, List, length, IfOk, replicate, slice_set, slice_index};
ghost use Rattle.traces.specs.declared.script.Command.{Command};
ghost use Rattle.traces.specs.Registers.{operand_key};
ghost use Rattle.traces.specs.Books.{Book, call_of};
ghost use Rattle.traces.specs.Books.{publishing, getting, clearing, holding_at};
ghost use Rattle.traces.specs.declared.registers.Holding.TheVariants.{Empty};
ghost use Rattle.coresteps.specs.Lanes.{AreSlots, IsCall, first_progress, slot_at};

use crate::own::OwnList;
use keybits::{MOST_LANES, Step};
use traces::{Command, Operand, Register};

/// How many registers a lane has: as many as a `Register` can name.
pub(crate) const REGISTERS: usize = 16;

/// The most lanes, as a length.
pub(crate) const LANES: usize = MOST_LANES as usize;

/// What a register holds.
#[derive(Clone, Copy)]
pub(crate) enum Held {
    Empty,
    /// A filling that will have this key, and which command of the script created it.
    Filling { key: u64, created: usize },
    /// A reference to this key.
    Reference { key: u64 },
}

/// A register: what it holds, and the last key that it had.
#[derive(Clone, Copy)]
pub(crate) struct KeptRegister {
    pub(crate) held: Held,
    pub(crate) last_key: Option<u64>,
}

/// The call of a lane's next command.
#[derive(Clone, Copy)]
pub(crate) enum Call {
    /// Publishes the filling of a register, which this command created, and keeps a reference where `with_ref` holds.
    Publish {
        register: Register,
        key: u64,
        created: usize,
        with_ref: bool,
    },
    Get {
        key: u64,
    },
    Release {
        key: u64,
    },
    Clear {
        key: u64,
    },
    Create,
}

/// The chain that a lane took last: which act of the history collected it, and how many of its places were followed.
#[derive(Clone, Copy)]
pub(crate) struct Chain {
    pub(crate) collect: Option<usize>,
    pub(crate) followed: usize,
}

/// How many steps the calls of a lane made.
#[derive(Clone, Copy)]
pub(crate) struct Most {
    /// The greatest number of steps of one create so far.
    pub(crate) create: u32,
    /// The greatest number of steps of one other call so far.
    pub(crate) other: u32,
}

/// How far a lane has come.
#[derive(Clone, Copy)]
pub(crate) struct Progress {
    /// How many commands have their reply.
    pub(crate) done: usize,
    pub(crate) slots: [KeptRegister; REGISTERS],
    pub(crate) own: OwnList,
    pub(crate) chain: Chain,
    /// For each shard the word that it last pushed on its stack there.
    pub(crate) pushed: [u64; LANES],
    /// The last step of the call under way.
    pub(crate) last: Option<Step>,
    /// How many steps the call under way has made.
    pub(crate) made: u32,
    /// Whether the call under way has marked a key that had no mark.
    pub(crate) cleared: bool,
    pub(crate) most: Most,
}

impl Progress {
    /// Before the first turn: nothing is done.
    pub(crate) fn new() -> Progress
        ensures { result ≡ first_progress }
    {
        let empty = KeptRegister {
            held: Held::Empty,
            last_key: None,
        };
        Progress {
            done: 0,
            slots: [empty; REGISTERS],
            own: OwnList::new(),
            chain: Chain {
                collect: None,
                followed: 0,
            },
            pushed: [0; LANES],
            last: None,
            made: 0,
            cleared: false,
            most: Most {
                create: 0,
                other: 0,
            },
        }
    }

    /// A register.
    pub(crate) fn slot(&self, register: Register) -> KeptRegister
        ensures { result ≡ slot_at self.now.slots register.number }
    {
        self.slots[register.number as usize]
    }

    /// Sets what a register holds, and the last key that it had.
    pub(crate) fn set_slot(&mut self, register: Register, held: Held, last_key: Option<u64>)
        ensures { self.new ≡ record self.old
            { slots = slice_set self.old.slots register.number (record { held = held; last_key = last_key }) } }
    {
        self.slots[register.number as usize] = KeptRegister { held, last_key };
    }

    /// The key that an operand names, if it names one.
    pub(crate) fn operand_key(&self, operand: Operand) -> Option<u64>
        ensures { (script : List Command) (b : Book) → AreSlots script self.now.done self.now.slots b.registers
            → result ≡ operand_key b.registers operand }
    {
        match operand {
            Operand::Number(key) => Some(key),
            Operand::LastOf(register) => self.slot(register).last_key,
        }
    }

    /// The call that a command makes; none where it only works on the registers or does nothing.
    pub(crate) fn call_of(&self, command: &Command) -> Option<Call>
        ensures { (script : List Command) (b : Book) → AreSlots script self.now.done self.now.slots b.registers
            → IsCall script self.now.done b result (call_of b command.now) }
    {
        match command {
            Command::Create(register) => match self.slot(*register).held {
                Held::Empty => Some(Call::Create),
                _ => None,
            },
            Command::Publish(register) => self.publishing(*register, false),
            Command::Downgrade(register) => self.publishing(*register, true),
            Command::Get(register, operand) => match self.slot(*register).held {
                Held::Empty => self.getting(*operand),
                _ => None,
            },
            Command::Release(register) => match self.slot(*register).held {
                Held::Reference { key } => Some(Call::Release { key }),
                _ => None,
            },
            Command::Clear(operand) => self.clearing(*operand),
            Command::Write(..) | Command::Read(_) => None,
        }
    }

    /// The call of a publish or a downgrade: only of a filling.
    fn publishing(&self, register: Register, with_ref: bool) -> Option<Call>
        ensures { (script : List Command) (b : Book) → AreSlots script self.now.done self.now.slots b.registers
            → IsCall script self.now.done b result (publishing with_ref (holding_at b register.number)) }
    {
        match self.slot(register).held {
            Held::Filling { key, created } => Some(Call::Publish {
                register,
                key,
                created,
                with_ref,
            }),
            _ => None,
        }
    }

    /// The call of a get into an empty register.
    fn getting(&self, operand: Operand) -> Option<Call>
        ensures { (script : List Command) (b : Book) → AreSlots script self.now.done self.now.slots b.registers
            → IsCall script self.now.done b result (getting (operand_key b.registers operand) Empty) }
    {
        let key = self.operand_key(operand)?;
        Some(Call::Get { key })
    }

    /// The call of a clear.
    fn clearing(&self, operand: Operand) -> Option<Call>
        ensures { (script : List Command) (b : Book) → AreSlots script self.now.done self.now.slots b.registers
            → IsCall script self.now.done b result (clearing (operand_key b.registers operand)) }
    {
        let key = self.operand_key(operand)?;
        Some(Call::Clear { key })
    }

    /// Ends a command, which has its reply: nothing is under way.
    pub(crate) fn finish(&mut self)
        requires { self.old.done < 18446744073709551615 }
        ensures { self.new ≡ record self.old { done = self.old.done + 1; last = None; made = 0; cleared = false } }
    {
        self.done += 1;
        self.last = None;
        self.made = 0;
        self.cleared = false;
    }
}
