//! Why a script file is no plan.
use keybits::ShapeFault;
use std::error::Error;
use std::fmt;

/// Why a script file is no plan: the first fault that is found.
#[derive(Clone, Copy, Debug)]
pub enum ScriptFault {
    /// The bytes are no JSON (31).
    NotJson,
    /// A field, an array or a line is wrong (32).
    Field,
    /// A line's first text is no command (33).
    Act,
    /// An operand is no register (34).
    Register,
    /// A number of the shape, a key or the bytes of an operand are wrong (35).
    Number,
    /// The shape is refused (1, 2, 3, 4, 6).
    Shape(ShapeFault),
    /// Memory was refused (36).
    Memory,
}

impl ScriptFault {
    ghost use Rattle.std.specs.Prelude.{◌≡◌};
    ghost use Rattle.scripts.specs.ScriptFaults.{script_fault_number, script_fault_name};

    /// The fault's number: 31 to 36, or that of the shape's fault.
    pub fn number(&self) -> u32
        ensures { result ≡ script_fault_number self.now }
    {
        match self {
            ScriptFault::NotJson => 31,
            ScriptFault::Field => 32,
            ScriptFault::Act => 33,
            ScriptFault::Register => 34,
            ScriptFault::Number => 35,
            ScriptFault::Shape(fault) => fault.number(),
            ScriptFault::Memory => 36,
        }
    }

    /// The fault's name; a shape's fault keeps its own.
    pub fn name(&self) -> &'static str
        ensures { result.now ≡ script_fault_name self.now }
    {
        match self {
            ScriptFault::NotJson => "NotJson",
            ScriptFault::Field => "Field",
            ScriptFault::Act => "Act",
            ScriptFault::Register => "Register",
            ScriptFault::Number => "Number",
            ScriptFault::Shape(fault) => fault.name(),
            ScriptFault::Memory => "Memory",
        }
    }
}

impl fmt::Display for ScriptFault {
    fn fmt<W: fmt::Write>(&self, f: &mut fmt::Formatter<W>) -> fmt::Result {
        let text = match self {
            ScriptFault::NotJson => "the file is no JSON",
            ScriptFault::Field => "a field, an array or a line of the file is wrong",
            ScriptFault::Act => "a line of the file names no command",
            ScriptFault::Register => "an operand of the file is no register",
            ScriptFault::Number => "a number or bytes of the file are wrong",
            ScriptFault::Shape(fault) => return fault.fmt(f),
            ScriptFault::Memory => "out of memory",
        };
        f.write_str(text)
    }
}

impl Error for ScriptFault {}
