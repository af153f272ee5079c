//! Why no pool is opened.
ghost use Rattle.std.specs.Prelude.{◌≡◌};
ghost use Rattle.shardpool.specs.declared.fault.OpenFault.TheVariants as faults;
ghost use Rattle.shardpool.specs.declared.fault.GuestsFault.TheVariants as guest_faults;

use keybits::ShapeFault;
use std::error::Error;
use std::fmt;

/// Why no pool is opened. Nothing is left of it then.
#[derive(Clone, Copy, Debug, PartialEq, Eq)]
pub enum OpenFault {
    /// The shape is outside its limits.
    Shape(ShapeFault),
    /// Memory was refused.
    Memory,
}

impl OpenFault {
    ghost use Rattle.shardpool.specs.Opened.{open_fault_number};

    /// The fault's number: that of the shape's fault, which is 1, 2, 3, 4 or 6, and 5 for want of memory.
    pub fn number(&self) -> u32
        ensures { result ≡ open_fault_number self.now }
    {
        match self {
            OpenFault::Shape(fault) => fault.number(),
            OpenFault::Memory => 5,
        }
    }
}

impl fmt::Display for OpenFault {
    fn fmt<W: fmt::Write>(&self, f: &mut fmt::Formatter<W>) -> fmt::Result {
        match self {
            OpenFault::Shape(fault) => write!(f, "{fault}"),
            OpenFault::Memory => f.write_str("no memory was left"),
        }
    }
}

impl Error for OpenFault {}

impl From<ShapeFault> for OpenFault {
    ghost from_gives = { λ fault gives. gives ≡ faults.Shape fault };

    fn from(fault: ShapeFault) -> OpenFault {
        OpenFault::Shape(fault)
    }
}

/// Why no pool with guests is opened. Nothing is left of it then.
#[derive(Clone, Copy, Debug, PartialEq, Eq)]
pub enum GuestsFault {
    /// The shape has more than 2^28 guests.
    Guests,
    /// The shape is outside its limits.
    Shape(ShapeFault),
    /// Memory was refused.
    Memory,
}

impl fmt::Display for GuestsFault {
    fn fmt<W: fmt::Write>(&self, f: &mut fmt::Formatter<W>) -> fmt::Result {
        match self {
            GuestsFault::Guests => f.write_str("there are more than 268435456 guests"),
            GuestsFault::Shape(fault) => write!(f, "{fault}"),
            GuestsFault::Memory => f.write_str("no memory was left"),
        }
    }
}

impl Error for GuestsFault {}

impl From<ShapeFault> for GuestsFault {
    ghost from_gives = { λ fault gives. gives ≡ guest_faults.Shape fault };

    fn from(fault: ShapeFault) -> GuestsFault {
        GuestsFault::Shape(fault)
    }
}
