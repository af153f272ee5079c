//! Places in a script file.
use keybits::ShapeFault;

/// A field of a script file: `Shape` and `Scripts` of the file itself, the others of its shape.
#[derive(Clone, Copy, Debug)]
pub enum FieldName {
    Shape,
    Scripts,
    Lanes,
    FirstPage,
    Pages,
    LastGeneration,
    Tag,
}

impl FieldName {
    ghost use Rattle.std.specs.Prelude.{◌≡◌};
    ghost use Rattle.scripts.specs.ScriptPlaces.{field_text, faulty_field};

    /// The name as it stands in a file.
    pub fn text(self) -> &'static str
        ensures { result.now ≡ field_text self }
    {
        match self {
            FieldName::Shape => "shape",
            FieldName::Scripts => "scripts",
            FieldName::Lanes => "lanes",
            FieldName::FirstPage => "first_page",
            FieldName::Pages => "pages",
            FieldName::LastGeneration => "last_generation",
            FieldName::Tag => "tag",
        }
    }

    /// The field of a shape whose number has this fault.
    pub fn with_fault(fault: ShapeFault) -> FieldName
        ensures { result ≡ faulty_field fault }
    {
        match fault {
            ShapeFault::Lanes => FieldName::Lanes,
            ShapeFault::FirstPage => FieldName::FirstPage,
            ShapeFault::Pages => FieldName::Pages,
            ShapeFault::Generation => FieldName::LastGeneration,
            ShapeFault::Tag => FieldName::Tag,
        }
    }
}

/// A place in a script file. Lanes, the lines of a lane's script and the items of a line are counted
/// from 0: item 0 is the command's name, its operands are 1 and 2.
#[derive(Clone, Copy, Debug)]
pub enum ScriptPlace {
    /// The file as a whole.
    File,
    /// A field of the file or of its shape, which may be missing.
    Field(FieldName),
    /// The scripts, of which there are not as many as lanes.
    Scripts,
    /// The script of a lane.
    Script {
        lane: usize,
    },
    /// A line of a script.
    Line {
        lane: usize,
        line: usize,
    },
    /// An item of a line.
    Item {
        lane: usize,
        line: usize,
        item: usize,
    },
}
