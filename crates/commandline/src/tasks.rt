//! What the program is told to do, and over which turns.

/// What the program is told to do.
#[derive(Drop)]
pub enum Task {
    /// Replay the script file at this path over these turns, of which a stopped lane has no more after
    /// its stop. The acts are wanted where `acts` holds, and otherwise the trace.
    Replay {
        file: String,
        turns: Turns,
        stop: Option<Stop>,
        acts: bool,
    },
    /// Print the schedule of these turns, up to the stop, for the lanes of the script file at this path.
    Schedule {
        file: String,
        turns: Turns,
        stop: Option<Stop>,
    },
    /// Leave entries out of that schedule, and perhaps commands out of the scripts, for as long as a word stands in the
    /// replay, and print what is left.
    Shorten {
        file: String,
        turns: Turns,
        stop: Option<Stop>,
        search: Search,
    },
    /// Go through every schedule of the script file at this path, by so many states at most, and print what its lanes can
    /// reply; where `count` holds, only how many states, schedules and outcomes there are.
    Outcomes {
        file: String,
        most: u64,
        count: bool,
    },
    /// Check the acts in the file at this path.
    Check {
        file: String,
    },
    /// Run the script file at this path.
    Run {
        file: String,
    },
    /// Say what this number names as a key.
    Key {
        number: u64,
    },
    /// Say what this lifecycle word says of its place.
    Word {
        word: u64,
    },
}

impl Task {
    ghost use Rattle.std.specs.Prelude.{◌≡◌};
    ghost use Rattle.commandline.specs.Readings.{text_of};
    ghost use Rattle.commandline.specs.Tasks.{path_of, schedule_path_of, over};

    /// The path of the file that the task is about, where there is one; `-` stands for standard input.
    pub fn path(&self) -> Option<&str>
        ensures { text_of result ≡ path_of self.now }
    {
        match self {
            Task::Replay { file, .. }
            | Task::Schedule { file, .. }
            | Task::Shorten { file, .. }
            | Task::Outcomes { file, .. }
            | Task::Check { file }
            | Task::Run { file } => Some(file.as_str()),
            Task::Key { .. } | Task::Word { .. } => None,
        }
    }

    /// The path of the file that the task's turns are in, where they are in one; `-` stands for standard input.
    pub fn schedule_path(&self) -> Option<&str>
        ensures { text_of result ≡ schedule_path_of self.now }
    {
        match self {
            Task::Replay { turns, .. }
            | Task::Schedule { turns, .. }
            | Task::Shorten { turns, .. } => turns.path(),
            Task::Outcomes { .. }
            | Task::Check { .. }
            | Task::Run { .. }
            | Task::Key { .. }
            | Task::Word { .. } => None,
        }
    }

    /// The task over these turns in place of its own, where it has some.
    pub fn over(self, turns: Turns) -> Task
        ensures { result ≡ over turns self }
    {
        match self {
            Task::Replay {
                file,
                turns: _,
                stop,
                acts,
            } => Task::Replay {
                file,
                turns,
                stop,
                acts,
            },
            Task::Schedule {
                file,
                turns: _,
                stop,
            } => Task::Schedule { file, turns, stop },
            Task::Shorten {
                file,
                turns: _,
                stop,
                search,
            } => Task::Shorten {
                file,
                turns,
                stop,
                search,
            },
            other => other,
        }
    }
}

/// What a shortened schedule is to show still, and how it is looked for.
#[derive(Drop)]
pub struct Search {
    /// The word that is to stand in the replay.
    pub word: String,
    /// Whether the word is one of the decoded lines of a trace.
    pub decoded: bool,
    /// How many replays are made at most, where that is given.
    pub tries: Option<u64>,
    /// Whether commands are left out of the scripts, too.
    pub scripts: bool,
}

/// The turns of a replay.
#[derive(Drop)]
pub enum Turns {
    /// Those of this schedule, whose entries are numbers of lanes.
    Listed(Vec<u32>),
    /// So many, drawn from this seed.
    Drawn { seed: u64, turns: u32 },
    /// Those of the schedule in the file at this path; `-` stands for standard input.
    InFile(String),
}

impl Turns {
    ghost use Rattle.std.specs.Prelude.{◌≡◌};
    ghost use Rattle.commandline.specs.Readings.{text_of};
    ghost use Rattle.commandline.specs.Tasks.{turns_path};

    /// The path of the file that the turns are in, where they are in one.
    pub fn path(&self) -> Option<&str>
        ensures { text_of result ≡ turns_path self.now }
    {
        match self {
            Turns::InFile(path) => Some(path.as_str()),
            Turns::Listed(_) | Turns::Drawn { .. } => None,
        }
    }
}

/// Where a lane stops: after so many of its entries in the schedule.
#[derive(Clone, Copy)]
pub struct Stop {
    /// The number of the lane.
    pub lane: u32,
    /// How many of its entries count.
    pub after: u32,
}
