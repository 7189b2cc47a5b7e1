// The teach commands, as they are written to SystemCommand.
ghost use Rattle.teach.specs.Commands.{command_of};
ghost use Rattle.std.specs.Prelude.{◌≡◌};

/// A setpoint of a channel.
#[derive(Clone, Copy, PartialEq, Eq, Debug)]
pub enum Setpoint {
    Sp1,
    Sp2,
}

/// A teachpoint of a setpoint, which a two value teach captures.
#[derive(Clone, Copy, PartialEq, Eq, Debug)]
pub enum Teachpoint {
    Tp1,
    Tp2,
}

/// The kind of step that a command takes.
#[derive(Clone, Copy, PartialEq, Eq, Debug)]
pub enum Step {
    /// Evaluates a two value teach: code 0x40.
    Apply,
    /// Begins a single teach: codes 0x41 and 0x42.
    Single,
    /// Begins to capture a teachpoint of a two value teach: codes 0x43 to 0x46.
    Point,
    /// Begins a dynamic teach, or begins it again: codes 0x47 and 0x49.
    Start,
    /// Evaluates a dynamic teach: codes 0x48 and 0x4A.
    Stop,
    /// Ends a teach that waits, and stores nothing: code 0x4F.
    Cancel,
}

/// A row of the command table. Apply and Cancel concern whichever setpoint is being taught, so nothing looks at their
/// setpoint; only a Point looks at the teachpoint.
#[derive(Clone, Copy, PartialEq, Eq, Debug)]
pub struct Command {
    /// The octet that is written to SystemCommand.
    pub code: u8,
    pub setpoint: Setpoint,
    pub teachpoint: Teachpoint,
    pub step: Step,
}

// Constant rows, all with the same fields, by a rule of the project (docs/DECISIONS.md, "Fixed forms").
const COMMANDS: [Command; 12] = [
    Command {
        code: 0x40,
        setpoint: Setpoint::Sp1,
        teachpoint: Teachpoint::Tp1,
        step: Step::Apply,
    },
    Command {
        code: 0x41,
        setpoint: Setpoint::Sp1,
        teachpoint: Teachpoint::Tp1,
        step: Step::Single,
    },
    Command {
        code: 0x42,
        setpoint: Setpoint::Sp2,
        teachpoint: Teachpoint::Tp1,
        step: Step::Single,
    },
    Command {
        code: 0x43,
        setpoint: Setpoint::Sp1,
        teachpoint: Teachpoint::Tp1,
        step: Step::Point,
    },
    Command {
        code: 0x44,
        setpoint: Setpoint::Sp1,
        teachpoint: Teachpoint::Tp2,
        step: Step::Point,
    },
    Command {
        code: 0x45,
        setpoint: Setpoint::Sp2,
        teachpoint: Teachpoint::Tp1,
        step: Step::Point,
    },
    Command {
        code: 0x46,
        setpoint: Setpoint::Sp2,
        teachpoint: Teachpoint::Tp2,
        step: Step::Point,
    },
    Command {
        code: 0x47,
        setpoint: Setpoint::Sp1,
        teachpoint: Teachpoint::Tp1,
        step: Step::Start,
    },
    Command {
        code: 0x48,
        setpoint: Setpoint::Sp1,
        teachpoint: Teachpoint::Tp1,
        step: Step::Stop,
    },
    Command {
        code: 0x49,
        setpoint: Setpoint::Sp2,
        teachpoint: Teachpoint::Tp1,
        step: Step::Start,
    },
    Command {
        code: 0x4A,
        setpoint: Setpoint::Sp2,
        teachpoint: Teachpoint::Tp1,
        step: Step::Stop,
    },
    Command {
        code: 0x4F,
        setpoint: Setpoint::Sp1,
        teachpoint: Teachpoint::Tp1,
        step: Step::Cancel,
    },
];

/// The row of a code, as 0x43 is SP1, TP1, Point; `None` where the table has no such code.
pub fn command_of(code: u8) -> Option<Command>
    ensures { result ≡ command_of code }
{
    COMMANDS.iter().copied().find(|row| row.code == code)
}
