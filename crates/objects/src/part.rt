// The parts of a channel's objects.
ghost use Rattle.objects.specs.Parts.{configuration_part, part_length, place_at, setpoints_part};
ghost use Rattle.std.specs.Prelude.{◌≡◌, ◌≤◌};

use faults::Place;

/// What of a channel is read or written at once: both setpoints or one, the whole configuration or a part of it.
#[derive(Clone, Copy, PartialEq, Eq, Debug)]
pub enum Part {
    /// SP1 then SP2: subindex 0 of the setpoints.
    Setpoints,
    /// Subindex 1 of the setpoints, the kind's width in octets.
    Sp1,
    /// Subindex 2 of the setpoints, the kind's width in octets.
    Sp2,
    /// Logic, mode and hysteresis: subindex 0 of the configuration, 4 octets.
    Configuration,
    /// Subindex 1 of the configuration, 1 octet.
    Logic,
    /// Subindex 2 of the configuration, 1 octet.
    Mode,
    /// Subindex 3 of the configuration, 2 octets, the high one first.
    Hysteresis,
}

impl Part {
    // The part of a channel's setpoints at a subindex.
    pub(crate) fn of_setpoints(subindex: u8) -> Option<Part>
        ensures { result ≡ setpoints_part subindex }
    {
        match subindex {
            0 => Some(Part::Setpoints),
            1 => Some(Part::Sp1),
            2 => Some(Part::Sp2),
            _ => None,
        }
    }

    // The part of a channel's configuration at a subindex.
    pub(crate) fn of_configuration(subindex: u8) -> Option<Part>
        ensures { result ≡ configuration_part subindex }
    {
        match subindex {
            0 => Some(Part::Configuration),
            1 => Some(Part::Logic),
            2 => Some(Part::Mode),
            3 => Some(Part::Hysteresis),
            _ => None,
        }
    }

    // How many octets a write of the part has.
    pub(crate) fn length(self, width: usize) -> usize
        requires { width ≤ 4 }
        ensures { result ≡ part_length width self }
    {
        match self {
            Part::Setpoints => 2 * width,
            Part::Sp1 | Part::Sp2 => width,
            Part::Configuration => 4,
            Part::Logic | Part::Mode => 1,
            Part::Hysteresis => 2,
        }
    }

    // Its place, by the index of its object.
    pub(crate) fn place(self, index: u16) -> Place
        ensures { result ≡ place_at index self }
    {
        let subindex = match self {
            Part::Setpoints | Part::Configuration => 0,
            Part::Sp1 | Part::Logic => 1,
            Part::Sp2 | Part::Mode => 2,
            Part::Hysteresis => 3,
        };
        Place { index, subindex }
    }
}
