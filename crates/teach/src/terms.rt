/// What set-up fixes for every teach.
#[derive(Clone, Copy)]
pub struct Terms {
    /// C: how many values a capture takes, 1 to 64.
    pub capture: u8,
    /// S, in steps: a single teach fails where its highest value is above its lowest raised by S.
    pub spread: u16,
    /// D, in steps: a two value or dynamic teach fails where its higher value is below its lower raised by D.
    pub distance: u16,
}
