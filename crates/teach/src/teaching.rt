ghost use Rattle.teach.specs.Flags.{changed, flag_bits};
ghost use Rattle.teach.specs.Promises.{CancelStoresNothing, CapturesWiden, EvaluatesWithin, TakesExactlyC};
ghost use Rattle.teach.specs.Teaching.{fed_store, fed_teach, commanded, idle as idle_teach, is_idle, known_command};
ghost use Rattle.teach.specs.Teaching.{settled, store_by, store_of, teach_by, teach_result};
ghost use Rattle.std.specs.Prelude.{◌≡◌};

use super::command::{Command, Setpoint, command_of};
use super::machine::{Change, Effect, Flags, State, Teachpoints, Verdict};
use super::terms::Terms;
use faults::{Denial, Fault, Place};
use kinds::Kind;

/// A sensor's teach: the machine with its flags, what was taught since the last select, and whether it failed.
#[derive(Clone, Copy)]
pub struct Teach<K> {
    pub flags: Flags,
    /// Whether SP1 was taught since the last select.
    // This, `taught_sp2` and `failed` are no states: they outlast a return to Idle, and the state table names Idle
    // alone.
    pub taught_sp1: bool,
    /// Whether SP2 was taught since the last select.
    pub taught_sp2: bool,
    /// Whether the last evaluation failed and no teach has begun since.
    pub failed: bool,
    pub state: State<K>,
}

/// A setpoint to store in the selected channel.
#[derive(Clone, Copy)]
pub struct Store<K> {
    pub setpoint: Setpoint,
    pub value: K,
}

impl Flags {
    // The flags after a step.
    fn after(self, change: Change) -> Flags
        ensures { result ≡ changed change self }
    {
        match change {
            Change::Keep => self,
            Change::Clear(setpoint) => self.with(setpoint, Teachpoints::default()),
            Change::Set(setpoint, teachpoint) => {
                self.with(setpoint, self.of(setpoint).with(teachpoint, true))
            }
        }
    }

    // The flags in bits 4 to 7: SP1 TP1, SP1 TP2, SP2 TP1, SP2 TP2.
    fn bits(self) -> u8
        ensures { result ≡ flag_bits self }
    {
        u8::from(self.sp1.tp1) << 4
            | u8::from(self.sp1.tp2) << 5
            | u8::from(self.sp2.tp1) << 6
            | u8::from(self.sp2.tp2) << 7
    }
}

// The row of a command's code, or the denial of an unknown one.
fn known_command(code: u8, place: Place) -> Result<Command, Fault>
    ensures { result ≡ known_command place code }
{
    command_of(code).ok_or(Fault::at(Denial::UnknownCommand, place))
}

impl<K: Kind> Teach<K> {
    /// The teach after set-up, a select or a warm restart: idle, without flags, nothing taught, no failure.
    pub fn idle() -> Teach<K>
        ensures { result ≡ idle_teach }
    {
        Teach {
            state: State::Idle,
            flags: Flags::default(),
            taught_sp1: false,
            taught_sp2: false,
            failed: false,
        }
    }

    /// Whether the machine is in Idle.
    pub fn is_idle(&self) -> bool
        ensures { result ≡ is_idle self.now.state }
    {
        matches!(self.state, State::Idle)
    }

    // Takes the effect of a step, and answers what is to be stored.
    fn settle(&mut self, effect: Effect<K>) -> Option<Store<K>>
        ensures teach { self.new ≡ settled self.old effect }
        ensures store { result ≡ store_of effect.verdict }
    {
        self.flags = self.flags.after(effect.change);
        match effect.verdict {
            Verdict::Open => {
                if matches!(effect.change, Change::Clear(_)) {
                    self.failed = false;
                }
                None
            }
            Verdict::Fails => {
                self.failed = true;
                None
            }
            Verdict::Stores(setpoint, value) => {
                match setpoint {
                    Setpoint::Sp1 => self.taught_sp1 = true,
                    Setpoint::Sp2 => self.taught_sp2 = true,
                }
                self.failed = false;
                Some(Store { setpoint, value })
            }
        }
    }

    /// Takes a command by its code, and answers what is to be stored: `None` unless an evaluation succeeds. Denials: 20
    /// where the command table has no such code; then 21 where the state's row does not have the command, or Apply
    /// comes without both flags. A denied command changes nothing.
    pub fn command(
        &mut self,
        terms: Terms,
        code: u8,
        place: Place,
    ) -> Result<Option<Store<K>>, Fault>
        ensures reply { result ≡ store_by (commanded K.meaning terms place self.old code) }
        ensures teach { self.new ≡ teach_by self.old (commanded K.meaning terms place self.old code) }
        ensures evaluates_within { EvaluatesWithin {V = K} K.meaning terms }
        ensures cancel_stores_nothing { CancelStoresNothing {V = K} K.meaning terms }
    {
        let command = known_command(code, place)?;
        let effect = self.state.take(self.flags, terms, command, place)?;
        Ok(self.settle(effect))
    }

    /// Feeds a value that is in the range, and answers what is to be stored: `None` unless it completes a teach with
    /// success.
    pub fn feed(&mut self, terms: Terms, v: K) -> Option<Store<K>>
        ensures store { result ≡ fed_store K.meaning terms self.old v }
        ensures teach { self.new ≡ fed_teach K.meaning terms self.old v }
        ensures takes_exactly_c { TakesExactlyC {V = K} K.meaning terms }
        ensures captures_widen { CapturesWiden {V = K} K.meaning terms }
        ensures evaluates_within { EvaluatesWithin {V = K} K.meaning terms }
    {
        let effect = self.state.feed(terms, v);
        self.settle(effect)
    }

    /// TeachResult: TeachState in bits 0 to 3, the flags in bits 4 to 7. 0x14 is Wait Two with SP1 TP1 captured, 0x37 a
    /// failure with both teachpoints of SP1 captured.
    pub fn result(&self) -> u8
        ensures { result ≡ teach_result self.now }
    {
        let state = match self.state {
            State::BusySingle(_, _) | State::BusyTwo(_, _, _, _) | State::DynStart(_) => 5,
            State::WaitTwo(_, _) | State::WaitDyn(_, _) => 4,
            State::Idle if self.failed => 7,
            State::Idle => u8::from(self.taught_sp1) + 2 * u8::from(self.taught_sp2),
        };
        state + self.flags.bits()
    }
}
