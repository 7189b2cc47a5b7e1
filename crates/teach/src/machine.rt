// The teach machine: its states, and how commands and values take it from one to the next.
ghost use Rattle.teach.specs.Captures.{with_value};
ghost use Rattle.teach.specs.declared.machine.Change.TheVariants.{Keep};
ghost use Rattle.teach.specs.declared.machine.Verdict.TheVariants.{Open};
ghost use Rattle.teach.specs.Evaluation.{evaluate_dynamic, evaluate_single, evaluate_two, too_close};
ghost use Rattle.teach.specs.Flags.{both_set, of_setpoint, with_setpoint};
ghost use Rattle.teach.specs.Machine.{effect_by, ended, fed, row, row_checked, state_by};
ghost use Rattle.teach.specs.Teachpoints.{with_teachpoint};
ghost use Rattle.std.specs.Prelude.{◌≡◌, IfNone};

use super::capture::{Captured, Span, with_value};
use super::command::{Command, Setpoint, Step, Teachpoint};
use super::terms::Terms;
use faults::{Denial, Fault, Place};
use kinds::Kind;

/// What a setpoint's teachpoints have: their values, `None` where one is not captured, or the flags of those that were
/// captured.
#[derive(Clone, Copy, Default)]
pub struct Teachpoints<T> {
    pub tp1: T,
    pub tp2: T,
}

/// A state of the machine. In each but Idle one setpoint is being taught.
#[derive(Clone, Copy)]
pub enum State<K> {
    /// No teach runs.
    Idle,
    /// Captures for a single teach: the setpoint, and what is captured so far.
    BusySingle(Setpoint, Option<Captured<K>>),
    /// Captures a teachpoint: the setpoint, the teachpoint, what is captured so far, and the teachpoints that stand.
    BusyTwo(Setpoint, Teachpoint, Option<Captured<K>>, Teachpoints<Option<K>>),
    /// Waits for a teachpoint, Apply or Cancel: the setpoint, and its teachpoints.
    WaitTwo(Setpoint, Teachpoints<Option<K>>),
    /// Waits for the first value of a dynamic teach of the setpoint.
    DynStart(Setpoint),
    /// Captures for a dynamic teach: the setpoint, and the span of the values since Start.
    WaitDyn(Setpoint, Span<K>),
}

/// The flags of both setpoints: which of their teachpoints have been captured.
#[derive(Clone, Copy, Default)]
pub struct Flags {
    pub sp1: Teachpoints<bool>,
    pub sp2: Teachpoints<bool>,
}

/// What a step does to the flags.
#[derive(Clone, Copy)]
pub enum Change {
    /// They stay.
    Keep,
    /// Both flags of the setpoint are cleared: a teach begins, or is cancelled.
    Clear(Setpoint),
    /// The flag of the teachpoint is set.
    Set(Setpoint, Teachpoint),
}

/// What a step makes of the teach.
// The evaluations answer it and no `Option<Store<K>>`: they are cases of a step, and a step has three outcomes.
#[derive(Clone, Copy)]
pub enum Verdict<K> {
    /// Nothing is evaluated: the teach goes on, or is cancelled.
    Open,
    /// An evaluation failed: nothing is stored.
    Fails,
    /// An evaluation succeeded: the setpoint is to have the value.
    Stores(Setpoint, K),
}

/// What a step does beside moving the machine.
#[derive(Clone, Copy)]
pub struct Effect<K> {
    pub change: Change,
    pub verdict: Verdict<K>,
}

impl<K> Effect<K> {
    // The teach goes on, and its flags stay.
    fn none() -> Effect<K>
        ensures { result ≡ record { change = Keep; verdict = Open } }
    {
        Effect {
            change: Change::Keep,
            verdict: Verdict::Open,
        }
    }

    // The flags change.
    fn of(change: Change) -> Effect<K>
        ensures { result ≡ record { change = change; verdict = Open } }
    {
        Effect {
            change,
            verdict: Verdict::Open,
        }
    }

    // An evaluation ends the teach, and the flags stay.
    fn judged(verdict: Verdict<K>) -> Effect<K>
        ensures { result ≡ record { change = Keep; verdict = verdict } }
    {
        Effect {
            change: Change::Keep,
            verdict,
        }
    }
}

impl<T: Copy> Teachpoints<T> {
    // The same, but for what one teachpoint has.
    pub(crate) fn with(self, teachpoint: Teachpoint, value: T) -> Teachpoints<T>
        ensures { result ≡ with_teachpoint self teachpoint value }
    {
        match teachpoint {
            Teachpoint::Tp1 => Teachpoints { tp1: value, ..self },
            Teachpoint::Tp2 => Teachpoints { tp2: value, ..self },
        }
    }
}

impl Flags {
    // The flags of a setpoint.
    pub(crate) fn of(self, setpoint: Setpoint) -> Teachpoints<bool>
        ensures { result ≡ of_setpoint self setpoint }
    {
        match setpoint {
            Setpoint::Sp1 => self.sp1,
            Setpoint::Sp2 => self.sp2,
        }
    }

    // The flags with those of a setpoint replaced.
    pub(crate) fn with(self, setpoint: Setpoint, flags: Teachpoints<bool>) -> Flags
        ensures { result ≡ with_setpoint setpoint flags self }
    {
        match setpoint {
            Setpoint::Sp1 => Flags { sp1: flags, ..self },
            Setpoint::Sp2 => Flags { sp2: flags, ..self },
        }
    }

    // Whether both teachpoints of a setpoint are flagged.
    fn both(self, setpoint: Setpoint) -> bool
        ensures { result ≡ both_set self setpoint }
    {
        let flags = self.of(setpoint);
        flags.tp1 && flags.tp2
    }
}

// Takes a value into a capture. Once it is complete, its span is answered. The count is narrowed by `as` and no
// `try_from`: that nothing is lost is proved.
fn take_value<K: Kind>(captured: &mut Option<Captured<K>>, terms: Terms, v: K) -> Option<Span<K>>
    ensures ends { result ≡ ended K.meaning terms (with_value K.meaning captured.old v) }
    ensures goes_on { IfNone result (captured.new ≡ Some (with_value K.meaning captured.old v)) }
{
    let (span, count) = with_value(*captured, v);
    if count >= u16::from(terms.capture) {
        return Some(span);
    }
    *captured = Some(Captured {
        span,
        count: count as u8,
    });
    None
}

// Whether the highest is below the lowest raised by D.
fn too_close<K: Kind>(terms: Terms, span: Span<K>) -> bool
    ensures { result ≡ too_close K.meaning terms span.lowest span.highest }
{
    span.highest.is_under(span.lowest.raise(terms.distance))
}

fn evaluate_single<K: Kind>(terms: Terms, setpoint: Setpoint, span: Span<K>) -> Verdict<K>
    ensures { result ≡ evaluate_single K.meaning terms setpoint span.lowest span.highest }
{
    if span.lowest.raise(terms.spread).is_under(span.highest) {
        Verdict::Fails
    } else {
        Verdict::Stores(setpoint, span.middle())
    }
}

// A kind's middle need not be the same both ways round, so this is not `evaluate_dynamic` of their span.
fn evaluate_two<K: Kind>(terms: Terms, setpoint: Setpoint, a: K, b: K) -> Verdict<K>
    ensures { result ≡ evaluate_two K.meaning terms setpoint a b }
{
    if too_close(terms, Span::of(b).widened(a)) {
        Verdict::Fails
    } else {
        Verdict::Stores(setpoint, a.middle(b))
    }
}

fn evaluate_dynamic<K: Kind>(terms: Terms, setpoint: Setpoint, span: Span<K>) -> Verdict<K>
    ensures { result ≡ evaluate_dynamic K.meaning terms setpoint span.lowest span.highest }
{
    if too_close(terms, span) {
        Verdict::Fails
    } else {
        Verdict::Stores(setpoint, span.middle())
    }
}

impl<K: Kind> State<K> {
    /// Takes a command, and answers what it does beside moving the machine. It is denied with 21 where the state's row
    /// does not have it, and for Apply without both flags. A denied command changes nothing.
    pub fn take(
        &mut self,
        flags: Flags,
        terms: Terms,
        command: Command,
        place: Place,
    ) -> Result<Effect<K>, Fault>
        ensures reply { result
            ≡ effect_by (row_checked place (row K.meaning flags terms self.old command.step command)) }
        ensures state { self.new
            ≡ state_by self.old (row_checked place (row K.meaning flags terms self.old command.step command)) }
    {
        let named = command.setpoint;
        match (&mut *self, command.step) {
            (State::Idle, Step::Single) => {
                *self = State::BusySingle(named, None);
                Ok(Effect::of(Change::Clear(named)))
            }
            (State::Idle, Step::Point) => {
                *self = State::BusyTwo(named, command.teachpoint, None, Teachpoints::default());
                Ok(Effect::of(Change::Clear(named)))
            }
            (State::Idle, Step::Start) => {
                *self = State::DynStart(named);
                Ok(Effect::of(Change::Clear(named)))
            }
            (State::WaitTwo(sp, points), Step::Point) if *sp == named => {
                *self = State::BusyTwo(*sp, command.teachpoint, None, *points);
                Ok(Effect::none())
            }
            (State::WaitTwo(sp, points), Step::Apply) if flags.both(*sp) => {
                let (Some(a), Some(b)) = (points.tp1, points.tp2) else {
                    return Err(Fault::at(Denial::NotInState, place));
                };
                let verdict = evaluate_two(terms, *sp, a, b);
                *self = State::Idle;
                Ok(Effect::judged(verdict))
            }
            (State::WaitDyn(sp, _), Step::Start) if *sp == named => {
                *self = State::DynStart(*sp);
                Ok(Effect::none())
            }
            (State::WaitDyn(sp, span), Step::Stop) if *sp == named => {
                let verdict = evaluate_dynamic(terms, *sp, *span);
                *self = State::Idle;
                Ok(Effect::judged(verdict))
            }
            (State::WaitTwo(sp, _) | State::WaitDyn(sp, _), Step::Cancel) => {
                let change = Change::Clear(*sp);
                *self = State::Idle;
                Ok(Effect::of(change))
            }
            // The pairs that are left are written out and no `_`, so that a new state or step has to be decided.
            (State::Idle, Step::Apply | Step::Stop | Step::Cancel)
            | (
                State::WaitTwo(_, _) | State::WaitDyn(_, _),
                Step::Apply | Step::Single | Step::Point | Step::Start | Step::Stop,
            )
            | (
                State::BusySingle(_, _) | State::BusyTwo(_, _, _, _) | State::DynStart(_),
                Step::Apply | Step::Single | Step::Point | Step::Start | Step::Stop | Step::Cancel,
            ) => { Err(Fault::at(Denial::NotInState, place)) }
        }
    }

    /// Feeds a value, and answers what it does beside moving the machine. The Busy states capture and count it, the
    /// dynamic ones capture it; Idle and Wait Two leave it.
    pub fn feed(&mut self, terms: Terms, v: K) -> Effect<K>
        ensures effect { result ≡ (fed K.meaning terms self.old v).effect }
        ensures state { self.new ≡ (fed K.meaning terms self.old v).state }
    {
        // State and value are matched together, as state and command in `take` (docs/DECISIONS.md, "Fixed forms").
        match (&mut *self, v) {
            (State::BusySingle(sp, captured), v) => {
                let Some(span) = take_value(captured, terms, v) else {
                    return Effect::none();
                };
                let verdict = evaluate_single(terms, *sp, span);
                *self = State::Idle;
                Effect::judged(verdict)
            }
            (State::BusyTwo(sp, tp, captured, points), v) => {
                let Some(span) = take_value(captured, terms, v) else {
                    return Effect::none();
                };
                let change = Change::Set(*sp, *tp);
                *self = State::WaitTwo(*sp, points.with(*tp, Some(span.middle())));
                Effect::of(change)
            }
            (State::DynStart(sp), v) => {
                *self = State::WaitDyn(*sp, Span::of(v));
                Effect::none()
            }
            (State::WaitDyn(_, span), v) => {
                *span = span.widened(v);
                Effect::none()
            }
            (State::Idle | State::WaitTwo(_, _), _) => Effect::none(),
        }
    }
}
