// A sensor on a bench: one call at a time, with no heap.
ghost use Rattle.bench_sensor.specs.Kept.{due};
ghost use Rattle.std.specs.Prelude.{◌≡◌};

use keypad::Ticket;
use sensor::Sensor;

mod making;

/// A sensor with the ticket of its open keypad operation. It may be let go only by `end`, which closes an open
/// operation.
pub struct BenchSensor<K> {
    sensor: Sensor<K>,
    ticket: Option<Ticket>,
    ghost kept: { ticket ≡ due sensor },
}
