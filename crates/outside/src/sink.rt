ghost use Rattle.std.specs.Prelude.{ℕ, List, Bool, IsTrue};
ghost use Rattle.outside.specs.Fault.{HasCause, Takes};

use crate::Fault;

/// Where text goes.
pub trait Sink {
    /// Whether sinks of this type tell what they took. A terminal doesn't.
    ghost tells: { Bool };

    /// The bytes that it took, for a type that tells them.
    ghost taken: { Self → List ℕ };

    /// How often a call has failed.
    ghost faults: { Self → ℕ };

    /// Appends all the bytes. After a fault some first ones of them were appended.
    fn write(&mut self, bytes: &[u8]) -> Result<(), Fault>
        ensures taken { IsTrue tells → Takes (taken self.old) bytes.now result (taken self.new) }
        ensures cause { HasCause (faults self.old) (faults self.new) result };
}
