//! What a program prints: the trait `Sink`, and the error of a write.

ghost use Rattle.std.specs.Prelude.{◌≡◌, ◌≤◌, ◌-◌, IsOk, OnOk, OnErr, length};
ghost use Rattle.outside_io.specs.Faults.{HasRisen};
ghost use Rattle.outside_io.specs.Loads.{Writes};
ghost use Rattle.outside_io.specs.Models.{SinkModel};

/// Some of the bytes could not be written.
#[derive(Clone, Copy, Debug, PartialEq, Eq)]
pub struct Failed;

/// The place to which a program prints.
pub trait Sink {
    /// The bytes written so far, in a modelled sink; the count of faults; and how many further bytes are certain to be written.
    ghost modelled: { Self → SinkModel };

    /// Writes these bytes. After an error some of them, from the first on, may have been written.
    fn write(&mut self, bytes: &[u8]) -> Result<(), Failed>
        ensures modelled { Writes (modelled self.old).held (modelled self.new).held bytes.now result }
        ensures counted { (modelled self.old).faults ≤ (modelled self.new).faults }
        ensures failed { OnErr result (HasRisen (modelled self.old).faults (modelled self.new).faults) }
        ensures faults_unchanged { OnOk result ((modelled self.new).faults ≡ (modelled self.old).faults) }
        ensures steady_never_fails { length bytes.now ≤ (modelled self.old).sure → IsOk result }
        ensures left { length bytes.now ≤ (modelled self.old).sure → (modelled self.new).sure ≡ (modelled self.old).sure - length bytes.now };
}
