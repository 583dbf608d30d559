ghost use Rattle.std.specs.Prelude.{◌≡◌, ◌≤◌, Err, IfSome, ℕ, Option};
ghost use Rattle.cm_outside.specs.Faults.{Rose};
ghost use Rattle.cm_outside.specs.Files.{Files, Loads, Saves};

use crate::store_fault::StoreFault;
use cm_plain::Str;

/// Where files are kept, each by its name.
pub trait Store {
    /// The files, where the store tells them.
    ghost files: { Self → Option Files };
    /// How often it failed. The count never falls.
    ghost faults: { Self → ℕ };

    /// The bytes of a file, or None exactly where there is no such file. No file changes, whatever is answered.
    /// `Failed` comes only where the count of faults rose.
    fn load(&mut self, name: &Str) -> Result<Option<Vec<u8>>, StoreFault>
        ensures files { IfSome (files self.old) (λ fs. Loads result name.now fs (files self.new)) }
        ensures later { faults self.old ≤ faults self.new }
        ensures cause { result ≡ Err StoreFault.Failed → Rose (faults self.old) (faults self.new) };

    /// Replaces the whole file, or makes it. After `Failed`, which comes only where the count of faults rose, the file
    /// is as before or as asked; `NoMemory` changes nothing. Each other file stays.
    fn save(&mut self, name: &Str, bytes: &[u8]) -> Result<(), StoreFault>
        ensures files { IfSome (files self.old) (λ fs. Saves result name.now bytes.now fs (files self.new)) }
        ensures later { faults self.old ≤ faults self.new }
        ensures cause { result ≡ Err StoreFault.Failed → Rose (faults self.old) (faults self.new) };
}
