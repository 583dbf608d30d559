ghost use Rattle.std.specs.Prelude.{Option, option_copied, ◌≡◌};
ghost use Rattle.cm_plain.specs.declared.plain.Plain.{Plain as PlainData};

use cm_plain::Plain;

/// A value of effects, which may be plain data.
pub trait EffectValue: Drop {
    /// The plain data that it is, if it is any.
    ghost plain: { Self → Option PlainData };

    /// The plain data that it is, if it is any. Takes no memory.
    fn as_plain(&self) -> Option<&Plain>
        ensures { option_copied result ≡ plain self.now };
}

impl EffectValue for Plain {
    ghost use Rattle.std.specs.Prelude.{Some};

    ghost plain = { λ value. Some value };

    fn as_plain(&self) -> Option<&Plain> {
        Some(self)
    }
}
