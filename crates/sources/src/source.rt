// What a source is.

ghost use Rattle.std.specs.Prelude.{◌≡◌, List, ℕ};
ghost use Rattle.values.specs.declared.value.Value.{Value};

use values::Value;

// `means` is the map from names to values that a source stands for; it is missing where the source has nothing.
// A look-up takes a shared reference, so the source cannot change.
pub trait Source {
    ghost means: { Self → List ℕ → Value };

    fn look_up(&self, name: &[u8]) -> Value
        ensures { result ≡ means self.now name.now };
}
