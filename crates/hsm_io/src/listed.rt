// The calls that are to fail, by their numbers.
ghost use Rattle.std.specs.Prelude.{◌≡◌};
ghost use Rattle.hsm_io.specs.MemoryForms.{is_listed};

// Whether the list names this call.
pub(crate) fn names_call(numbers: &[u32], call: u64) -> bool
    ensures { result ≡ is_listed numbers.now call }
{
    numbers.iter().any(|number| u64::from(*number) == call)
}
