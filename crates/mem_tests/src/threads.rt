// What may go to another thread.
ghost use Rattle.std.specs.Prelude.{◌≡◌};

/// The value, of a type that may be sent.
pub(crate) fn sent<T: Send>(value: T) -> T
    ensures { result ≡ value }
{
    value
}
