//! That what is written is read again.

ghost use Rattle.vm_laws.specs.Written.{WrittenIsRead};

/// What `print_series` of `vm_jsonline` writes is read again as its rows, where these keep the
/// limits of an import. The text of every sample's value is read as this value.
pub fn what_is_written_is_read()
    ensures { WrittenIsRead }
{}
