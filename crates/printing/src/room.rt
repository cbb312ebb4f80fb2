// Room in the lent bytes.
ghost use Rattle.std.specs.Prelude.{◌≡◌, ◌+◌};
ghost use Rattle.printing.specs.Put.{fits};

// Whether a text's bytes and so many more are left from a place on.
pub(crate) fn has_room(size: usize, at: usize, text: usize, more: usize) -> bool
    ensures { result ≡ fits (text + more) size at }
{
    at <= size && text <= size - at && more <= size - at - text
}
