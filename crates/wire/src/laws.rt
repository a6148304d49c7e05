ghost use Rattle.wire.specs.Newlines.{NewlineIsReadOver};

/// A newline behind a certificate file is read over.
pub fn newline_is_read_over()
    ensures { NewlineIsReadOver }
{}
