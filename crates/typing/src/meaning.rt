/// A procedure as its calls see it: its place among the procedures, how many parameters it has, and
/// whether it returns a value.
#[derive(Clone, Copy)]
pub(crate) struct CallSignature {
    pub(crate) number: u32,
    pub(crate) params: usize,
    pub(crate) returns: bool,
}

/// What a declared name means: a variable by its column, or a procedure.
#[derive(Clone, Copy)]
pub(crate) enum Meaning {
    Variable(u32),
    Procedure(CallSignature),
}
