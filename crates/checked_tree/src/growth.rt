use crate::checked::Checked;

/// What was made of a path: the nodes that it leads from and to, and its tree; none where it was
/// not made.
#[derive(Debug, Drop)]
pub(crate) struct Growth {
    pub from: u32,
    pub to: u32,
    pub tree: Option<Checked>,
}
