// The part of a run that is drawn, and in which form.

/// What is written of a report.
#[derive(Clone, Copy)]
pub(crate) enum Form {
    Picture,
    Waveform,
}

/// The form, the ticks that are drawn, from the one up to the other, how many nodes there are, and the node of which a dump shows
/// what it hears.
#[derive(Clone, Copy)]
pub(crate) struct Window {
    pub(crate) form: Form,
    pub(crate) from: u32,
    pub(crate) until: u32,
    pub(crate) nodes: u32,
    pub(crate) heard: Option<u32>,
}
