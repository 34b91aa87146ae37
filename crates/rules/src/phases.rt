/// The phase of the trading day. Matches are made in the regular one only.
#[derive(Clone, Copy)]
pub enum Phase {
    PreOpen,
    Regular,
    Extended,
}
