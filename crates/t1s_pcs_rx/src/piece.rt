//! What a receiver tells of a piece.

/// The symbol that closes a piece.
#[derive(Clone, Copy, PartialEq, Eq, Debug)]
pub enum Closer {
    /// ESDOK: a good piece.
    R,
    /// ESDERR: a bad piece.
    K,
    /// ESDJAB: a piece that was cut for jabber.
    S,
}

/// What a piece is: by its closer, and where that is R by its nibbles from the tenth on.
#[derive(Clone, Copy, PartialEq, Eq, Debug)]
pub enum Kind {
    /// A frame, whole and with the right frame check sequence.
    Good,
    /// The last four octets are not the frame check sequence of those before.
    BadFcs,
    /// An odd number of nibbles after the start-of-frame delimiter.
    Odd,
    /// Fewer than 64 octets after the start-of-frame delimiter.
    Runt,
    /// No start-of-frame delimiter where it must end.
    NoSfd,
    /// Closed by K.
    Errored,
    /// Closed by S.
    Jabber,
}

/// A piece, as its receiver lends it.
#[derive(Clone, Copy, PartialEq, Eq, Debug)]
pub struct PieceView<'a> {
    /// How many J stand before its two H: 2 to 4096.
    pub lead: u16,
    /// How many nibbles it has: 9 to 3056.
    pub groups: u16,
    /// The symbol that closes it.
    pub closer: Closer,
    pub kind: Kind,
    /// The octets of its frame, frame check sequence included, where the kind is `Good`; empty otherwise.
    pub frame: &'a [u8],
}
