//! A line of a certificate: for `certificate`, and for who makes or checks certificates.

/// A line of a certificate's text, which stands in front of the lines of what it consists of.
#[derive(Clone, Copy, Debug, PartialEq, Eq)]
pub enum CertificateLine {
    /// No event.
    Empty,
    /// An event, at this place of the log. Places are counted from 1.
    Event(u64),
    /// So many parts of a sequence, or of what stands side by side.
    Parts(u64),
    /// The part of a choice that was taken. Parts are counted from 1.
    Branch(u64),
    /// What is below a tie.
    Inner,
    /// So many turns of a loop.
    Turns(u64),
    /// So many stops of a walk, the end's line with them.
    Walk(u64),
    /// A stop of a walk: the node with this number. The node's certificate follows.
    Node(u64),
}
