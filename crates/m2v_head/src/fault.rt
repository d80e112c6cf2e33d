/// What is wrong with a header: the first fault in reading order.
///
/// `field` is the number of the element in its header's syntax table, from 1, ids and markers included.
#[derive(Clone, Copy, Debug, PartialEq, Eq)]
pub enum HeadFault {
    /// An extension's id isn't that of its type.
    NoCode,
    /// The bits end inside an element.
    Truncated,
    /// A marker is 0.
    BadMarker,
    /// An element has a value that it may not have.
    Forbidden { field: u8 },
    /// An element has a value of a stream that this decoder doesn't read.
    Unsupported { field: u8, value: u32 },
}
