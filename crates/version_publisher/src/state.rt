// What contracts see of the published value, of a version, a receipt, a publisher and a searcher.
// No value of these types is made. An opening is named by the three numbers of its log's book.
use std::collections::LinkedList;

/// A list of parts, each as the list of its items.
pub type Parts<T> = LinkedList<LinkedList<T>>;

/// A list of logs.
pub type Logs<T> = LinkedList<Parts<T>>;

/// What a reader or the writer of the published value knows: openings, the log that it found when
/// it entered last, and the logs that it published, in order.
pub struct Knowledge<T> {
    pub openings: LinkedList<(u64, u64, u64)>,
    pub read: Parts<T>,
    pub published: Logs<T>,
}

/// The published value: how many parts were appended, the items of the parts that are kept now, the
/// log of all that was appended, and the opening.
pub struct Content<T> {
    pub number: u64,
    pub parts: Parts<T>,
    pub log: Parts<T>,
    pub opening: (u64, u64, u64),
}

/// A version: the length of the log's prefix that it holds, and the items of each part.
pub struct VersionState<T> {
    pub number: u64,
    pub parts: Parts<T>,
}

/// A receipt: the opening, and the log as it was then.
pub struct ReceiptState<T> {
    pub opening: (u64, u64, u64),
    pub log: Parts<T>,
}

/// A publisher: the opening, the log, each log that was ever published, in order, the pending
/// parts, the published parts and those that the next publish shows, and whether a part or a merge
/// is pending.
pub struct PublisherState<T> {
    pub opening: (u64, u64, u64),
    pub log: Parts<T>,
    pub published: Logs<T>,
    pub pending: Parts<T>,
    pub parts: Parts<T>,
    pub next_parts: Parts<T>,
    pub has_pending: bool,
}

/// A searcher: the opening, the log that was published when it entered last, the log as far as it
/// has seen it, and as far as it has learned of it.
pub struct SearcherState<T> {
    pub opening: (u64, u64, u64),
    pub read: Parts<T>,
    pub seen: Parts<T>,
    pub learned: Parts<T>,
}
